// TXT pairs (specification, 'TXT pairs', refusals 6 and 9; RFC 6763, 6): what a key says in the TXT that was received and, when it is absent there, in
// the factory TXT; and the value, shown as a part of whichever buffer held it. Nothing is written and nothing is copied.
#![tactic(auto)]

ghost use Rattle.std.specs.Prelude.{◌≡◌, true, ◌-◌, ◌≤◌, length, take, drop};
ghost use Rattle.wire.specs.refusals.Numbers.{refused_by};
ghost use Rattle.wire.specs.rdata.Rdata.{strings_fill};
ghost use Rattle.wire.specs.rdata.Answers.{start_in};
ghost use Rattle.txt.specs.Txt.{key_of, has_key};
ghost use Rattle.txt.specs.Lookup.{bad_byte, bad_key, lookup_tests, refusal_of, given_by, in_txt, lookup_of, number_of, part_of, shown_of};
ghost use Rattle.txt.specs.Lookup.{holder, bytes_of, stands_from};

use wire::rdata::{part, strings_fill};
use wire::refusals::Refusal;

// Which of the two TXTs.
#[derive(Clone, Copy)]
pub enum Buffer {
    Received,
    Factory,
}

// Where a value lies: the buffer that holds it, its place there and its length.
#[derive(Clone, Copy)]
pub struct Held {
    pub buffer: Buffer,
    pub at: usize,
    pub len: usize,
}

// What a lookup answers: refused with its number, absent, present without value, empty value, or the value itself. All five in one enum (R-FORM-8), and the
// number, no `Refusal`: `part_of` takes an answer with any.
#[derive(Clone, Copy)]
pub enum Answer {
    Refused(u8),
    Absent,
    Present,
    Empty,
    Value(Held),
}

// What a lookup gives: the answer, and the part that it shows.
#[derive(Clone, Copy)]
pub struct Shown<'a> {
    pub answer: Answer,
    pub part: &'a [u8],
}

// Whether a byte may not stand in a key.
fn bad_byte(b: u8) -> bool
    ensures { result ≡ bad_byte b }
{
    b < 0x20 || 0x7E < b || b == b'='
}

// Whether a key may not be asked for.
fn bad_key(key: &[u8]) -> bool
    ensures { result ≡ bad_key key.now }
{
    key.is_empty() || key.iter().any(|b| bad_byte(*b))
}

// Whether a lookup is refused.
fn check(key: &[u8], received: &[u8], factory: &[u8]) -> Result<(), Refusal>
    ensures { result ≡ refused_by (lookup_tests key.now received.now factory.now) }
{
    if bad_key(key) {
        return Err(Refusal::Key);
    }
    if !strings_fill(received) || !strings_fill(factory) {
        return Err(Refusal::Malformed);
    }
    Ok(())
}

// The length of a string's key: the bytes before its first "=", or all of them.
fn key_len(s: &[u8]) -> usize
    ensures { result ≡ length (key_of s.now) }
{
    s.iter().position(|b| *b == b'=').unwrap_or(s.len())
}

// Whether a string has the key, ASCII case ignored. A string with no key has none.
#[tactic(auto, using(crate::proofs::Pairs::no_key, crate::proofs::Pairs::some_key))]
fn has_key(s: &[u8], key: &[u8]) -> bool
    ensures { result ≡ has_key key.now s.now }
{
    let n = key_len(s);
    n != 0 && wire::case_folding::same_name(&s[..n], key)
}

// What the string from `start` to `end` of a TXT gives.
fn given(txt: &[u8], buffer: Buffer, start: usize, end: usize) -> Answer
    requires { (start ≤ end) × (end ≤ length txt.now) }
    ensures { result ≡ given_by buffer start (take (end - start) (drop start txt.now)) }
{
    let n = key_len(&txt[start..end]);
    if end - start == n {
        return Answer::Present;
    }
    let at = start + n + 1;
    let len = end - at;
    if len == 0 {
        Answer::Empty
    } else {
        Answer::Value(Held { buffer, at, len })
    }
}

// What the first string that has the key gives, in a TXT that strings fill.
fn find(key: &[u8], txt: &[u8], buffer: Buffer) -> Answer
    requires { strings_fill 0 txt.now ≡ true }
    ensures { result ≡ in_txt buffer key.now txt.now }
{
    // by strides of a string each, so that no `for` fits
    let mut at = 0;
    while at < txt.len() {
        let start = at + 1;
        let end = start + txt[at] as usize;
        if has_key(&txt[start..end], key) {
            return given(txt, buffer, start, end);
        }
        at = end;
    }
    Answer::Absent
}

// The answer for a key: the received TXT is asked, and the factory TXT when the key is absent there.
pub fn answer_for<'k, 'a>(key: &'k [u8], received: &'a [u8], factory: &'a [u8]) -> Answer
    ensures answer { result ≡ lookup_of key.now received.now factory.now }
    ensures number { number_of result ≡ refusal_of key.now received.now factory.now }
{
    if let Err(refusal) = check(key, received, factory) {
        return Answer::Refused(refusal.number());
    }
    let answer = find(key, received, Buffer::Received);
    match answer {
        Answer::Absent => find(key, factory, Buffer::Factory),
        _ => answer,
    }
}

// The part that an answer shows: a part of the buffer that it names, or, where it has no value, the empty part at the received TXT's start.
// Of an answer for other TXTs, what lies past the buffer's end is left out.
pub fn part_of<'a>(answer: Answer, received: &'a [u8], factory: &'a [u8]) -> &'a [u8]
    ensures bytes { result.now ≡ bytes_of (part_of answer) received.now factory.now }
    ensures start { (let h : Held = part_of answer in
        result.ref_ptr ≡ start_in (holder h.buffer received.now factory.now) h.at
        (holder h.buffer received.entry.ref_ptr factory.entry.ref_ptr)) }
{
    match answer {
        Answer::Value(held) => match held.buffer {
            Buffer::Received => part(received, held.at, held.len),
            Buffer::Factory => part(factory, held.at, held.len),
        },
        _ => &received[..0],
    }
}

// The lookup: the answer for a key and the part that it shows, together.
pub fn lookup<'k, 'a>(key: &'k [u8], received: &'a [u8], factory: &'a [u8]) -> Shown<'a>
    ensures answer { result.answer ≡ lookup_of key.now received.now factory.now }
    ensures number { number_of result.answer ≡ refusal_of key.now received.now factory.now }
    ensures bytes { (let h : Held = shown_of key.now received.now factory.now in
        result.part.now ≡ bytes_of h received.now factory.now) }
    ensures start { (let h : Held = shown_of key.now received.now factory.now in
        result.part.ref_ptr ≡ stands_from h received.entry.ref_ptr factory.entry.ref_ptr) }
{
    let answer = answer_for(key, received, factory);
    Shown {
        answer,
        part: part_of(answer, received, factory),
    }
}
