// Reads a long message (specification, 'Reading a message'). How long a name is to which a pointer leads is noted, so that a chain of pointers, and a name
// behind it, is read once, however many names lead there: the time for a message grows with its length, and not with the square of it.
ghost use Rattle.std.specs.Prelude.{◌≡◌, ◌+◌, ◌<◌, ◌≤◌, length};
ghost use Rattle.wire.specs.names.Names.{name_at};
ghost use Rattle.wire.specs.rdata.Rdata.{strings_fill, rdata_at};
ghost use Rattle.wire.specs.rdata.Answers.{fits};
ghost use Rattle.wire.specs.message.Layout.{question_at, record_at, list_from, sections_of, message_at, read_of};
ghost use Rattle.wire.specs.message.Places.{past_item, past_list};
ghost use Rattle.wire.specs.long_message.Noted.{Noted, length_of, past_name, ends_at};

use crate::message::{LEAST_MESSAGE, Layout, MOST_MESSAGE, RecordAt, Section, plain_header};
use crate::name_pieces::{MOST_NAME, Piece, piece_at};
use crate::names::Span;
use crate::octets::be16;
use crate::rdata::{A, AAAA, PTR, SRV, StringRead, TXT};
use crate::refusals::Refusal;

// Notes how long each name is to which a pointer of the name at `at` leads, up to that at `last`, as far as it is not noted yet; `len` is the length of the
// name at `at` itself.
// A byte for each offset, and no Option: memory is fixed, and the table is cleared for each long message.
fn note(p: &[u8], at: usize, len: usize, last: usize, noted: &mut [u8; 8972])
    requires p_len_bound { length p.now ≤ 8972 }
    requires len_nonzero { 0 < len }
    requires len_value { len ≡ length_of (name_at p.now at) }
    requires noted { Noted p.now noted.old }
    ensures { Noted p.now noted.new }
{
    let mut start = at;
    let mut here = at;
    let mut used = 0;
    // piece by piece: a pointer leads elsewhere, so that no `for` fits
    loop {
        match piece_at(p, start, here, used) {
            Piece::Root => {
                return;
            }
            Piece::Label(n) => {
                here = here + 1 + n;
                used = used + 1 + n;
            }
            Piece::Pointer(target) => {
                if noted[target] != 0 {
                    return;
                }
                noted[target] = (len - used) as u8;
                if target == last {
                    return;
                }
                start = target;
                here = target;
            }
            Piece::Bad => {
                return;
            }
        }
    }
}

// Past the name at an offset.
fn past_name(p: &[u8], at: usize, noted: &mut [u8; 8972]) -> Option<usize>
    requires p_len_bound { length p.now ≤ 8972 }
    requires noted { Noted p.now noted.old }
    ensures answer { result ≡ past_name (name_at p.now at) }
    ensures notes { Noted p.now noted.new }
{
    let mut start = at;
    let mut here = at;
    let mut used = 0;
    // past the first pointer, and 0 until one has been followed
    let mut end = 0;
    // piece by piece: a pointer leads elsewhere, so that no `for` fits
    loop {
        match piece_at(p, start, here, used) {
            Piece::Root => {
                if end == 0 {
                    return Some(here + 1);
                }
                note(p, at, used + 1, start, noted);
                return Some(end);
            }
            Piece::Label(n) => {
                here = here + 1 + n;
                used = used + 1 + n;
            }
            Piece::Pointer(target) => {
                let rest = noted[target] as usize;
                if 0 < rest {
                    if MOST_NAME - used < rest {
                        return None;
                    }
                    if end == 0 {
                        return Some(here + 2);
                    }
                    note(p, at, used + rest, start, noted);
                    return Some(end);
                }
                if end == 0 {
                    end = here + 2;
                }
                start = target;
                here = target;
            }
            Piece::Bad => {
                return None;
            }
        }
    }
}

// Whether the name at an offset ends at `end`.
fn ends_at(p: &[u8], at: usize, end: usize, noted: &mut [u8; 8972]) -> bool
    requires p_len_bound { length p.now ≤ 8972 }
    requires noted { Noted p.now noted.old }
    ensures answer { result ≡ ends_at end (name_at p.now at) }
    ensures notes { Noted p.now noted.new }
{
    past_name(p, at, noted) == Some(end)
}

// Whether strings, each after its length byte, fill the data exactly, as `rdata::strings_fill`, which a second caller would make slower.
fn strings_fill(d: &[u8]) -> bool
    ensures { result ≡ strings_fill 0 d.now }
{
    // by strides of a string each, so that no `for` fits
    let mut at = 0;
    loop {
        match crate::rdata::string_at(d, at) {
            StringRead::Found(s) => {
                at = s.next;
            }
            StringRead::End => {
                return true;
            }
            StringRead::Malformed => {
                return false;
            }
        }
    }
}

// Whether the rdata of a record is as its type asks, as `rdata::rdata_fits` answers it, which is kept for short messages: a second caller makes it slower.
fn fits_noted(p: &[u8], f: RecordAt, noted: &mut [u8; 8972]) -> bool
    requires p_len_bound { length p.now ≤ 8972 }
    requires rdlength_in_bounds { f.rdata + f.rdlength ≤ length p.now }
    requires noted { Noted p.now noted.old }
    ensures answer { result ≡ fits (rdata_at p.now f) }
    ensures notes { Noted p.now noted.new }
{
    let end = f.rdata + f.rdlength;
    if f.rtype == PTR {
        return ends_at(p, f.rdata, end, noted);
    }
    if f.rtype == SRV {
        if f.rdlength < 6 {
            return false;
        }
        return ends_at(p, f.rdata + 6, end, noted);
    }
    if f.rtype == A {
        return f.rdlength == 4;
    }
    if f.rtype == AAAA {
        return f.rdlength == 16;
    }
    if f.rtype == TXT {
        let at = f.rdata;
        return strings_fill(&p[at..end]);
    }
    true
}

// Past the question at an offset.
fn past_question(p: &[u8], at: usize, noted: &mut [u8; 8972]) -> Option<usize>
    requires p_len_bound { length p.now ≤ 8972 }
    requires noted { Noted p.now noted.old }
    ensures answer { result ≡ past_item (question_at p.now at) }
    ensures notes { Noted p.now noted.new }
{
    let end = past_name(p, at, noted)?;
    if p.len() < end || p.len() - end < 4 {
        return None;
    }
    Some(end + 4)
}

// Past the record at an offset, where its rdata is as its type asks, for which the owner's span, the class and the TTL do not count.
fn past_record(p: &[u8], at: usize, noted: &mut [u8; 8972]) -> Option<usize>
    requires p_len_bound { length p.now ≤ 8972 }
    requires noted { Noted p.now noted.old }
    ensures answer { result ≡ past_item (record_at p.now at) }
    ensures notes { Noted p.now noted.new }
{
    let end = past_name(p, at, noted)?;
    if p.len() < end || p.len() - end < 10 {
        return None;
    }
    let rdlength = be16(p, end + 8) as usize;
    let rdata = end + 10;
    if p.len() - rdata < rdlength {
        return None;
    }
    let f = RecordAt {
        owner: at,
        span: Span {
            end,
            len: 0,
            labels: 0,
            first: 0,
        },
        rtype: be16(p, end),
        class: 0,
        ttl: 0,
        rdata,
        rdlength,
        next: rdata + rdlength,
    };
    if fits_noted(p, f, noted) {
        Some(f.next)
    } else {
        None
    }
}

// Past so many questions.
// A loop for each list: one with a closure would need a type parameter and a law of the closure.
fn questions_end(p: &[u8], at: usize, count: u16, noted: &mut [u8; 8972]) -> Option<usize>
    requires p_len_bound { length p.now ≤ 8972 }
    requires noted { Noted p.now noted.old }
    ensures answer { result ≡ past_list (list_from (question_at p.now) count at) }
    ensures notes { Noted p.now noted.new }
{
    let mut here = at;
    for _read in 0..count {
        here = past_question(p, here, noted)?;
    }
    Some(here)
}

// Past so many records.
fn records_end(p: &[u8], at: usize, count: u16, noted: &mut [u8; 8972]) -> Option<usize>
    requires p_len_bound { length p.now ≤ 8972 }
    requires noted { Noted p.now noted.old }
    ensures answer { result ≡ past_list (list_from (record_at p.now) count at) }
    ensures notes { Noted p.now noted.new }
{
    let mut here = at;
    for _read in 0..count {
        here = past_record(p, here, noted)?;
    }
    Some(here)
}

// The sections of a packet that is long enough for a header.
// Not one with message::read_sections: each step here hands the notes on.
fn read_sections(p: &[u8]) -> Result<Layout, Refusal>
    requires { length p.now ≤ 8972 }
    ensures { result ≡ read_of (sections_of p.now) }
{
    let questions = be16(p, 4);
    let answers = be16(p, 6);
    let authorities = be16(p, 8);
    let additionals = be16(p, 10);
    let mut noted = [0u8; 8972];
    let Some(a) = questions_end(p, LEAST_MESSAGE, questions, &mut noted) else {
        return Err(Refusal::Malformed);
    };
    let Some(b) = records_end(p, a, answers, &mut noted) else {
        return Err(Refusal::Malformed);
    };
    let Some(c) = records_end(p, b, authorities, &mut noted) else {
        return Err(Refusal::Malformed);
    };
    let Some(end) = records_end(p, c, additionals, &mut noted) else {
        return Err(Refusal::Malformed);
    };
    Ok(Layout {
        id: be16(p, 0),
        flags: be16(p, 2),
        questions: Section {
            at: LEAST_MESSAGE,
            count: questions,
        },
        answers: Section {
            at: a,
            count: answers,
        },
        authorities: Section {
            at: b,
            count: authorities,
        },
        additionals: Section {
            at: c,
            count: additionals,
        },
        end,
    })
}

// The whole message, as `message::read_message` answers it; for a long one, since the notes are cleared first.
pub fn read_long(p: &[u8]) -> Result<Layout, Refusal>
    ensures { result ≡ read_of (message_at p.now) }
{
    if p.len() < LEAST_MESSAGE || MOST_MESSAGE < p.len() {
        return Err(Refusal::Length);
    }
    if !plain_header(be16(p, 2)) {
        return Err(Refusal::Header);
    }
    read_sections(p)
}
