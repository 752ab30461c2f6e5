// The rdata of a record (specification, 'Reading a message'), handed on as a part of the packet that starts in its middle, together with the whole
// packet for pointers. The readers of an address, of an SRV and of a TXT's strings read such a part; whether rdata is as its type asks is what they say.
ghost use Rattle.std.specs.Prelude.{◌≡◌, ◌+◌, ◌≤◌, length, take, drop};
ghost use Rattle.wire.specs.names.Names.{name_at};
ghost use Rattle.wire.specs.rdata.Rdata.{strings_fill, form_of, next_form, form_in, form_at, rdata_in, rdata_at};
ghost use Rattle.wire.specs.rdata.Readers.{address_bytes, address_in, string_at, name_in, srv_in};
ghost use Rattle.wire.specs.rdata.Answers.{fits, start_in};

use crate::message::RecordAt;
use crate::names::{Span, name_at};
use crate::octets::be16;

// The six types (RFC 1035, RFC 2782, RFC 3596, RFC 4034). Numbers, and no enum: a record may have any of 65,536 types, and each is handed on.
pub const A: u16 = 1;

pub const PTR: u16 = 12;

pub const TXT: u16 = 16;

pub const AAAA: u16 = 28;

pub const SRV: u16 = 33;

pub const NSEC: u16 = 47;

// The form of rdata: whether it holds a name, and how many bytes stand before it and behind it, which are added without a test: no Option, they are 0 where no
// name is.
#[derive(Clone, Copy)]
pub struct Form {
    pub named: bool,
    pub before: usize,
    pub behind: usize,
}

// A string of a TXT as it lies: where its text starts, how long that is, and where the next string starts.
#[derive(Clone, Copy)]
pub struct StringAt {
    pub text: usize,
    pub len: usize,
    pub next: usize,
}

// What stands at a place of a TXT: a string, the end of the TXT, or a string that runs past it. Each caller tells the three apart: an Option in a Result
// would be two matches.
#[derive(Clone, Copy)]
pub enum StringRead {
    Found(StringAt),
    End,
    Malformed,
}

// An SRV as it lies: its numbers, and where in the packet its target starts and the span of that.
#[derive(Clone, Copy)]
pub struct SrvAt {
    pub priority: u16,
    pub weight: u16,
    pub port: u16,
    pub target: usize,
    pub span: Span,
}

// How many bytes the address of a type has: 4 of an A, 16 of an AAAA, and 0 where it has none.
// A number, and no Option: the definition has one for every type, and a length is compared with it.
fn address_bytes(rtype: u16) -> usize
    ensures { result ≡ address_bytes rtype }
{
    match rtype {
        A => 4,
        AAAA => 16,
        _ => 0,
    }
}

// The address in `d`, the rdata of a type: the part itself, and the empty part at its start where it is no address.
pub fn address_in<'a>(d: &'a [u8], rtype: u16) -> &'a [u8]
    ensures bytes { result.now ≡ address_in rtype d.now }
    ensures start { result.ref_ptr ≡ d.entry.ref_ptr }
{
    if d.len() == address_bytes(rtype) {
        d
    } else {
        &d[..0]
    }
}

// The string at a place of `d`, the rdata of a TXT.
pub fn string_at(d: &[u8], at: usize) -> StringRead
    ensures { result ≡ string_at d.now at }
{
    if d.len() <= at {
        return StringRead::End;
    }
    let len = d[at] as usize;
    let text = at + 1;
    if d.len() - text < len {
        return StringRead::Malformed;
    }
    StringRead::Found(StringAt {
        text,
        len,
        next: text + len,
    })
}

// Whether strings, each after its length byte, fill the data exactly.
pub fn strings_fill(d: &[u8]) -> bool
    ensures { result ≡ strings_fill 0 d.now }
{
    // by strides of a string each, so that no `for` fits
    let mut at = 0;
    loop {
        match string_at(d, at) {
            StringRead::Found(s) => {
                at = s.next;
            }
            StringRead::End => {
                return true;
            }
            StringRead::Malformed => {
                return false;
            }
        }
    }
}

// The name between the first `before` and the last `behind` bytes of `d`, the part of `p` that starts at `at`, if it ends exactly there.
pub fn name_in(p: &[u8], at: usize, d: &[u8], before: usize, behind: usize) -> Option<Span>
    ensures { result ≡ name_in p.now at d.now before behind }
{
    if p.len() < at {
        return None;
    }
    if p.len() - at < d.len() {
        return None;
    }
    if d.len() < behind {
        return None;
    }
    if d.len() - behind < before {
        return None;
    }
    let span = name_at(p, at + before)?;
    if span.end == at + (d.len() - behind) {
        Some(span)
    } else {
        None
    }
}

// The SRV in `d`, the part of `p` that starts at `at`: priority, weight, port and target.
pub fn srv_in(p: &[u8], at: usize, d: &[u8]) -> Option<SrvAt>
    ensures { result ≡ srv_in p.now at d.now }
{
    let span = name_in(p, at, d, 6, 0)?;
    Some(SrvAt {
        priority: be16(d, 0),
        weight: be16(d, 2),
        port: be16(d, 4),
        target: at + 6,
        span,
    })
}

// The form of rdata by its type alone: that of PTR and SRV holds a name.
pub fn form_of(rtype: u16) -> Form
    ensures { result ≡ form_of rtype }
{
    Form {
        named: rtype == PTR || rtype == SRV,
        before: if rtype == SRV { 6 } else { 0 },
        behind: 0,
    }
}

// The form of an NSEC's rdata in `d`, the part of `p` that starts at `at`: of the restricted kind it is a name that equals the owner's, which stands at
// `owner`, and a window block.
pub fn next_form(p: &[u8], owner: usize, at: usize, d: &[u8]) -> Form
    ensures { result ≡ next_form p.now owner at d.now (name_at p.now at) }
{
    let e = crate::names::expand(p, at);
    let name = e.name;
    let b = e.bytes;
    match name {
        Some(span) => {
            let len = span.len;
            if !crate::names::name_is(p, owner, &b[..len]) {
                return form_of(NSEC);
            }
            let own = span.end - at;
            if d.len() < own {
                return form_of(NSEC);
            }
            if !crate::nsec::is_block(&d[own..]) {
                return form_of(NSEC);
            }
            Form {
                named: true,
                before: 0,
                behind: d.len() - own,
            }
        }
        None => form_of(NSEC),
    }
}

// The form of a record's rdata in `d`, the part of `p` where it lies.
pub fn form_in(p: &[u8], f: RecordAt, d: &[u8]) -> Form
    ensures { result ≡ form_in p.now f d.now }
{
    if f.rtype != NSEC {
        return form_of(f.rtype);
    }
    next_form(p, f.owner, f.rdata, d)
}

// The form of a record's rdata as it lies.
pub fn form_at(p: &[u8], f: RecordAt) -> Form
    ensures { result ≡ form_at p.now f }
{
    form_in(p, f, part(p, f.rdata, f.rdlength))
}

// Whether `d`, the part of `p` that is a record's rdata, is as its type asks: A 4 bytes, PTR one name, TXT strings, AAAA 16 bytes, SRV 6 bytes and one
// name; of other types nothing is asked. An NSEC is not handed in, so that the form is known by the type alone.
fn part_fits(p: &[u8], d: &[u8], f: RecordAt) -> bool
    requires d_in_bounds { f.rdata + length d.now ≤ length p.now }
    requires fact { f.rtype ≡ 47 → ⊥ }
    ensures { result ≡ fits (rdata_in p.now f d.now) }
{
    if f.rtype == A {
        return address_in(d, A).len() == 4;
    }
    if f.rtype == TXT {
        return strings_fill(d);
    }
    if f.rtype == AAAA {
        return address_in(d, AAAA).len() == 16;
    }
    if f.rtype == SRV {
        return srv_in(p, f.rdata, d).is_some();
    }
    let held = form_of(f.rtype);
    if !held.named {
        return true;
    }
    name_in(p, f.rdata, d, held.before, held.behind).is_some()
}

// Whether the rdata of a record as it lies is as its type asks; of an NSEC nothing is asked.
pub fn rdata_fits(p: &[u8], f: RecordAt) -> bool
    ensures { result ≡ fits (rdata_at p.now f) }
{
    let at = f.rdata;
    if p.len() < at {
        return false;
    }
    if p.len() - at < f.rdlength {
        return false;
    }
    if f.rtype == NSEC {
        return true;
    }
    let end = at + f.rdlength;
    part_fits(p, &p[at..end], f)
}

// The rdata itself, as a part of the packet: the address of an A or AAAA record, the strings of a TXT. What lies past the packet's end is left out.
pub fn part<'a>(p: &'a [u8], at: usize, len: usize) -> &'a [u8]
    ensures bytes { result.now ≡ take len (drop at p.now) }
    ensures start { result.ref_ptr ≡ start_in p.now at p.entry.ref_ptr }
{
    let size = p.len();
    if size < at {
        return &p[size..];
    }
    if size - at < len {
        return &p[at..];
    }
    let end = at + len;
    &p[at..end]
}
