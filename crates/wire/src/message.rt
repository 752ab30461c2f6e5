// Reads a message (specification, 'Reading a message'; RFC 1035, 4): a header, then questions and records by their counts. A caller checks the whole
// message once, and then walks a section with a cursor.
ghost use Rattle.std.specs.Prelude.{◌≡◌};
ghost use Rattle.wire.specs.message.Message.{ttl_of};
ghost use Rattle.wire.specs.message.Layout.{question_read, record_behind, record_read, question_at, record_at, list_from};
ghost use Rattle.wire.specs.message.Layout.{sections_of, plain_header, message_at, read_of, refusal_of};
ghost use Rattle.wire.specs.message.Places.{past_item, past_list};
ghost use Rattle.wire.specs.message.Readable.{whole_read};
ghost use Rattle.wire.specs.message.Refusals.{wrong_port, packet_refusal, message_from};

use crate::names::{Span, name_at};
use crate::octets::{be16, be32};
use crate::rdata::rdata_fits;
use crate::refusals::Refusal;

pub const LEAST_MESSAGE: usize = 12;

pub const MOST_MESSAGE: usize = 8972;

// The longest message that one Ethernet frame carries. A longer one is read with notes (`long_message`), whose clearing costs more than reading a short one.
pub const MOST_IN_FRAME: usize = 1472;

// The port that responses come from, and queries of those who take part in mDNS.
pub const MDNS_PORT: u16 = 5353;

// Flags from here on have the QR bit: a response.
const RESPONSE: u16 = 32768;

// A question as it lies: where its name starts and the span of that, its type and class, and the offset past it.
#[derive(Clone, Copy)]
pub struct QuestionAt {
    pub name: usize,
    pub span: Span,
    pub rtype: u16,
    pub class: u16,
    pub next: usize,
}

// A record as it lies: where its owner starts and the span of that; its type; its class as on the wire; its TTL as it counts; where its rdata starts and
// how long it is; and the offset past it.
#[derive(Clone, Copy)]
pub struct RecordAt {
    pub owner: usize,
    pub span: Span,
    pub rtype: u16,
    pub class: u16,
    pub ttl: u32,
    pub rdata: usize,
    pub rdlength: usize,
    pub next: usize,
}

// A section: where it starts, and how many questions or records it has.
#[derive(Clone, Copy)]
pub struct Section {
    pub at: usize,
    pub count: u16,
}

// A message as it lies: the header's ID and flags, the four sections, and the offset past the last record.
#[derive(Clone, Copy)]
pub struct Layout {
    pub id: u16,
    pub flags: u16,
    pub questions: Section,
    pub answers: Section,
    pub authorities: Section,
    pub additionals: Section,
    pub end: usize,
}

// The question at an offset; none where it is malformed.
pub fn question_at(p: &[u8], at: usize) -> Option<QuestionAt>
    ensures { result ≡ question_read p.now at }
{
    let span = name_at(p, at)?;
    let end = span.end;
    if p.len() < end || p.len() - end < 4 {
        return None;
    }
    Some(QuestionAt {
        name: at,
        span,
        rtype: be16(p, end),
        class: be16(p, end + 2),
        next: end + 4,
    })
}

// A TTL as it counts: 0 where its top bit is set.
pub fn counted_ttl(ttl: u32) -> u32
    ensures { result ≡ ttl_of ttl }
{
    if ttl < 2147483648 { ttl } else { 0 }
}

// The record whose owner starts at an offset and has this span: the owner was read, and is not followed again. Its rdata lies in the packet; whether it is as
// its type asks is not looked at here.
pub fn record_behind(p: &[u8], at: usize, span: Span) -> Option<RecordAt>
    ensures { result ≡ record_behind p.now at span }
{
    let end = span.end;
    if p.len() < end || p.len() - end < 10 {
        return None;
    }
    let rdlength = be16(p, end + 8) as usize;
    let rdata = end + 10;
    if p.len() - rdata < rdlength {
        return None;
    }
    Some(RecordAt {
        owner: at,
        span,
        rtype: be16(p, end),
        class: be16(p, end + 2),
        ttl: counted_ttl(be32(p, end + 4)),
        rdata,
        rdlength,
        next: rdata + rdlength,
    })
}

// The record at an offset; none where it is malformed.
pub fn record_at(p: &[u8], at: usize) -> Option<RecordAt>
    ensures { result ≡ record_read p.now at }
{
    let span = name_at(p, at)?;
    record_behind(p, at, span)
}

// The record at an offset, if its rdata is as its type asks.
pub fn whole_record(p: &[u8], at: usize) -> Option<RecordAt>
    ensures { result ≡ whole_read p.now at }
{
    let f = record_at(p, at)?;
    if rdata_fits(p, f) { Some(f) } else { None }
}

// Past the question at an offset.
fn past_question(p: &[u8], at: usize) -> Option<usize>
    ensures { result ≡ past_item (question_at p.now at) }
{
    let q = question_at(p, at)?;
    Some(q.next)
}

// Past the record at an offset, where its rdata is as its type asks.
fn past_record(p: &[u8], at: usize) -> Option<usize>
    ensures { result ≡ past_item (record_at p.now at) }
{
    let r = record_at(p, at)?;
    if rdata_fits(p, r) { Some(r.next) } else { None }
}

// Past so many questions.
// A loop for each list: one with a closure would need a type parameter and a law of the closure.
fn questions_end(p: &[u8], at: usize, count: u16) -> Option<usize>
    ensures { result ≡ past_list (list_from (question_at p.now) count at) }
{
    let mut here = at;
    for _read in 0..count {
        here = past_question(p, here)?;
    }
    Some(here)
}

// Past so many records.
fn records_end(p: &[u8], at: usize, count: u16) -> Option<usize>
    ensures { result ≡ past_list (list_from (record_at p.now) count at) }
{
    let mut here = at;
    for _read in 0..count {
        here = past_record(p, here)?;
    }
    Some(here)
}

// Whether the opcode and the RCODE of a header's flags are zero.
pub fn plain_header(flags: u16) -> bool
    ensures { result ≡ plain_header flags }
{
    flags / 2048 % 16 == 0 && flags % 16 == 0
}

// The sections of a packet that is long enough for a header. Those of records are read by one loop, so that the code that reads a record stands in it once.
fn read_sections(p: &[u8]) -> Result<Layout, Refusal>
    ensures { result ≡ read_of (sections_of p.now) }
{
    let questions = be16(p, 4);
    let answers = be16(p, 6);
    let authorities = be16(p, 8);
    let additionals = be16(p, 10);
    let Some(a) = questions_end(p, LEAST_MESSAGE, questions) else {
        return Err(Refusal::Malformed);
    };
    // where the two sections before the one at `end` begin
    let mut b = a;
    let mut c = a;
    let mut end = a;
    for k in 0..3 {
        let Some(next) = records_end(p, end, be16(p, 6 + 2 * k)) else {
            return Err(Refusal::Malformed);
        };
        b = c;
        c = end;
        end = next;
    }
    Ok(Layout {
        id: be16(p, 0),
        flags: be16(p, 2),
        questions: Section {
            at: LEAST_MESSAGE,
            count: questions,
        },
        answers: Section {
            at: a,
            count: answers,
        },
        authorities: Section {
            at: b,
            count: authorities,
        },
        additionals: Section {
            at: c,
            count: additionals,
        },
        end,
    })
}

// The whole message: refused as 4, 5 or 6, in this order, or where its sections lie.
// Beside read_from and read_long: the order of the refusals differs.
pub fn read_message(p: &[u8]) -> Result<Layout, Refusal>
    ensures answer { result ≡ read_of (message_at p.now) }
    ensures number { refusal_of result ≡ packet_refusal p.now }
{
    if p.len() < LEAST_MESSAGE {
        return Err(Refusal::Length);
    }
    if MOST_IN_FRAME < p.len() {
        return crate::long_message::read_long(p);
    }
    if !plain_header(be16(p, 2)) {
        return Err(Refusal::Header);
    }
    read_sections(p)
}

// Whether the port that a packet came from is wrong: a response comes from 5353, a query from any.
fn port_refused(p: &[u8], port: u16) -> bool
    ensures { result ≡ wrong_port port p.now }
{
    RESPONSE <= be16(p, 2) && port != MDNS_PORT
}

// The message of a packet that came from a port: refused as 4, 5 or 6, in this order, or where its sections lie. From a wrong port nothing is read.
pub fn read_from(p: &[u8], port: u16) -> Result<Layout, Refusal>
    ensures { result ≡ read_of (message_from port p.now) }
{
    if p.len() < LEAST_MESSAGE || MOST_MESSAGE < p.len() {
        return Err(Refusal::Length);
    }
    if port_refused(p, port) {
        return Err(Refusal::Header);
    }
    read_message(p)
}
