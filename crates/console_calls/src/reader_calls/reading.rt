// The call `read PACKET`: what a message says, question by question and record by record.
use crate::output::{bad_line, bytes, finish, first, number, refused, word};
use console_text::fields::{are_bytes, has_arguments};
use console_text::hex::fill;
use console_text::lines::{field, front};
use wire::expansion::{open, view};
use wire::message::{Layout, QuestionAt, RecordAt, Section, question_at, read_message, record_at};
use wire::names::{Span, expand};
use wire::rdata::{form_in, name_in, part};

// Adds the name at an offset of a packet, uncompressed.
fn name(p: &[u8], at: usize, rt: &impl Print, text: &mut [u8; 4096], used: usize) -> usize {
    let e = expand(p, at);
    let Some(span) = e.name else {
        return used;
    };
    bytes(rt, text, used, front(&e.bytes, span.len))
}

// Adds the two numbers of a name: how many labels it has, and how long the first is.
fn numbers(span: Span, rt: &impl Print, text: &mut [u8; 4096], used: usize) -> usize {
    let used = number(rt, text, used, span.labels as u64);
    number(rt, text, used, span.first as u64)
}

// Adds a question: ` q NAME LABELS FIRST TYPE CLASS`.
fn question(p: &[u8], q: QuestionAt, rt: &impl Print, text: &mut [u8; 4096], used: usize) -> usize {
    let used = word(rt, text, used, b"q");
    let used = name(p, q.name, rt, text, used);
    let used = numbers(q.span, rt, text, used);
    let used = number(rt, text, used, q.rtype as u64);
    number(rt, text, used, q.class as u64)
}

// Adds the rdata of a record, the name in PTR, SRV and NSEC expanded.
fn rdata(p: &[u8], r: RecordAt, rt: &impl Print, text: &mut [u8; 4096], used: usize) -> usize {
    let opened = open(p, r);
    bytes(rt, text, used, view(p, &opened.bytes, opened.len, r))
}

// Adds the two numbers of the name in rdata that holds one, as that of PTR, SRV and an NSEC of the restricted kind does.
fn target(p: &[u8], r: RecordAt, rt: &impl Print, text: &mut [u8; 4096], used: usize) -> usize {
    let d = part(p, r.rdata, r.rdlength);
    let held = form_in(p, r, d);
    if !held.named {
        return used;
    }
    let Some(span) = name_in(p, r.rdata, d, held.before, held.behind) else {
        return used;
    };
    numbers(span, rt, text, used)
}

// Adds a record: ` r SECTION NAME LABELS FIRST TYPE CLASS TTL RDATA`, and behind the rdata of PTR, SRV and NSEC ` LABELS FIRST` of the name in it.
fn record(
    p: &[u8],
    r: RecordAt,
    section: &[u8],
    rt: &impl Print,
    text: &mut [u8; 4096],
    used: usize,
) -> usize {
    let used = word(rt, text, used, b"r");
    let used = word(rt, text, used, section);
    let used = name(p, r.owner, rt, text, used);
    let used = numbers(r.span, rt, text, used);
    let used = number(rt, text, used, r.rtype as u64);
    let used = number(rt, text, used, r.class as u64);
    let used = number(rt, text, used, r.ttl as u64);
    let used = rdata(p, r, rt, text, used);
    target(p, r, rt, text, used)
}

// Adds the questions of a message.
// A loop each for questions and records: one with a closure would be no shorter.
fn questions(p: &[u8], s: Section, rt: &impl Print, text: &mut [u8; 4096], used: usize) -> usize {
    let mut taken = used;
    let mut at = s.at;
    for _ in 0..s.count {
        let Some(q) = question_at(p, at) else {
            return taken;
        };
        taken = question(p, q, rt, text, taken);
        at = q.next;
    }
    taken
}

// Adds the records of a section of a message.
fn records(
    p: &[u8],
    s: Section,
    section: &[u8],
    rt: &impl Print,
    text: &mut [u8; 4096],
    used: usize,
) -> usize {
    let mut taken = used;
    let mut at = s.at;
    for _ in 0..s.count {
        let Some(r) = record_at(p, at) else {
            return taken;
        };
        taken = record(p, r, section, rt, text, taken);
        at = r.next;
    }
    taken
}

// The answer for a message that is well formed.
fn message(p: &[u8], m: Layout, rt: &impl Print, text: &mut [u8; 4096]) {
    let used = first(rt, text, b"message");
    let used = number(rt, text, used, m.id as u64);
    let used = number(rt, text, used, m.flags as u64);
    let used = questions(p, m.questions, rt, text, used);
    let used = records(p, m.answers, b"an", rt, text, used);
    let used = records(p, m.authorities, b"ns", rt, text, used);
    let used = records(p, m.additionals, b"ar", rt, text, used);
    finish(rt, text, used);
}

// The answer for a packet.
fn shown(p: &[u8], rt: &impl Print, text: &mut [u8; 4096]) {
    match read_message(p) {
        Ok(m) => message(p, m, rt, text),
        Err(refusal) => refused(rt, text, refusal.number() as u64),
    }
}

// Whether a line is of the form `read PACKET`.
fn is_read(line: &[u8]) -> bool {
    has_arguments(line, 1) && are_bytes(line, 1)
}

// `read PACKET`
pub fn read(line: &[u8], rt: &impl Print, text: &mut [u8; 4096]) {
    if !is_read(line) {
        return bad_line(rt, text);
    }
    let mut packet = [0u8; 20000];
    let n = fill(field(line, 1), &mut packet);
    shown(front(&packet, n), rt, text)
}
