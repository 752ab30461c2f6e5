// `question NAME TYPE`, `answer OWNER TYPE CLASS TTL RDATA` and `cached NOW K`: what the proxy makes of a question and of a record. They change nothing.
use crate::Domains;
use cache::entries::Entry;
use console_calls::output::{
    bad_line, bytes, finish, first, number as shown_number, only, refused,
};
use console_table::{MOST_ENTRIES, Table};
use console_text::fields::{MOST_16, are_bytes, has_arguments, is_number, number, number_of_16};
use console_text::hex::fill;
use console_text::lines::{field, front};
use proxy::records::{Fields, Passed};
use wire::refusals::Refusal;

// The greatest number of 32 bits.
const MOST_32: u64 = u32::MAX as u64;

// Whether a field of a line is a number of 16 bits.
fn is_number_of_16(line: &[u8], index: usize) -> bool {
    is_number(line, index) && number(line, index) <= MOST_16
}

// Whether a line is of the form `question NAME TYPE`.
fn is_question(line: &[u8]) -> bool {
    has_arguments(line, 2) && are_bytes(line, 1) && is_number_of_16(line, 2)
}

// `question NAME TYPE`
fn question(line: &[u8], held: Domains, rt: &impl Print, text: &mut [u8; 4096]) {
    if !is_question(line) {
        return bad_line(rt, text);
    }
    let mut name = [0u8; 20000];
    let n = fill(field(line, 1), &mut name);
    let q = proxy::questions::ask(
        held.rich.name(),
        held.ldh.name(),
        front(&name, n),
        number_of_16(line, 2),
    );
    match q {
        Ok(Some(name)) => {
            let used = first(rt, text, b"ask");
            let used = bytes(rt, text, used, front(&name.bytes, name.len));
            finish(rt, text, used)
        }
        Ok(None) => only(rt, text, b"negative"),
        Err(refusal) => refused(rt, text, refusal.number() as u64),
    }
}

// The answer `record OWNER TYPE CLASS TTL RDATA`.
fn record(f: Fields, owner: &[u8], rdata: &[u8], rt: &impl Print, text: &mut [u8; 4096]) {
    let used = first(rt, text, b"record");
    let used = bytes(rt, text, used, owner);
    let used = shown_number(rt, text, used, f.rtype as u64);
    let used = shown_number(rt, text, used, f.class as u64);
    let used = shown_number(rt, text, used, f.ttl as u64);
    let used = bytes(rt, text, used, rdata);
    finish(rt, text, used)
}

// What became of a record, whose rdata lies at hand: that is shown where it holds no name.
fn passed(p: Result<Option<Passed>, Refusal>, lies: &[u8], rt: &impl Print, text: &mut [u8; 4096]) {
    match p {
        Ok(Some(passed)) => {
            let f = passed.fields;
            let named = wire::rdata::form_of(f.rtype).named;
            let rdata = if named {
                front(&passed.rdata, f.rdata)
            } else {
                lies
            };
            record(f, front(&passed.owner, f.owner), rdata, rt, text)
        }
        Ok(None) => only(rt, text, b"left"),
        Err(refusal) => refused(rt, text, refusal.number() as u64),
    }
}

// Whether a line is of the form `answer OWNER TYPE CLASS TTL RDATA`.
fn is_answer(line: &[u8]) -> bool {
    has_arguments(line, 5)
        && are_bytes(line, 1)
        && is_number_of_16(line, 2)
        && is_number_of_16(line, 3)
        && is_number(line, 4)
        && number(line, 4) <= MOST_32
        && are_bytes(line, 5)
}

// A TTL of 32 bits as it counts.
fn ttl(line: &[u8]) -> u32 {
    let n = number(line, 4);
    if MOST_32 < n {
        0
    } else {
        wire::message::counted_ttl(n as u32)
    }
}

// `answer OWNER TYPE CLASS TTL RDATA`
fn answer(line: &[u8], held: Domains, rt: &impl Print, text: &mut [u8; 4096]) {
    if !is_answer(line) {
        return bad_line(rt, text);
    }
    let mut owner = [0u8; 20000];
    let mut rdata = [0u8; 20000];
    let n = fill(field(line, 1), &mut owner);
    let m = fill(field(line, 5), &mut rdata);
    let p = proxy::records::record(
        held.rich.name(),
        held.ldh.name(),
        front(&owner, n),
        number_of_16(line, 2),
        number_of_16(line, 3),
        ttl(line),
        front(&rdata, m),
    );
    passed(p, front(&rdata, m), rt, text)
}

// Whether a line is of the form `cached NOW K`, of an entry that the table has.
fn is_cached(line: &[u8], table: Table) -> bool {
    has_arguments(line, 2)
        && is_number(line, 1)
        && is_number(line, 2)
        && number(line, 2) < (table.count as u64)
}

// The record of an entry and its slot.
fn entry(e: Entry, slot: &[u8], time: u64, held: Domains, rt: &impl Print, text: &mut [u8; 4096]) {
    let p = proxy::records::cached(held.rich.name(), held.ldh.name(), time, e, slot);
    passed(p, wire::rdata::part(slot, 256, e.rdata as usize), rt, text)
}

// `cached NOW K`. The refusals of the whole table come first: they are those of a lookup, here of the root, from past the last slot on.
fn cached(
    line: &[u8],
    held: Domains,
    table: Table,
    store: &[u8],
    rt: &impl Print,
    text: &mut [u8; 4096],
) {
    if !is_cached(line, table) {
        return bad_line(rt, text);
    }
    let time = number(line, 1);
    let k = number(line, 2) as usize;
    let numbers = console_table::look_up(table, store, time, b"\x00", 0, MOST_ENTRIES);
    if numbers.refusal != 0 {
        return refused(rt, text, numbers.refusal as u64);
    }
    entry(
        console_table::entry_at(table, k),
        cache::entries::slot_of(store, k),
        time,
        held,
        rt,
        text,
    )
}

// Answers one of these calls. Any other line is a bad one.
pub fn call(
    line: &[u8],
    held: Domains,
    table: Table,
    store: &[u8],
    rt: &impl Print,
    text: &mut [u8; 4096],
) {
    match field(line, 0) {
        b"question" => question(line, held, rt, text),
        b"answer" => answer(line, held, rt, text),
        b"cached" => cached(line, held, table, store, rt, text),
        _ => bad_line(rt, text),
    }
}
