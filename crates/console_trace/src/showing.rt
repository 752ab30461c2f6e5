// The call `trace TRACE`: `events` and each event of the trace in words, or `refused 12 OFFSET`.
use claims::holds::Address;
use console_calls::output::{bad_line, bytes, finish, first, number, word};
use console_text::hex::{fill, is_bytes};
use console_text::lines::{arguments, field, front};
use trace::reading::{Event, check, next};
use wire::buffer::put;
use wire::refusals::Refusal;

// The answer to a trace or to events that are refused as 12, with the offset.
pub fn refused_at(offset: usize, rt: &impl Print, text: &mut [u8; 4096]) {
    let used = first(rt, text, b"refused");
    let used = number(rt, text, used, Refusal::Trace.number() as u64);
    let used = number(rt, text, used, offset as u64);
    finish(rt, text, used);
}

// Adds the sixteen bytes of an address.
fn address(rt: &impl Print, text: &mut [u8; 4096], used: usize, from: Address) -> usize {
    let mut all = [0u8; 16];
    put(&mut all, 0, &from.high.to_be_bytes());
    put(&mut all, 8, &from.low.to_be_bytes());
    bytes(rt, text, used, &all)
}

// Adds a word and a time.
fn timed(rt: &impl Print, text: &mut [u8; 4096], used: usize, name: &[u8], time: u64) -> usize {
    let used = word(rt, text, used, name);
    number(rt, text, used, time)
}

// Adds the bytes that the event at an offset brings.
fn brought(trace: &[u8], at: usize, rt: &impl Print, text: &mut [u8; 4096], used: usize) -> usize {
    let mut data = [0u8; 20000];
    let n = trace::reading::bytes(trace, at, &mut data);
    bytes(rt, text, used, front(&data, n))
}

// Adds the event at an offset.
fn event(
    trace: &[u8],
    at: usize,
    e: Event,
    rt: &impl Print,
    text: &mut [u8; 4096],
    used: usize,
) -> usize {
    match e {
        Event::Tick(time) => timed(rt, text, used, b"tick", time),
        Event::Packet {
            time,
            from,
            port,
            draw,
            hold,
        } => {
            let used = timed(rt, text, used, b"recv", time);
            let used = address(rt, text, used, from);
            let used = number(rt, text, used, port);
            let used = number(rt, text, used, draw);
            let used = number(rt, text, used, hold);
            brought(trace, at, rt, text, used)
        }
        Event::Claim { last, claim, state } => {
            let used = timed(rt, text, used, b"claim", last);
            let used = number(rt, text, used, claim);
            number(rt, text, used, state)
        }
        Event::Stop(time) => timed(rt, text, used, b"stop", time),
        Event::Port { time, port } => {
            let used = timed(rt, text, used, b"port", time);
            number(rt, text, used, port)
        }
        Event::Txt(time) => {
            let used = timed(rt, text, used, b"txt", time);
            brought(trace, at, rt, text, used)
        }
    }
}

// Shows the events of a trace that is read.
fn events(trace: &[u8], rt: &impl Print, text: &mut [u8; 4096]) {
    let mut used = first(rt, text, b"events");
    let mut at = 0;
    while let Ok(Some(entry)) = next(trace, at) {
        used = event(trace, at, entry.event, rt, text, used);
        at = entry.next;
    }
    finish(rt, text, used);
}

// The answer for a trace.
fn shown(trace: &[u8], rt: &impl Print, text: &mut [u8; 4096]) {
    match check(trace) {
        Ok(()) => events(trace, rt, text),
        Err(refused) => refused_at(refused.at, rt, text),
    }
}

// `trace TRACE`
pub fn trace(line: &[u8], rt: &impl Print, text: &mut [u8; 4096]) {
    if arguments(line) != 1 {
        return bad_line(rt, text);
    }
    let told = field(line, 1);
    if !is_bytes(told) {
        return bad_line(rt, text);
    }
    let mut bytes = [0u8; 20000];
    let n = fill(told, &mut bytes);
    shown(front(&bytes, n), rt, text)
}
