// The call `record SIZE`, with events behind it: `trace TRACE`, their trace; `refused 12 OFFSET` for a value that its field cannot hold; or `refused 3`
// where the trace has more bytes than SIZE.
use crate::showing::refused_at;
use crate::telling::{Told, bytes_told, event_at};
use console_calls::output::{bad_line, bytes, finish, first, refused};
use console_text::fields::{is_number, number};
use console_text::lines::{arguments, front};
use trace::writing::{Unfit, size_of, write};
use wire::refusals::Refusal;

// The index of the first event's word.
const FIRST: usize = 2;

// The most bytes of a trace that a line can tell: each field of `txt NOW TXT` with one byte takes 9 characters, with its space, and 28 bytes.
const MOST_TRACE: usize = 131072;

// Whether the fields of a line behind its size are events.
// A walk each for the test, the size and the writing: what they keep and how they end differ.
fn are_events(line: &[u8]) -> bool {
    let last = arguments(line);
    let mut at = FIRST;
    for _ in 0..line.len() {
        if last < at {
            return true;
        }
        let Some(told) = event_at(line, at) else {
            return false;
        };
        at = told.next;
    }
    last < at
}

// The size of an event that a line tells.
fn size_told(line: &[u8], told: Told) -> Result<usize, Unfit> {
    let mut start = [0u8; 1];
    let n = bytes_told(line, told.bytes, &mut start);
    size_of(told.event, n)
}

// The size of the trace of the events that a line tells, or how far behind its start the first record lies that a value does not fit.
fn trace_size(line: &[u8]) -> Result<usize, Unfit> {
    let last = arguments(line);
    let mut at = FIRST;
    let mut size: usize = 0;
    for _ in 0..line.len() {
        if last < at {
            break;
        }
        let Some(told) = event_at(line, at) else {
            break;
        };
        at = told.next;
        match size_told(line, told) {
            Ok(n) => {
                size = size.saturating_add(n);
            }
            Err(unfit) => {
                return Err(Unfit {
                    behind: size.saturating_add(unfit.behind),
                });
            }
        }
    }
    Ok(size)
}

// Writes an event that a line tells, and tells the offset behind it; where it is not written, that at which it would stand.
fn written(line: &[u8], told: Told, out: &mut [u8], to: usize) -> usize {
    let mut data = [0u8; 20000];
    let n = bytes_told(line, told.bytes, &mut data);
    write(out, to, told.event, front(&data, n)).unwrap_or(to)
}

// Writes the trace of the events that a line tells, and tells its length.
fn write_all(line: &[u8], out: &mut [u8]) -> usize {
    let last = arguments(line);
    let mut at = FIRST;
    let mut to = 0;
    for _ in 0..line.len() {
        if last < at {
            break;
        }
        let Some(told) = event_at(line, at) else {
            break;
        };
        at = told.next;
        to = written(line, told, out, to);
    }
    to
}

// The trace, where there is room for it.
fn recorded(line: &[u8], size: usize, rt: &impl Print, text: &mut [u8; 4096]) {
    if number(line, 1) < size as u64 {
        return refused(rt, text, Refusal::Buffer.number() as u64);
    }
    let mut out = [0u8; MOST_TRACE];
    let n = write_all(line, &mut out);
    let used = first(rt, text, b"trace");
    let used = bytes(rt, text, used, front(&out, n));
    finish(rt, text, used);
}

// `record SIZE ..`
pub fn record(line: &[u8], rt: &impl Print, text: &mut [u8; 4096]) {
    if !is_number(line, 1) || !are_events(line) {
        return bad_line(rt, text);
    }
    match trace_size(line) {
        Ok(size) => recorded(line, size, rt, text),
        Err(unfit) => refused_at(unfit.behind, rt, text),
    }
}
