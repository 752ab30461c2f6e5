// The call `txt KEY RECEIVED FACTORY`: what a key says in the received TXT, and in the factory TXT when it is absent there.
use crate::output::{bad_line, bytes, finish, first, number, only, refused, word};
use console_text::fields::{are_bytes, has_arguments};
use console_text::hex::fill;
use console_text::lines::{field, front};
use txt::{Answer, Buffer, Held, answer_for, part_of};

// The answer `value BUFFER AT VALUE`: the place counts from the first byte of the buffer that held the value.
fn value(buffer: &[u8], at: usize, part: &[u8], rt: &impl Print, text: &mut [u8; 4096]) {
    let used = first(rt, text, b"value");
    let used = word(rt, text, used, buffer);
    let used = number(rt, text, used, at as u64);
    let used = bytes(rt, text, used, part);
    finish(rt, text, used);
}

// The answer for a value that lies in one of the two buffers.
fn held(h: Held, part: &[u8], rt: &impl Print, text: &mut [u8; 4096]) {
    match h.buffer {
        Buffer::Received => value(b"received", h.at, part, rt, text),
        Buffer::Factory => value(b"factory", h.at, part, rt, text),
    }
}

// The answer for a key.
fn shown(key: &[u8], received: &[u8], factory: &[u8], rt: &impl Print, text: &mut [u8; 4096]) {
    let answer = answer_for(key, received, factory);
    match answer {
        Answer::Refused(number) => refused(rt, text, number as u64),
        Answer::Absent => only(rt, text, b"absent"),
        Answer::Present => only(rt, text, b"present"),
        Answer::Empty => only(rt, text, b"empty"),
        Answer::Value(h) => held(h, part_of(answer, received, factory), rt, text),
    }
}

// Whether a line is of the form `txt KEY RECEIVED FACTORY`.
fn is_txt(line: &[u8]) -> bool {
    has_arguments(line, 3) && are_bytes(line, 1) && are_bytes(line, 2) && are_bytes(line, 3)
}

// `txt KEY RECEIVED FACTORY`
pub fn txt(line: &[u8], rt: &impl Print, text: &mut [u8; 4096]) {
    if !is_txt(line) {
        return bad_line(rt, text);
    }
    let mut key = [0u8; 20000];
    let k = fill(field(line, 1), &mut key);
    let mut received = [0u8; 20000];
    let r = fill(field(line, 2), &mut received);
    let mut factory = [0u8; 20000];
    let f = fill(field(line, 3), &mut factory);
    shown(
        front(&key, k),
        front(&received, r),
        front(&factory, f),
        rt,
        text,
    )
}
