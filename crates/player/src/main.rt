// The program `player`: a trace, played to a responder. Standard input is one line with the fields of the console's `start` behind that word, and then the
// bytes of the trace. It prints a line for each record of a claim's state and nothing else; a refusal or `bad line` goes to standard error. A thin layer
// over the libraries: no rule of the specification is here.
#![tactic(auto)]

ghost use Rattle.std.specs.Prelude.{◌≤◌, length};

use console_calls::output::{finish, first, word};
use console_responder::setup::{is_start, told};
use console_text::fields::number;
use console_text::scan::find;
use itoa::Buffer;
use playing::{Line, Turn};
use responder::{Answer, State};
use std::io::Read;

// The most bytes of the input: there is no heap, and the trace is checked as a whole before anything is printed.
const MOST_INPUT: usize = 4194304;

// The word before the fields of a start, which the input leaves out.
const START: usize = 6;

// The most bytes of the first line with that word: the line itself has at most 40,000, as in the console.
const MOST_LINE: usize = 40006;

// Says on standard error that the first line is not of its form.
fn bad_line(rt: &impl Eprint) {
    let _ = eprintln!(rt; "bad line");
}

// Says on standard error that the input is longer than the most.
fn too_long(rt: &impl Eprint) {
    let _ = eprintln!(rt; "too long");
}

// Says a refusal on standard error.
fn refused(rt: &impl Eprint, n: u8) {
    let _ = eprintln!(rt; "refused {n}");
}

// Says the refusal of a trace on standard error.
fn refused_at(rt: &impl Eprint, offset: usize) {
    let _ = eprintln!(rt; "refused 12 {offset}");
}

// Reads once into what is free of the buffer, of which `held` bytes are taken, and tells how many are taken then: no more at the input's end, or
// where a read fails.
fn refill(from: &mut impl Read, input: &mut [u8], held: usize) -> usize
    requires { held ≤ length input.old }
    ensures { (held ≤ result) × (result ≤ length input.new) }
{
    match from.read(&mut input[held..]) {
        Ok(n) => held + n,
        Err(_) => held,
    }
}

// Reads the input behind the first bytes of a buffer, to its end or until the buffer is full, and tells how many bytes are taken then.
fn read_all(from: &mut impl Read, input: &mut [u8], start: usize) -> usize
    requires { start ≤ length input.old }
    ensures { result ≤ length input.new }
{
    let mut filled = start;
    for _ in 0..u64::MAX {
        let next = refill(from, input, filled);
        if next == filled {
            return filled;
        }
        filled = next;
    }
    filled
}

// Begins a line with its time.
fn time(rt: &impl Print, text: &mut [u8; 4096], last: u64) -> usize {
    let mut digits = Buffer::new();
    first(rt, text, digits.format(last).as_bytes())
}

// Adds the claim by its number.
fn claim(rt: &impl Print, text: &mut [u8; 4096], used: usize, k: u64) -> usize {
    let name: &[u8] = if k == 0 { b"instance" } else { b"host" };
    word(rt, text, used, name)
}

// Adds the state by its number.
// By the number, which a line has: a Display of the state would need the enum back.
fn state(rt: &impl Print, text: &mut [u8; 4096], used: usize, number: u64) -> usize {
    let name: &[u8] = match number {
        0 => b"waiting",
        1 => b"probing",
        2 => b"deferred",
        3 => b"held",
        _ => b"lost",
    };
    word(rt, text, used, name)
}

// Adds the verdict.
fn verdict(rt: &impl Print, text: &mut [u8; 4096], used: usize, agrees: bool) -> usize {
    let name: &[u8] = if agrees { b"ok" } else { b"bad" };
    word(rt, text, used, name)
}

// Prints a line.
fn show(line: Line, rt: &impl Print, text: &mut [u8; 4096]) {
    let used = time(rt, text, line.last);
    let used = claim(rt, text, used, line.claim);
    let used = state(rt, text, used, line.state);
    let used = verdict(rt, text, used, line.agrees);
    finish(rt, text, used);
}

// Plays a trace that is read, from its start on. Each event takes a byte at least, so that the trace has no more events than bytes.
fn play(trace: &[u8], begun: State, rt: &impl Print, text: &mut [u8; 4096]) {
    let mut state = begun;
    let mut at = 0;
    for _ in 0..trace.len() {
        let played = playing::play(trace, at, state);
        state = played.state;
        match played.turn {
            Turn::End | Turn::Refused(_) => return,
            Turn::Called(next) => {
                at = next;
            }
            Turn::Shown(line, next) => {
                show(line, rt, text);
                at = next;
            }
        }
    }
}

// Plays a trace to a responder that has begun, where the trace is read.
fn checked(trace: &[u8], begun: State, rt: &(impl Print + Eprint), text: &mut [u8; 4096]) {
    match trace::reading::check(trace) {
        Ok(()) => play(trace, begun, rt, text),
        Err(refused) => refused_at(rt, refused.at),
    }
}

// Starts a responder by the first line, and plays the trace to it.
fn run(line: &[u8], trace: &[u8], rt: &(impl Print + Eprint), text: &mut [u8; 4096]) {
    if MOST_LINE < line.len() || !is_start(line) {
        return bad_line(rt);
    }
    let started = responder::start(told(line), number(line, 1), number(line, 2));
    match started.answer {
        Answer::Refused(refusal) => refused(rt, refusal.number()),
        _ => checked(trace, started.state, rt, text),
    }
}

// The line and the trace of an input.
fn split(input: &[u8], rt: &(impl Print + Eprint), text: &mut [u8; 4096]) {
    let end = find(input, b'\n');
    if input.len() <= end {
        return bad_line(rt);
    }
    run(&input[..end], &input[end + 1..], rt, text)
}

// Reads the input behind the word of a start, and plays what it says.
fn serve(
    from: &mut impl Read,
    input: &mut [u8],
    rt: &(impl Print + Eprint),
    text: &mut [u8; 4096],
) {
    if input.len() < START {
        return;
    }
    wire::buffer::put(input, 0, b"start ");
    let filled = read_all(from, input, START);
    if filled == input.len() {
        return too_long(rt);
    }
    split(&input[..filled], rt, text)
}

fn main(rt: HostRuntime) {
    let mut from = rt.stdin();
    let mut input = [0u8; MOST_INPUT];
    let mut text = [0u8; 4096];
    serve(&mut from, &mut input, &rt, &mut text);
}
