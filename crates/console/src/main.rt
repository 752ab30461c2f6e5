// The console: one line a call, one line an answer. This file reads the lines of standard input; `calls` has each answered at once.
// A thin layer over the libraries: no rule of the specification is here.
#![tactic(auto)]

mod calls;

ghost use Rattle.std.specs.Prelude.{◌≡◌, ◌+◌, ◌≤◌, length};
ghost use Rattle.console.specs.Lines.{Console, after_line};

use calls::Held;
use console_text::scan::find;
use std::io::Read;

// The most bytes that a line has, its LF not counted.
const MOST_LINE: usize = 40000;

// Reads once into what is free of the buffer, of which `held` bytes are taken, and tells how many are taken then: no more at the input's end, or
// where a read fails.
fn refill(from: &mut impl Read, input: &mut [u8], held: usize) -> usize
    requires { held ≤ length input.old }
    ensures { (held ≤ result) × (result ≤ length input.new) }
{
    match from.read(&mut input[held..]) {
        Ok(n) => held + n,
        Err(_) => held,
    }
}

// Moves the piece of a line that starts at an offset to the start of the buffer, and tells how long it is. Of a line that is too long one byte more than
// the most is kept: it stays too long.
fn keep(input: &mut [u8], from: usize, filled: usize) -> usize
    requires { (from ≤ filled) × (filled ≤ length input.old) }
    ensures { result ≤ length input.new }
{
    let n = (filled - from).min(MOST_LINE + 1);
    input.copy_within(from..from + n, 0);
    n
}

// Answers a line, and tells what is held after it. An empty line or a comment has no answer.
#[tactic(auto, unfolding(crate::specs::Lines::after_line))]
fn answer_line(
    line: &[u8],
    held: Held,
    store: &mut [u8; 525312],
    out: &mut [u8; 4096],
    unicast: &mut [u8; 4096],
    rt: &impl Print,
    text: &mut [u8; 4096],
) -> Held
    ensures held { (let c : Console = record { held = held; store = store.old; out = out.old; unicast = unicast.old } in
        result ≡ (after_line line.now c).held) }
    ensures store { (let c : Console = record { held = held; store = store.old; out = out.old; unicast = unicast.old } in
        store.new ≡ (after_line line.now c).store) }
    ensures out { (let c : Console = record { held = held; store = store.old; out = out.old; unicast = unicast.old } in
        out.new ≡ (after_line line.now c).out) }
    ensures unicast { (let c : Console = record { held = held; store = store.old; out = out.old; unicast = unicast.old } in
        unicast.new ≡ (after_line line.now c).unicast) }
{
    if line.is_empty() || line[0] == b'#' {
        return held;
    }
    if MOST_LINE < line.len() {
        console_calls::output::bad_line(rt, text);
        return held;
    }
    calls::call(line, held, store, out, unicast, rt, text)
}

// Reads and answers line by line until the input ends. Of the buffer's first `filled` bytes the line begins at `start`, and no LF stands before
// `seen`. Nothing says that the input ends, so the loop counts its turns, to a number of lines and reads that no run uses up.
fn serve(
    from: &mut impl Read,
    input: &mut [u8],
    store: &mut [u8; 525312],
    out: &mut [u8; 4096],
    unicast: &mut [u8; 4096],
    rt: &impl Print,
    text: &mut [u8; 4096],
) {
    let mut held = calls::at_first();
    let mut start = 0;
    let mut seen = 0;
    let mut filled = 0;
    for _ in 0..u64::MAX {
        let end = seen + find(&input[seen..filled], b'\n');
        if end < filled {
            held = answer_line(&input[start..end], held, store, out, unicast, rt, text);
            start = end + 1;
            seen = start;
        } else {
            let kept = keep(input, start, filled);
            start = 0;
            seen = kept;
            filled = refill(from, input, kept);
            if filled == kept {
                return;
            }
        }
    }
}

fn main(rt: HostRuntime) {
    let mut from = rt.stdin();
    let mut input = [0u8; 65536];
    let mut store = [0u8; 525312];
    let mut out = [0u8; 4096];
    let mut unicast = [0u8; 4096];
    let mut text = [0u8; 4096];
    serve(
        &mut from,
        &mut input,
        &mut store,
        &mut out,
        &mut unicast,
        &rt,
        &mut text,
    );
}
