// The calls by which the responder is stopped or its data are changed, each with the state after it: `stop NOW`, `update NOW port PORT` and `update NOW txt
// TXT`, each with OUT or without. What they send is shown.
ghost use Rattle.std.specs.Prelude.{◌≡◌, [], ◌≤◌, length};
ghost use Rattle.console_text.specs.fields.Numbers.{number_at};
ghost use Rattle.console_responder.specs.Forms.{is_port, is_data, is_update};
ghost use Rattle.console_responder.specs.Lines.{Responder, having, new_told, updated, after_stop, after_update};

use crate::sending::{is_number_or_missing, is_tick, lent};
use crate::showing::shown;
use console_calls::output::bad_line;
use console_text::fields::{MOST_16, are_bytes, is_number, number, number_of_16};
use console_text::hex::fill;
use console_text::lines::{arguments, field, front};
use responder::State;
use responder::changes::{self, Updated};
use wire::expansion::same_bytes;

// `stop NOW`, with OUT or without: of the form of `tick`
// Beside update and tick: the forms, the field of the room and the types of the answers differ.
#[tactic(auto, unfolding(crate::specs::Lines::after_stop))]
pub fn stop(
    line: &[u8],
    held: State,
    out: &mut [u8],
    rt: &impl Print,
    text: &mut [u8; 4096],
) -> State
    ensures state { result ≡ (after_stop line.now (having held out.old [])).state }
    ensures out { out.new ≡ (after_stop line.now (having held out.old [])).out }
{
    if !is_tick(line) {
        bad_line(rt, text);
        return held;
    }
    let n = lent(line, 2);
    if out.len() < n {
        bad_line(rt, text);
        return held;
    }
    let stopped = changes::stop(held, number(line, 1), &mut out[..n]);
    shown(stopped.answer, false, out, b"", rt, text);
    stopped.state
}

// Whether an update is one of the port, by its word.
#[tactic(auto, unfolding(crate::specs::Forms::is_port))]
fn is_port(line: &[u8]) -> bool
    ensures { result ≡ is_port line.now }
{
    same_bytes(field(line, 2), b"port")
}

// Whether the new data of an update are of their form: a port, or TXT.
#[tactic(auto, unfolding(crate::specs::Forms::is_data))]
fn is_data(line: &[u8]) -> bool
    ensures { result ≡ is_data line.now }
{
    if is_port(line) {
        is_number(line, 3) && number(line, 3) <= MOST_16
    } else {
        same_bytes(field(line, 2), b"txt") && are_bytes(line, 3)
    }
}

// Whether a line is of the form of `update`.
#[tactic(auto, unfolding(crate::specs::Forms::is_update))]
fn is_update(line: &[u8]) -> bool
    ensures { result ≡ is_update line.now }
{
    3 <= arguments(line)
        && arguments(line) <= 4
        && is_number(line, 1)
        && is_data(line)
        && is_number_or_missing(line, 4)
}

// Changes what a line of that form tells.
#[tactic(auto, unfolding(crate::specs::Lines::new_told))]
fn renew(line: &[u8], held: State, out: &mut [u8], n: usize) -> Updated
    requires { n ≤ length out.old }
    ensures { (let after : Responder = updated (having held out.old []) (number_at line.now 1) n (new_told line.now) in
        (result.state ≡ after.state) × (out.new ≡ after.out)) }
{
    let time = number(line, 1);
    if is_port(line) {
        return changes::update_port(held, time, number_of_16(line, 3), &mut out[..n]);
    }
    let mut txt = [0u8; 20000];
    let k = fill(field(line, 3), &mut txt);
    changes::update_txt(held, time, front(&txt, k), &mut out[..n])
}

// `update NOW port PORT` or `update NOW txt TXT`, with OUT or without. TXT that is too long is handed on, so that the responder refuses it.
#[tactic(auto, unfolding(crate::specs::Lines::after_update))]
pub fn update(
    line: &[u8],
    held: State,
    out: &mut [u8],
    rt: &impl Print,
    text: &mut [u8; 4096],
) -> State
    ensures state { result ≡ (after_update line.now (having held out.old [])).state }
    ensures out { out.new ≡ (after_update line.now (having held out.old [])).out }
{
    if !is_update(line) {
        bad_line(rt, text);
        return held;
    }
    let n = lent(line, 4);
    if out.len() < n {
        bad_line(rt, text);
        return held;
    }
    let updated = renew(line, held, out, n);
    shown(updated.answer, false, out, b"", rt, text);
    updated.state
}
