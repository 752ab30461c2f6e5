// The calls by which the responder goes on, each with the state after it: `recv NOW FROM PORT DRAW HOLD PACKET` and `tick NOW`, both with OUT, the length of
// the part of the out buffer that is lent, or without; behind it `recv` may have UNICAST, that of the second out buffer. What they send is shown.
ghost use Rattle.std.specs.Prelude.{◌≡◌, []};
ghost use Rattle.responder.specs.address.Address.{address_of};
ghost use Rattle.console_text.specs.fields.Forms.{bytes_in};
ghost use Rattle.console_responder.specs.Forms.{is_number_or_missing, is_address, are_numbers, is_recv, is_tick, lent_by};
ghost use Rattle.console_responder.specs.Lines.{having, after_recv, after_tick};

use crate::setup::is_bytes_of;
use crate::showing::shown;
use claims::holds::Address;
use console_calls::output::bad_line;
use console_text::fields::{are_bytes, is_number, number, number_of_16};
use console_text::hex::fill;
use console_text::lines::{arguments, field, front};
use responder::State;

// The bytes of an out buffer that are lent where a line does not say how many.
const USUAL_OUT: usize = writer::own_packets::LEAST_OUT;

// Whether the last field of a line, which may be missing, is a number.
#[tactic(auto, unfolding(crate::specs::Forms::is_number_or_missing))]
pub fn is_number_or_missing(line: &[u8], index: usize) -> bool
    ensures { result ≡ is_number_or_missing line.now index }
{
    arguments(line) < index || is_number(line, index)
}

// How many bytes of an out buffer a line asks to lend.
#[tactic(auto, unfolding(crate::specs::Forms::lent_by))]
pub fn lent(line: &[u8], index: usize) -> usize
    ensures { result ≡ lent_by line.now index }
{
    if arguments(line) < index {
        USUAL_OUT
    } else {
        number(line, index) as usize
    }
}

// Whether a field is the address of a sender: 4 bytes of IPv4, or 16.
#[tactic(auto, unfolding(crate::specs::Forms::is_address))]
fn is_address(field: &[u8]) -> bool
    ensures { result ≡ is_address field.now }
{
    is_bytes_of(field, 4) || is_bytes_of(field, 16)
}

// The address that a line tells.
fn address(line: &[u8]) -> Address
    ensures { result ≡ address_of (bytes_in 16 line.now 2) }
{
    let mut bytes = [0u8; 16];
    let n = fill(field(line, 2), &mut bytes);
    responder::address::address_of(front(&bytes, n))
}

// Whether the fields of `recv` that are numbers are: the time, the port and the two draws.
#[tactic(auto, unfolding(crate::specs::Forms::are_numbers))]
fn are_numbers(line: &[u8]) -> bool
    ensures { result ≡ are_numbers line.now }
{
    is_number(line, 1) && is_number(line, 3) && is_number(line, 4) && is_number(line, 5)
}

// Whether a line is of the form of `recv`.
#[tactic(auto, unfolding(crate::specs::Forms::is_recv))]
fn is_recv(line: &[u8]) -> bool
    ensures { result ≡ is_recv line.now }
{
    6 <= arguments(line)
        && arguments(line) <= 8
        && are_numbers(line)
        && is_address(field(line, 2))
        && are_bytes(line, 6)
        && is_number_or_missing(line, 7)
        && is_number_or_missing(line, 8)
}

// `recv NOW FROM PORT DRAW HOLD PACKET`, with OUT or without, and with UNICAST behind it or without. A port that is too great is no 5353, as 0 is none.
#[tactic(auto, unfolding(crate::specs::Lines::after_recv, crate::specs::Lines::arrival_told))]
pub fn recv(
    line: &[u8],
    held: State,
    out: &mut [u8],
    unicast: &mut [u8],
    rt: &impl Print,
    text: &mut [u8; 4096],
) -> State
    ensures state { result ≡ (after_recv line.now (having held out.old unicast.old)).state }
    ensures out { out.new ≡ (after_recv line.now (having held out.old unicast.old)).out }
    ensures unicast { unicast.new ≡ (after_recv line.now (having held out.old unicast.old)).unicast }
{
    if !is_recv(line) {
        bad_line(rt, text);
        return held;
    }
    let n = lent(line, 7);
    let m = lent(line, 8);
    if out.len() < n || unicast.len() < m {
        bad_line(rt, text);
        return held;
    }
    let time = number(line, 1);
    let from = address(line);
    let port = number_of_16(line, 3);
    let draw = number(line, 4);
    let hold = number(line, 5);
    let mut packet = [0u8; 20000];
    let k = fill(field(line, 6), &mut packet);
    let received = responder::receive(
        held,
        time,
        from,
        port,
        draw,
        hold,
        front(&packet, k),
        &mut out[..n],
        &mut unicast[..m],
    );
    shown(received.answer, false, out, unicast, rt, text);
    received.state
}

// Whether a line is of the form of `tick`.
#[tactic(auto, unfolding(crate::specs::Forms::is_tick))]
pub fn is_tick(line: &[u8]) -> bool
    ensures { result ≡ is_tick line.now }
{
    1 <= arguments(line)
        && arguments(line) <= 2
        && is_number(line, 1)
        && is_number_or_missing(line, 2)
}

// `tick NOW` or `tick NOW OUT`
#[tactic(auto, unfolding(crate::specs::Lines::after_tick))]
pub fn tick(
    line: &[u8],
    held: State,
    out: &mut [u8],
    rt: &impl Print,
    text: &mut [u8; 4096],
) -> State
    ensures state { result ≡ (after_tick line.now (having held out.old [])).state }
    ensures out { out.new ≡ (after_tick line.now (having held out.old [])).out }
{
    if !is_tick(line) {
        bad_line(rt, text);
        return held;
    }
    let n = lent(line, 2);
    if out.len() < n {
        bad_line(rt, text);
        return held;
    }
    let ticked = responder::tick(held, number(line, 1), &mut out[..n]);
    shown(ticked.answer, ticked.more, out, b"", rt, text);
    ticked.state
}
