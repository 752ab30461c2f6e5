// The responder for C and Rust: start, packet received and tick on a state that the caller lends as bytes (modules `layout` and `codec`), with the answer
// in numbers. What a state says is in `state`. c/include/kurgashel.h declares these functions.
#![tactic(auto)]

pub mod changes;
pub mod codec;
pub mod encoder;
pub mod idle;
pub mod layout;
pub mod setup_test;
pub mod state;

ghost use Rattle.std.specs.Prelude.{◌≡◌, List, ℕ, length};
ghost use Rattle.responder.specs.Handed.{Arrival, Tick};
ghost use Rattle.responder.specs.address.Address.{address_of};
ghost use Rattle.responder.specs.Calls.{refusal_of, length_of, unicast_length_of};
ghost use Rattle.responder.specs.Runs.{ticked};
ghost use Rattle.capi_responder.specs.Exported.{called_with, setup_for, Starts, Calls, Receives};

use codec::{read_setup, read_state};
use encoder::{put_progress, put_setup, put_time};
use idle::is_idle;
use layout::STATE_SIZE;
use own::records::Setup;
use responder::address::address_of;
use responder::{Answer, blank_state};

// A call's answer: the specification's refusal number, or 0; whether more is due, after a tick; the length of the packet that goes to all, or 0; and the
// length of the one that goes to where the message came from that it answers, or 0.
#[repr(C)]
#[derive(Clone, Copy)]
pub struct Called {
    pub refusal: u8,
    pub more: bool,
    pub length: usize,
    pub unicast: usize,
}

fn refusal_of(answer: Answer) -> u8
    ensures { result ≡ refusal_of answer }
{
    match answer {
        Answer::Refused(refusal) => refusal.number(),
        Answer::Quiet | Answer::Sent(_) | Answer::Unicast(_) | Answer::Both(_, _) => 0,
    }
}

fn length_of(answer: Answer) -> usize
    ensures { result ≡ length_of answer }
{
    match answer {
        Answer::Sent(length) | Answer::Both(length, _) => length,
        Answer::Refused(_) | Answer::Quiet | Answer::Unicast(_) => 0,
    }
}

fn unicast_length(answer: Answer) -> usize
    ensures { result ≡ unicast_length_of answer }
{
    match answer {
        Answer::Unicast(length) | Answer::Both(_, length) => length,
        Answer::Refused(_) | Answer::Quiet | Answer::Sent(_) => 0,
    }
}

fn answered(answer: Answer, more: bool) -> Called
    ensures { result ≡ called_with answer more }
{
    Called {
        refusal: refusal_of(answer),
        more,
        length: length_of(answer),
        unicast: unicast_length(answer),
    }
}

// The set-up that a state of `room` bytes starts with.
fn setup_for(setup: &[u8], room: usize) -> Setup
    ensures { result ≡ setup_for setup.now room }
{
    if room == STATE_SIZE {
        read_setup(setup)
    } else {
        blank_state().setup
    }
}

// Begins a responder in lent bytes, with the bytes of a set-up.
pub fn kurgashel_start(state: &mut [u8], setup: &[u8], time: u64, draw: u64) -> Called
    ensures { Starts state.old setup.now time draw result state.new }
{
    let begun = responder::start(setup_for(setup, state.len()), time, draw);
    if refusal_of(begun.answer) == 0 {
        put_setup(state, setup);
        put_progress(state, begun.state.progress);
    }
    answered(begun.answer, false)
}

// Takes a packet that came from an address (16 bytes, or the 4 of IPv4) and a port, with the draws for a PTR reply and for a query that is held, and writes the
// answers that go out at once: to `out` those to all, to `unicast` those to the asker.
pub fn kurgashel_receive(
    state: &mut [u8],
    time: u64,
    from: &[u8],
    port: u16,
    draw: u64,
    hold: u64,
    packet: &[u8],
    out: &mut [u8],
    unicast: &mut [u8],
) -> Called
    ensures { (let source = address_of from.now in
        let p : List ℕ = packet.now in
        let room = length out.old in
        let second = length unicast.old in
        let a : Arrival = record { time = time; from = source; port = port; draw = draw; hold = hold; packet = p; room = room; unicastroom = second } in
        Receives state.old a out.old unicast.old result state.new out.new unicast.new) }
{
    let heard = responder::receive(
        read_state(state),
        time,
        address_of(from),
        port,
        draw,
        hold,
        packet,
        out,
        unicast,
    );
    if refusal_of(heard.answer) == 0 {
        put_progress(state, heard.state.progress);
    }
    answered(heard.answer, false)
}

// Walks the due steps, and writes the packet of the first that sends.
pub fn kurgashel_tick(state: &mut [u8], time: u64, out: &mut [u8]) -> Called
    ensures { (let t : Tick = record { time = time; room = length out.old } in
        Calls state.old (ticked t) out.old result state.new out.new) }
{
    if is_idle(state, time, out.len()) {
        put_time(state, time);
        return answered(Answer::Quiet, false);
    }
    let walked = responder::tick(read_state(state), time, out);
    if refusal_of(walked.answer) == 0 {
        put_progress(state, walked.state.progress);
    }
    answered(walked.answer, walked.more)
}
