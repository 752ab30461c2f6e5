// The functions that demand 3 is about. Each calls the responder's own, or, in `exported`, the exported one, and does nothing else; its contract cites
// `responder`, the record of the theorem (crates/uniqueness/specs/Responder.antt): what a caller sees of the call is the record's answer. Were a call to
// promise another definition than the record has, this crate would not be proved.
#![tactic(auto)]

pub mod changes;
pub mod exported;

ghost use Rattle.std.specs.Prelude.{◌≡◌, List, ℕ, length};
ghost use Rattle.responder.specs.Handed.{Arrival, Tick};
ghost use Rattle.responder.specs.Calls.{refusal_of, length_of, unicast_length_of};
ghost use Rattle.uniqueness.specs.Responder.{responder};
ghost use Rattle.demand3.specs.Seen.{begun_as, Calls, Receives};

use claims::holds::Address;
use own::records::Setup;
use responder::{Received, Started, State, Ticked};

pub fn start(setup: Setup, time: u64, draw: u64) -> Started
    ensures { responder.start setup time draw ≡ begun_as (refusal_of result.answer) result.state }
{
    responder::start(setup, time, draw)
}

pub fn receive(
    state: State,
    time: u64,
    from: Address,
    port: u16,
    draw: u64,
    hold: u64,
    packet: &[u8],
    out: &mut [u8],
    unicast: &mut [u8],
) -> Received
    ensures { (let room = length out.old in
        let second = length unicast.old in
        let p : List ℕ = packet.now in
        let a : Arrival = record { time = time; from = from; port = port; draw = draw; hold = hold; packet = p; room = room; unicastroom = second } in
        Receives (responder.receive state a) state a out.old unicast.old
        (refusal_of result.answer) (length_of result.answer) (unicast_length_of result.answer) result.state out.new unicast.new) }
{
    responder::receive(state, time, from, port, draw, hold, packet, out, unicast)
}

pub fn tick(state: State, time: u64, out: &mut [u8]) -> Ticked
    ensures { (let t : Tick = record { time = time; room = length out.old } in
        Calls (responder.tick state t) state out.old (refusal_of result.answer) (length_of result.answer) result.state out.new) }
{
    responder::tick(state, time, out)
}
