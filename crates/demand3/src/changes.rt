// Stops and updates on a state by value.
ghost use Rattle.std.specs.Prelude.{ℕ, length};
ghost use Rattle.own.specs.changes.Changes.{new_port, new_txt};
ghost use Rattle.responder.specs.Handed.{Tick};
ghost use Rattle.responder.specs.changes.Changes.{Update};
ghost use Rattle.responder.specs.Calls.{refusal_of, length_of};
ghost use Rattle.uniqueness.specs.Responder.{responder};
ghost use Rattle.demand3.specs.Seen.{Calls};

use responder::State;
use responder::changes::{Stopped, Updated};

pub fn stop(state: State, time: u64, out: &mut [u8]) -> Stopped
    ensures { (let t : Tick = record { time = time; room = length out.old } in
        Calls (responder.stop state t) state out.old (refusal_of result.answer) (length_of result.answer) result.state out.new) }
{
    responder::changes::stop(state, time, out)
}

pub fn update_port(state: State, time: u64, port: u16, out: &mut [u8]) -> Updated
    ensures { (let u : Update = record { time = time; room = length out.old; new = new_port port } in
        Calls (responder.update state u) state out.old (refusal_of result.answer) (length_of result.answer) result.state out.new) }
{
    responder::changes::update_port(state, time, port, out)
}

pub fn update_txt(state: State, time: u64, txt: &[u8], out: &mut [u8]) -> Updated
    ensures { (let u : Update = record { time = time; room = length out.old; new = new_txt txt.now } in
        Calls (responder.update state u) state out.old (refusal_of result.answer) (length_of result.answer) result.state out.new) }
{
    responder::changes::update_txt(state, time, txt, out)
}
