// The exported calls, on a state in bytes: the state that its bytes say before the call, those after it, and the answer in numbers.
ghost use Rattle.std.specs.Prelude.{◌≡◌, List, ℕ, length};
ghost use Rattle.responder.specs.Handed.{Arrival, Tick};
ghost use Rattle.responder.specs.address.Address.{address_of};
ghost use Rattle.own.specs.changes.Changes.{new_port, new_txt};
ghost use Rattle.responder.specs.changes.Changes.{Update};
ghost use Rattle.capi_responder.specs.codec.Codec.{decode};
ghost use Rattle.capi_responder.specs.Exported.{setup_for};
ghost use Rattle.uniqueness.specs.Responder.{responder};
ghost use Rattle.demand3.specs.Seen.{begun_as, Calls, Receives};

use capi_responder::Called;

pub fn start(state: &mut [u8], setup: &[u8], time: u64, draw: u64) -> Called
    ensures { let setup = setup_for setup.entry.now (length state.old) in
        responder.start setup time draw ≡ begun_as result.refusal (decode state.new) }
{
    capi_responder::kurgashel_start(state, setup, time, draw)
}

// Beside the one in the root: docs/DEMAND-3.md rests on the clause of each.
pub fn receive(
    state: &mut [u8],
    time: u64,
    from: &[u8],
    port: u16,
    draw: u64,
    hold: u64,
    packet: &[u8],
    out: &mut [u8],
    unicast: &mut [u8],
) -> Called
    ensures { (let x = decode state.old in
        let room = length out.old in
        let second = length unicast.old in
        let source = address_of from.now in
        let p : List ℕ = packet.now in
        let a : Arrival = record { time = time; from = source; port = port; draw = draw; hold = hold; packet = p; room = room; unicastroom = second } in
        Receives (responder.receive x a) x a out.old unicast.old
        result.refusal result.length result.unicast (decode state.new) out.new unicast.new) }
{
    capi_responder::kurgashel_receive(state, time, from, port, draw, hold, packet, out, unicast)
}

pub fn tick(state: &mut [u8], time: u64, out: &mut [u8]) -> Called
    ensures { (let x = decode state.old in
        let t : Tick = record { time = time; room = length out.old } in
        Calls (responder.tick x t) x out.old result.refusal result.length (decode state.new) out.new) }
{
    capi_responder::kurgashel_tick(state, time, out)
}

pub fn stop(state: &mut [u8], time: u64, out: &mut [u8]) -> Called
    ensures { (let x = decode state.old in
        let t : Tick = record { time = time; room = length out.old } in
        Calls (responder.stop x t) x out.old result.refusal result.length (decode state.new) out.new) }
{
    capi_responder::changes::kurgashel_stop(state, time, out)
}

pub fn update_port(state: &mut [u8], time: u64, port: u16, out: &mut [u8]) -> Called
    ensures { (let x = decode state.old in
        let u : Update = record { time = time; room = length out.old; new = new_port port } in
        Calls (responder.update x u) x out.old result.refusal result.length (decode state.new) out.new) }
{
    capi_responder::changes::kurgashel_update_port(state, time, port, out)
}

pub fn update_txt(state: &mut [u8], time: u64, txt: &[u8], out: &mut [u8]) -> Called
    ensures { (let x = decode state.old in
        let u : Update = record { time = time; room = length out.old; new = new_txt txt.now } in
        Calls (responder.update x u) x out.old result.refusal result.length (decode state.new) out.new) }
{
    capi_responder::changes::kurgashel_update_txt(state, time, txt, out)
}
