// The responder for C: each function calls the one of the same name in `capi_responder`, with the same clauses. c/include/kurgashel.h declares them.
#![tactic(auto)]

ghost use Rattle.capi_responder.specs.Exported.{Starts, Receives, Calls};
ghost use Rattle.std.specs.Prelude.{List, ℕ, length, ◌≡◌};
ghost use Rattle.responder.specs.Handed.{Arrival, Tick};
ghost use Rattle.responder.specs.address.Address.{address_of};
ghost use Rattle.responder.specs.Runs.{ticked, stopped, updated};
ghost use Rattle.own.specs.changes.Changes.{new_port, new_txt};
ghost use Rattle.responder.specs.changes.Changes.{Update};
ghost use Rattle.capi_responder.specs.state.Told.{claim_number, next_step};

use capi_responder::Called;
use capi_responder::state::NextStep;

// Begins a responder in lent bytes, with the bytes of a set-up.
#[unsafe(no_mangle)]
pub extern "C" fn kurgashel_start(state: &mut [u8], setup: &[u8], time: u64, draw: u64) -> Called
    ensures { Starts state.old setup.now time draw result state.new }
{
    capi_responder::kurgashel_start(state, setup, time, draw)
}

// Takes a packet that came from an address (16 bytes, or the 4 of IPv4) and a port, with the draws for a PTR reply and for a query that is held, and writes the
// answers that go out at once: to `out` those to all, to `unicast` those to the asker.
#[unsafe(no_mangle)]
pub extern "C" fn kurgashel_receive(
    state: &mut [u8],
    time: u64,
    from: &[u8],
    port: u16,
    draw: u64,
    hold: u64,
    packet: &[u8],
    out: &mut [u8],
    unicast: &mut [u8],
) -> Called
    ensures { (let source = address_of from.now in
        let p : List ℕ = packet.now in
        let room = length out.old in
        let second = length unicast.old in
        let a : Arrival = record { time = time; from = source; port = port; draw = draw; hold = hold; packet = p; room = room; unicastroom = second } in
        Receives state.old a out.old unicast.old result state.new out.new unicast.new) }
{
    capi_responder::kurgashel_receive(state, time, from, port, draw, hold, packet, out, unicast)
}

// Walks the due steps, and writes the packet of the first that sends.
#[unsafe(no_mangle)]
pub extern "C" fn kurgashel_tick(state: &mut [u8], time: u64, out: &mut [u8]) -> Called
    ensures { (let t : Tick = record { time = time; room = length out.old } in
        Calls state.old (ticked t) out.old result state.new out.new) }
{
    capi_responder::kurgashel_tick(state, time, out)
}

// Ends a responder: writes the goodbye of what it holds, and leaves both claims lost.
#[unsafe(no_mangle)]
pub extern "C" fn kurgashel_stop(state: &mut [u8], time: u64, out: &mut [u8]) -> Called
    ensures { (let t : Tick = record { time = time; room = length out.old } in
        Calls state.old (stopped t) out.old result state.new out.new) }
{
    capi_responder::changes::kurgashel_stop(state, time, out)
}

// Changes the port of the SRV record, and writes its announcement where the instance's name is held.
#[unsafe(no_mangle)]
pub extern "C" fn kurgashel_update_port(
    state: &mut [u8],
    time: u64,
    port: u16,
    out: &mut [u8],
) -> Called
    ensures { (let u : Update = record { time = time; room = length out.old; new = new_port port } in
        Calls state.old (updated u) out.old result state.new out.new) }
{
    capi_responder::changes::kurgashel_update_port(state, time, port, out)
}

// Changes the TXT record, and writes its announcement where the instance's name is held.
#[unsafe(no_mangle)]
pub extern "C" fn kurgashel_update_txt(
    state: &mut [u8],
    time: u64,
    txt: &[u8],
    out: &mut [u8],
) -> Called
    ensures { (let u : Update = record { time = time; room = length out.old; new = new_txt txt.now } in
        Calls state.old (updated u) out.old result state.new out.new) }
{
    capi_responder::changes::kurgashel_update_txt(state, time, txt, out)
}

// The state of a claim: 0 waiting, 1 probing, 2 deferred, 3 held, 4 lost; of the instance's where `claim` is 0, else of the host's.
#[unsafe(no_mangle)]
pub extern "C" fn kurgashel_claim(state: &[u8], claim: u8) -> u8
    ensures { result ≡ claim_number state.now claim }
{
    capi_responder::state::kurgashel_claim(state, claim)
}

// When the next step is due: until then a tick sends nothing.
#[unsafe(no_mangle)]
pub extern "C" fn kurgashel_due(state: &[u8]) -> NextStep
    ensures { result ≡ next_step state.now }
{
    capi_responder::state::kurgashel_due(state)
}
