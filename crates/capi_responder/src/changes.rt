// Stops and updates for C and Rust (specification, 'Stops and updates'): the calls on a state that the caller lends as bytes. A start, a packet received and
// a tick are in the root.
ghost use Rattle.std.specs.Prelude.{◌≡◌, ◌<◌, length};
ghost use Rattle.std.proofs.lemmas.List.Edits.{sets};
ghost use Rattle.own.specs.changes.Changes.{new_port, new_txt, strings_of};
ghost use Rattle.responder.specs.Handed.{Tick};
ghost use Rattle.responder.specs.changes.Changes.{Update};
ghost use Rattle.responder.specs.Runs.{stopped, updated};
ghost use Rattle.capi_responder.specs.codec.Layout as layout;
ghost use Rattle.capi_responder.specs.codec.Codec.{bytes16, strings_bytes};
ghost use Rattle.capi_responder.specs.Exported.{Calls};

use crate::codec::read_state;
use crate::encoder::put_progress;
use crate::{Called, answered, layout, refusal_of};
use own::records::MOST_TXT;
use responder::changes;
use wire::buffer::put;

// Writes a port over that of the set-up.
fn put_port(state: &mut [u8], port: u16)
    ensures { state.new ≡ sets state.old layout.port (bytes16 port) }
{
    put(state, layout::PORT, &port.to_be_bytes());
}

// Writes TXT strings over those of the set-up, and their length.
fn put_txt(state: &mut [u8], txt: &[u8])
    requires { length txt.now < 65536 }
    ensures { state.new ≡ sets state.old layout.txt (strings_bytes (strings_of txt.now)) }
{
    let mut strings = [0u8; MOST_TXT];
    put(&mut strings, 0, txt);
    put(state, layout::TXT, &strings);
    let len = txt.len() as u16;
    put(state, layout::TXT + MOST_TXT, &len.to_be_bytes());
}

// Ends a responder: writes the goodbye of what it holds, and leaves both claims lost.
pub fn kurgashel_stop(state: &mut [u8], time: u64, out: &mut [u8]) -> Called
    ensures { (let t : Tick = record { time = time; room = length out.old } in
        Calls state.old (stopped t) out.old result state.new out.new) }
{
    let ended = changes::stop(read_state(state), time, out);
    if refusal_of(ended.answer) == 0 {
        put_progress(state, ended.state.progress);
    }
    answered(ended.answer, false)
}

// Changes the port of the SRV record, and writes its announcement where the instance's name is held.
pub fn kurgashel_update_port(state: &mut [u8], time: u64, port: u16, out: &mut [u8]) -> Called
    ensures { (let u : Update = record { time = time; room = length out.old; new = new_port port } in
        Calls state.old (updated u) out.old result state.new out.new) }
{
    let changed = changes::update_port(read_state(state), time, port, out);
    if refusal_of(changed.answer) == 0 {
        put_port(state, port);
        put_progress(state, changed.state.progress);
    }
    answered(changed.answer, false)
}

// Changes the TXT record, and writes its announcement where the instance's name is held.
pub fn kurgashel_update_txt(state: &mut [u8], time: u64, txt: &[u8], out: &mut [u8]) -> Called
    ensures { (let u : Update = record { time = time; room = length out.old; new = new_txt txt.now } in
        Calls state.old (updated u) out.old result state.new out.new) }
{
    let changed = changes::update_txt(read_state(state), time, txt, out);
    if refusal_of(changed.answer) == 0 {
        put_txt(state, txt);
        put_progress(state, changed.state.progress);
    }
    answered(changed.answer, false)
}
