// Stops and updates (specification, 'Stops and updates'; RFC 6762, sections 8.4 and 10.1), each on a state by value: a stop says goodbye, an update of the SRV
// port or of TXT announces the new data or begins to claim with them.
ghost use Rattle.std.specs.Prelude.{◌≡◌, length};
ghost use Rattle.own.specs.changes.Changes.{new_port, new_txt};
ghost use Rattle.responder.specs.Handed.{Tick};
ghost use Rattle.wire.specs.refusals.Numbers.{refused_by};
ghost use Rattle.responder.specs.changes.Changes.{Update, update_tests, Stops, UpdatesTo, Updates};

use crate::{Answer, State, admit_tick, answer_with, length_of, send, state_refused};
use claims::changes::{self, Change};
use claims::refusal_tests;
use claims::steps::Output;
use own::records::Setup;
use own::setups::check_setup;
use wire::refusals::Refusal;
use writer::own_packets::{self, LEAST_OUT};

#[derive(Clone, Copy)]
pub struct Stopped {
    pub answer: Answer,
    pub state: State,
}

#[derive(Clone, Copy)]
pub struct Updated {
    pub answer: Answer,
    pub state: State,
}

// Ends a responder: says goodbye to what it holds, and leaves both claims lost.
pub fn stop(state: State, time: u64, out: &mut [u8]) -> Stopped
    ensures { (let t : Tick = record { time = time; room = length out.old } in
        Stops state t out.old result out.new) }
{
    if let Err(refusal) = admit_tick(state, time, out.len()) {
        return Stopped {
            answer: Answer::Refused(refusal),
            state,
        };
    }
    let setup = state.setup;
    let stopped = changes::stop(state.progress, time, setup.hasaaaa);
    let goodbye = length_of(own_packets::goodbye(setup, stopped.goodbye, out));
    Stopped {
        answer: answer_with(goodbye, 0),
        state: State {
            setup,
            progress: stopped.progress,
        },
    }
}

// The refusal of an update to a set-up, if it is refused.
fn admit_update(state: State, time: u64, new: Setup, room: usize) -> Result<(), Refusal>
    ensures { result ≡ refused_by (update_tests state time room new) }
{
    let progress = state.progress;
    if refusal_tests::time_refused(progress, time) {
        return Err(Refusal::Time);
    }
    if room < LEAST_OUT {
        return Err(Refusal::Buffer);
    }
    if state_refused(state) || !check_setup(new) {
        return Err(Refusal::Setup);
    }
    if changes::lost_refused(progress) {
        return Err(Refusal::Lost);
    }
    if changes::too_soon_refused(progress, time) {
        return Err(Refusal::TooSoon);
    }
    Ok(())
}

// An update to a set-up, of the record that it changes.
fn update(state: State, time: u64, change: Change, new: Setup, out: &mut [u8]) -> Updated
    ensures { UpdatesTo state time change new out.old result out.new }
{
    if let Err(refusal) = admit_update(state, time, new, out.len()) {
        return Updated {
            answer: Answer::Refused(refusal),
            state,
        };
    }
    let updated = changes::update(state.progress, time, change);
    let sent = send(new, Output::Response(updated.announced), out);
    Updated {
        answer: answer_with(sent, 0),
        state: State {
            setup: new,
            progress: updated.progress,
        },
    }
}

// Changes the port of the SRV record.
pub fn update_port(state: State, time: u64, port: u16, out: &mut [u8]) -> Updated
    ensures { (let u : Update = record { time = time; room = length out.old; new = new_port port } in
        Updates state u out.old result out.new) }
{
    let new = own::changes::with_port(state.setup, port);
    update(state, time, Change::Port, new, out)
}

// Changes the TXT record.
pub fn update_txt(state: State, time: u64, txt: &[u8], out: &mut [u8]) -> Updated
    ensures { (let u : Update = record { time = time; room = length out.old; new = new_txt txt.now } in
        Updates state u out.old result out.new) }
{
    let new = own::changes::with_txt(state.setup, txt);
    update(state, time, Change::Txt, new, out)
}
