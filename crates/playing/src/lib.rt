// A trace, played to a responder: each call that it records is made on, refused ones too, and each claim's state that it records is compared with that of the
// responder. Every call is made with out buffers of 1,452 bytes; what is sent is not looked at.
#![tactic(auto)]

ghost use Rattle.std.specs.Prelude.{◌≡◌, true, ◌<◌};
ghost use Rattle.own.specs.changes.Changes.{new_port, new_txt};
ghost use Rattle.trace.specs.reading.Events.{data_at, occurrence};
ghost use Rattle.trace.specs.writing.Sizes.{can_be_written};
ghost use Rattle.claims.specs.Claims.{state_number};
ghost use Rattle.responder.specs.Runs.{received, ticked, stopped, updated};
ghost use Rattle.playing.specs.Playing.{arrival_of, tick_of, update_of, refusal_in, number_for, made_with};
ghost use Rattle.playing.specs.Playing.{made_by, made_behind, number_in, agrees_with, turn_of, played_at, port_fits};

use claims::ClaimState;
use claims::holds::Address;
use responder::{Answer, State};
use trace::reading::Event;
use wire::refusals::Refusal;

// The length of the out buffers.
const ROOM: usize = writer::own_packets::LEAST_OUT;

// What was recorded of a claim: the last time, the claim by its number, 0 for the instance's and 1 for the host's, its state by its number, and whether the
// responder agrees.
// Numbers, and no enums: a C struct shows them, and a recorded claim is compared by them.
#[derive(Clone, Copy)]
pub struct Line {
    pub last: u64,
    pub claim: u64,
    pub state: u64,
    pub agrees: bool,
}

// What playing from an offset came to: the trace's end, its refusal with the offset, a call that was made, or a line; the latter two with the offset behind
// them.
// Four cases, and no Result of an Option: its callers tell them apart in one match each.
#[derive(Clone, Copy)]
pub enum Turn {
    End,
    Refused(usize),
    Called(usize),
    Shown(Line, usize),
}

// It; the refusal of the call, none where it was taken or none was made; and the responder's state after it.
#[derive(Clone, Copy)]
pub struct Played {
    pub turn: Turn,
    pub refusal: Option<Refusal>,
    pub state: State,
}

// What a call gave: its refusal, if it was refused, and the responder's state after it.
#[derive(Clone, Copy)]
pub struct Made {
    pub refusal: Option<Refusal>,
    pub state: State,
}

// The number of a claim's state: 0 waiting, 1 probing, 2 deferred, 3 held, 4 lost.
pub fn state_number(c: ClaimState) -> u64
    ensures { result ≡ state_number c }
{
    claims::state_number(c) as u64
}

// The number of the state that a claim, by its number, is in.
fn number_in(state: State, claim: u64) -> u64
    ensures { result ≡ number_in state claim }
{
    if claim == 0 {
        state_number(state.progress.instance)
    } else {
        state_number(state.progress.host)
    }
}

// Whether a responder agrees with what was recorded of a claim: its last time and the claim's state.
pub fn agrees(state: State, last: u64, claim: u64, number: u64) -> bool
    ensures { result ≡ agrees_with state last claim number }
{
    state.progress.last == last && number_in(state, claim) == number
}

// The number of a call's refusal, or 0.
pub fn refusal_number(refusal: Option<Refusal>) -> u8
    ensures { result ≡ number_for refusal }
{
    match refusal {
        Some(refusal) => refusal.number(),
        None => 0,
    }
}

fn refusal_of(answer: Answer) -> Option<Refusal>
    ensures { result ≡ refusal_in answer }
{
    match answer {
        Answer::Refused(refusal) => Some(refusal),
        Answer::Quiet | Answer::Sent(_) | Answer::Unicast(_) | Answer::Both(_, _) => None,
    }
}

fn made_with(answer: Answer, state: State) -> Made
    ensures { result ≡ made_with answer state }
{
    Made {
        refusal: refusal_of(answer),
        state,
    }
}

// A function for each call: every call answers a struct of its own.
fn tick(state: State, time: u64) -> Made
    ensures { result ≡ made_by state (ticked (tick_of time)) }
{
    let mut out = [0u8; ROOM];
    let after = responder::tick(state, time, &mut out);
    made_with(after.answer, after.state)
}

fn receive(
    state: State,
    time: u64,
    from: Address,
    port: u64,
    draw: u64,
    hold: u64,
    packet: &[u8],
) -> Made
    requires { port < 65536 }
    ensures { result ≡ made_by state (received (arrival_of time from port draw hold packet.now)) }
{
    let mut out = [0u8; ROOM];
    let mut unicast = [0u8; ROOM];
    let after = responder::receive(
        state,
        time,
        from,
        port as u16,
        draw,
        hold,
        packet,
        &mut out,
        &mut unicast,
    );
    made_with(after.answer, after.state)
}

fn stop(state: State, time: u64) -> Made
    ensures { result ≡ made_by state (stopped (tick_of time)) }
{
    let mut out = [0u8; ROOM];
    let after = responder::changes::stop(state, time, &mut out);
    made_with(after.answer, after.state)
}

fn update_port(state: State, time: u64, port: u64) -> Made
    requires { port < 65536 }
    ensures { result ≡ made_by state (updated (update_of time (new_port port))) }
{
    let mut out = [0u8; ROOM];
    let after = responder::changes::update_port(state, time, port as u16, &mut out);
    made_with(after.answer, after.state)
}

fn update_txt(state: State, time: u64, txt: &[u8]) -> Made
    ensures { result ≡ made_by state (updated (update_of time (new_txt txt.now))) }
{
    let mut out = [0u8; ROOM];
    let after = responder::changes::update_txt(state, time, txt, &mut out);
    made_with(after.answer, after.state)
}

// What comes of an event with the bytes that it brings.
fn behind(state: State, event: Event, bytes: &[u8]) -> Made
    requires { port_fits event ≡ true }
    ensures { result ≡ made_behind state (occurrence event bytes.now) }
{
    match event {
        Event::Tick(time) => tick(state, time),
        Event::Packet {
            time,
            from,
            port,
            draw,
            hold,
        } => receive(state, time, from, port, draw, hold, bytes),
        Event::Claim {
            last: _,
            claim: _,
            state: _,
        } => Made {
            refusal: None,
            state,
        },
        Event::Stop(time) => stop(state, time),
        Event::Port { time, port } => update_port(state, time, port),
        Event::Txt(time) => update_txt(state, time, bytes),
    }
}

// What comes of the event at an offset.
fn behind_at(trace: &[u8], at: usize, state: State, event: Event) -> Made
    requires { can_be_written (occurrence event (data_at trace.now at)) ≡ true }
    ensures { result ≡ made_behind state (occurrence event (data_at trace.now at)) }
{
    let mut bytes = [0u8; 65535];
    let n = trace::reading::bytes(trace, at, &mut bytes);
    behind(state, event, wire::rdata::part(&bytes, 0, n))
}

// What an event shows: a line of what was recorded, or that a call was made.
fn turn_of(state: State, event: Event, next: usize) -> Turn
    ensures { result ≡ turn_of state event next }
{
    match event {
        Event::Claim {
            last,
            claim,
            state: number,
        } => Turn::Shown(
            Line {
                last,
                claim,
                state: number,
                agrees: agrees(state, last, claim, number),
            },
            next,
        ),
        _ => Turn::Called(next),
    }
}

// Plays the event at an offset to a responder.
pub fn play(trace: &[u8], at: usize, state: State) -> Played
    ensures { result ≡ played_at trace.now at state }
{
    match trace::reading::next(trace, at) {
        Ok(Some(entry)) => {
            let call = behind_at(trace, at, state, entry.event);
            Played {
                turn: turn_of(state, entry.event, entry.next),
                refusal: call.refusal,
                state: call.state,
            }
        }
        Ok(None) => Played {
            turn: Turn::End,
            refusal: None,
            state,
        },
        Err(refused) => Played {
            turn: Turn::Refused(refused.at),
            refusal: None,
            state,
        },
    }
}
