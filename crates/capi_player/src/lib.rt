// The player for C and Rust: the event at an offset of a trace, played to a responder whose state the caller lends as bytes (`capi_responder::codec`), with
// what it came to in numbers. c/include/kurgashel.h declares the function.
#![tactic(auto)]

ghost use Rattle.std.specs.Prelude.{◌≡◌};
ghost use Rattle.capi_player.specs.Laid.{data_laid, Lays};
ghost use Rattle.capi_player.specs.Played.{is_taken, no_state, turn_numbers, Plays};

use capi_responder::layout;
use own::records::{MOST_TXT, Setup};
use playing::{Turn, refusal_number};
use responder::State;
use wire::buffer::put;
use wire::refusals::Refusal;

// What playing from an offset came to: 7, 12 or 0; 0 at the trace's end or where it is refused, 1 for a call that was made, 2 for a claim that was recorded;
// the refusal number of that call, or 0; whether the responder agrees with what was recorded; the offset behind the event, or that of the refusal; and of the
// claim the last time, its number and its state.
#[repr(C)]
#[derive(Clone, Copy)]
pub struct PlayedTurn {
    pub refusal: u8,
    pub turn: u8,
    pub call: u8,
    pub agrees: bool,
    pub at: usize,
    pub last: u64,
    pub claim: u64,
    pub state: u64,
}

// Of a buffer that is no state.
fn no_state(at: usize) -> PlayedTurn
    ensures { result ≡ no_state at }
{
    PlayedTurn {
        refusal: Refusal::Setup.number(),
        turn: 0,
        call: 0,
        agrees: false,
        at,
        last: 0,
        claim: 0,
        state: 0,
    }
}

// A turn in numbers, with the refusal number of its call.
fn turn_numbers(turn: Turn, call: u8, at: usize) -> PlayedTurn
    ensures { result ≡ turn_numbers turn call at }
{
    let none = PlayedTurn {
        refusal: 0,
        turn: 0,
        call,
        agrees: false,
        at,
        last: 0,
        claim: 0,
        state: 0,
    };
    match turn {
        Turn::End => none,
        Turn::Refused(offset) => PlayedTurn {
            refusal: Refusal::Trace.number(),
            at: offset,
            ..none
        },
        Turn::Called(next) => PlayedTurn {
            turn: 1,
            at: next,
            ..none
        },
        Turn::Shown(line, next) => PlayedTurn {
            turn: 2,
            agrees: line.agrees,
            at: next,
            last: line.last,
            claim: line.claim,
            state: line.state,
            ..none
        },
    }
}

// Whether a call was made, and taken.
fn is_taken(turn: Turn, call: u8) -> bool
    ensures { result ≡ is_taken turn call }
{
    match turn {
        Turn::End => false,
        Turn::Refused(_) => false,
        Turn::Called(_) => call == 0,
        Turn::Shown(_, _) => false,
    }
}

// Lays the TXT strings and the port of a set-up over those of a state's bytes.
fn put_data(state: &mut [u8], setup: Setup)
    ensures { state.new ≡ data_laid state.old setup }
{
    let len = setup.txt.len;
    let port = setup.port;
    put(state, layout::TXT, &setup.txt.bytes);
    let tail = [(len / 256 % 256) as u8, (len % 256) as u8];
    put(state, layout::TXT + MOST_TXT, &tail);
    let bytes = [(port / 256 % 256) as u8, (port % 256) as u8];
    put(state, layout::PORT, &bytes);
}

// Writes the state after a call over the bytes of the one before it: no call changes more of a set-up than its TXT strings and its port.
fn put_state(state: &mut [u8], after: State)
    ensures { Lays state.old after state.new }
{
    put_data(state, after.setup);
    capi_responder::encoder::put_progress(state, after.progress);
}

// Plays the event at an offset of a trace to the responder in lent bytes.
pub fn kurgashel_play(state: &mut [u8], trace: &[u8], at: usize) -> PlayedTurn
    ensures { Plays state.old trace.now at result state.new }
{
    if state.len() != layout::STATE_SIZE {
        return no_state(at);
    }
    let played = playing::play(trace, at, capi_responder::codec::read_state(state));
    let call = refusal_number(played.refusal);
    if is_taken(played.turn, call) {
        put_state(state, played.state);
    }
    turn_numbers(played.turn, call, at)
}
