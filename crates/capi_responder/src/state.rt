// What a responder's state says, for C and Rust: how a claim stands, and when the next step is due. Both only read the lent bytes (module `codec`);
// c/include/kurgashel.h declares them.
ghost use Rattle.std.specs.Prelude.{◌≡◌};
ghost use Rattle.capi_responder.specs.state.Told.{claim_number, next_step};

use crate::codec::read_progress;
use claims::due::next_due;
use claims::state_number;

// Whether a step is due at all, and when.
#[repr(C)]
#[derive(Clone, Copy)]
pub struct NextStep {
    pub due: bool,
    pub time: u64,
}

// The state of a claim: 0 waiting, 1 probing, 2 deferred, 3 held, 4 lost; of the instance's where `claim` is 0, else of the host's.
pub fn kurgashel_claim(state: &[u8], claim: u8) -> u8
    ensures { result ≡ claim_number state.now claim }
{
    let progress = read_progress(state);
    if claim == 0 {
        state_number(progress.instance)
    } else {
        state_number(progress.host)
    }
}

// When the next step is due: until then a tick sends nothing.
pub fn kurgashel_due(state: &[u8]) -> NextStep
    ensures { result ≡ next_step state.now }
{
    match next_due(read_progress(state)) {
        None => NextStep {
            due: false,
            time: 0,
        },
        Some(time) => NextStep { due: true, time },
    }
}
