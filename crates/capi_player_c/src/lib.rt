// The player for C: its function calls the one of the same name in `capi_player`, with the same clauses. c/include/kurgashel.h declares it.
#![tactic(auto)]

ghost use Rattle.capi_player.specs.Played.{Plays};

use capi_player::PlayedTurn;

// Plays the event at an offset of a trace to the responder in lent bytes.
#[unsafe(no_mangle)]
pub extern "C" fn kurgashel_play(state: &mut [u8], trace: &[u8], at: usize) -> PlayedTurn
    ensures { Plays state.old trace.now at result state.new }
{
    capi_player::kurgashel_play(state, trace, at)
}
