// The refusals that are tests on times and draws (specification, 'Refusal numbers' 1, 2, and of 7 the kept start draw). Their definitions stand beside the
// claim's life, in claims/specs/Refusals.
ghost use Rattle.std.specs.Prelude.{◌≡◌, ◌&&◌};
ghost use Rattle.claims.specs.Refusals.{claim_kept, multicasts_kept, hold_kept, holds_kept, kept, late_start, wrong_time, wrong_start_draw, wrong_reply_draw};
ghost use Rattle.claims.specs.Refusals.{wrong_hold_draw, wrong_draws};

use crate::holds::{Hold, Holds};
use crate::{ClaimState, Multicasts, Progress, due_of, is_within};

// The last time that a call may carry: 2^62.
pub const LAST_TIME: u64 = 4611686018427387904;

// The last time that a state may keep: 2^62 + 2,000.
pub const LAST_KEPT: u64 = 4611686018427389904;

// Is the due time of a claim, if it has one, at most `most`?
fn claim_kept(c: ClaimState, most: u64) -> bool
    ensures { result ≡ claim_kept most c }
{
    is_within(due_of(c), most)
}

// Is every last multicast at most `most`?
fn multicasts_kept(sent: Multicasts, most: u64) -> bool
    ensures { result ≡ multicasts_kept most sent }
{
    sent.of.iter().all(|m| is_within(m.last, most))
}

// Is the due time of a held query, if there is one, at most `most`?
fn hold_kept(h: Hold, most: u64) -> bool
    ensures { result ≡ hold_kept most h }
{
    is_within(h.due, most)
}

// Is the due time of every held query at most `most`?
fn holds_kept(holds: Holds, most: u64) -> bool
    ensures { result ≡ holds_kept most holds }
{
    hold_kept(holds.first, most)
        && hold_kept(holds.second, most)
        && hold_kept(holds.third, most)
        && hold_kept(holds.fourth, most)
}

// Is every time that is kept at most `most`?
fn is_kept(progress: Progress, most: u64) -> bool
    ensures { result ≡ kept most progress }
{
    claim_kept(progress.instance, most)
        && claim_kept(progress.host, most)
        && multicasts_kept(progress.sent, most)
        && is_within(progress.reply, most)
        && holds_kept(progress.holds, most)
        && is_within(progress.updated, most)
        && progress.last <= most
}

// Refusal 1 of a start.
pub fn start_time_refused(now: u64) -> bool
    ensures { result ≡ late_start now }
{
    LAST_TIME < now
}

// Refusal 1 of a packet received and of a tick.
pub fn time_refused(progress: Progress, now: u64) -> bool
    ensures { result ≡ wrong_time progress now }
{
    start_time_refused(now) || now < progress.last || !is_kept(progress, LAST_KEPT)
}

// Refusal 2 of a start, and what refusal 7 asks of a kept start draw.
pub fn start_draw_refused(draw: u64) -> bool
    ensures { result ≡ wrong_start_draw draw }
{
    250 < draw
}

// Refusal 2 of a packet received: the draw for a PTR reply.
fn reply_draw_refused(draw: u64) -> bool
    ensures { result ≡ wrong_reply_draw draw }
{
    draw < 20 || 120 < draw
}

// Refusal 2 of a packet received: the draw for a hold.
fn hold_draw_refused(hold: u64) -> bool
    ensures { result ≡ wrong_hold_draw hold }
{
    hold < 400 || 500 < hold
}

// Refusal 2 of a packet received: either draw.
pub fn draws_refused(draw: u64, hold: u64) -> bool
    ensures { result ≡ wrong_draws draw hold }
{
    reply_draw_refused(draw) || hold_draw_refused(hold)
}
