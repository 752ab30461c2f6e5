// Goodbyes and changed data on numbers alone (specification, 'Stops and updates'; RFC 6762, sections 8.4 and 10.1): what a stop and an update do to the claims
// and to the held queries, and which own records go out; and the two refusals of an update.
ghost use Rattle.std.specs.Prelude.{◌≡◌, not, ◌&&◌};
ghost use Rattle.claims.specs.changes.Changes.{is_parting, goodbye_of, stop_of, changed_record, after_update, announced_of, without, forgetting};
ghost use Rattle.claims.specs.changes.Changes.{forgetting_all, update_of, is_lost, lost_to_update, too_soon};

use crate::holds::{Hold, Holds};
use crate::records::{Own, Set, carries_data, claim_for, is_in, is_present, no_record, only};
use crate::steps::ANNOUNCEMENT_GAP;
use crate::{ClaimState, Progress, after, claim_of, is_held, mark_all, was_recent};

// An update is refused until 6,000 ms after the last.
pub const UPDATE_GAP: u64 = 6000;

// What an update changes: the port of SRV, or TXT.
#[derive(Clone, Copy)]
pub enum Change {
    Port,
    Txt,
}

// A stop: the progress after it, and the records that go out with TTL 0.
#[derive(Clone, Copy)]
pub struct Stopped {
    pub progress: Progress,
    pub goodbye: Set,
}

// An update: the progress after it, and the record that is announced, if any.
#[derive(Clone, Copy)]
pub struct Updated {
    pub progress: Progress,
    pub announced: Set,
}

// Does the record go out with a goodbye? Its claim is held, it carries data, and it is there.
fn is_parting(progress: Progress, aaaa: bool, o: Own) -> bool
    ensures { result ≡ is_parting progress aaaa o }
{
    is_held(claim_of(claim_for(o), progress)) && carries_data(o) && is_present(o, aaaa)
}

// The records of a goodbye.
fn goodbye(progress: Progress, aaaa: bool) -> Set
    ensures { result ≡ goodbye_of progress aaaa }
{
    Set::of(|o| is_parting(progress, aaaa, o))
}

// A stop: the held claims' records go out with TTL 0, and both claims are lost. `aaaa` says whether there is an AAAA record.
pub fn stop(progress: Progress, now: u64, aaaa: bool) -> Stopped
    ensures { result ≡ stop_of progress now aaaa }
{
    Stopped {
        progress: Progress {
            instance: ClaimState::Lost,
            host: ClaimState::Lost,
            last: now,
            ..progress
        },
        goodbye: goodbye(progress, aaaa),
    }
}

// The record that an update changes.
pub fn changed_record(change: Change) -> Own
    ensures { result ≡ changed_record change }
{
    match change {
        Change::Port => Own::Srv,
        Change::Txt => Own::Txt,
    }
}

// The claim after an update, where a new first probe would be due at `again`, and a new second announcement at `second`.
fn after_update(c: ClaimState, again: u64, second: u64) -> ClaimState
    ensures { result ≡ after_update c again second }
{
    match c {
        ClaimState::Waiting(_)
        | ClaimState::Probing1(_)
        | ClaimState::Probing2(_)
        | ClaimState::Deferred(_)
        | ClaimState::Probing3(_) => ClaimState::Waiting(again),
        ClaimState::Announced(_) | ClaimState::Held => ClaimState::Announced(second),
        ClaimState::Lost => ClaimState::Lost,
    }
}

// The record that an update announces, if the claim is held.
fn announced(progress: Progress, change: Change) -> Set
    ensures { result ≡ announced_of progress change }
{
    if is_held(progress.instance) {
        only(changed_record(change))
    } else {
        no_record()
    }
}

// The records of a set but for those of another.
fn without(set: Set, gone: Set) -> Set
    ensures { result ≡ without set gone }
{
    Set::of(|o| is_in(o, set) && !is_in(o, gone))
}

// A held query that no longer knows the record.
fn forget(o: Own, h: Hold) -> Hold
    ensures { result ≡ forgetting o h }
{
    Hold {
        known: without(h.known, only(o)),
        ..h
    }
}

fn forget_all(o: Own, holds: Holds) -> Holds
    ensures { result ≡ forgetting_all o holds }
{
    Holds {
        first: forget(o, holds.first),
        second: forget(o, holds.second),
        third: forget(o, holds.third),
        fourth: forget(o, holds.fourth),
    }
}

// An update: where the instance claim is held its record is announced, and else the claim starts anew.
pub fn update(progress: Progress, now: u64, change: Change) -> Updated
    ensures { result ≡ update_of progress now change }
{
    let again = after(now, progress.draw);
    let second = after(now, ANNOUNCEMENT_GAP);
    let goes = announced(progress, change);
    Updated {
        progress: Progress {
            instance: after_update(progress.instance, again, second),
            sent: mark_all(goes, progress.sent, now),
            holds: forget_all(changed_record(change), progress.holds),
            updated: Some(now),
            last: now,
            ..progress
        },
        announced: goes,
    }
}

// Refusal 10 of an update: the instance claim is lost.
pub fn lost_refused(progress: Progress) -> bool
    ensures { result ≡ lost_to_update progress }
{
    matches!(progress.instance, ClaimState::Lost)
}

// Refusal 11 of an update: the last was less than 6,000 ms ago.
pub fn too_soon_refused(progress: Progress, now: u64) -> bool
    ensures { result ≡ too_soon progress now }
{
    was_recent(progress.updated, now, UPDATE_GAP)
}
