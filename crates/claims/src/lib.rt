// The life of the two claims on numbers alone (specification, 'A claim's life'): start, and the claim after a conflict or a probe. The claims and the own
// records are in `records`, a tick in `steps`, what a message received does in `answers`, a stop and an update in `changes`, and the refusals that are tests on
// times and draws in `refusal_tests`.
#![tactic(auto)]

pub mod answers;
pub mod changes;
pub mod due;
pub mod holds;
pub mod records;
pub mod refusal_tests;
pub mod steps;

ghost use Rattle.std.specs.Prelude.{◌≡◌};
ghost use Rattle.claims.specs.Time.{after_ms, age, recently, due_by, at_most, never_sent, sent_of, marked, marked_all};
ghost use Rattle.claims.specs.Claims.{state_number, due_of, held_now, claim_of, begun_at, after_conflict, after_probe};

use crate::holds::{Holds, no_holds};
use crate::records::{Claim, Own, RECORDS, Set, index_of, is_in, record_at};

// A record that was multicast less than 1,000 ms ago is not sent again.
pub const MULTICAST_GAP: u64 = 1000;

// The state of a claim, each case with the time at which its next step is due: `Probing1` has sent one probe, `Announced` holds the name and has its second
// announcement to come.
#[derive(Clone, Copy)]
pub enum ClaimState {
    Waiting(u64),
    Probing1(u64),
    Probing2(u64),
    Probing3(u64),
    Deferred(u64),
    Announced(u64),
    Held,
    Lost,
}

// When a record was last multicast; a type of its own, as the definitions `last_of` and `each_last` name it.
#[derive(Clone, Copy)]
pub struct Multicast {
    pub last: Option<u64>,
}

// The last multicast of each own record, by its index.
#[derive(Clone, Copy)]
pub struct Multicasts {
    pub of: [Multicast; RECORDS],
}

// All that changes in a responder but for its data: the states of its claims, the last multicasts, when the PTR reply that a query asked for is due, the held
// queries, the time of the last update, the start draw, and the time of the last call.
#[derive(Clone, Copy)]
pub struct Progress {
    pub instance: ClaimState,
    pub host: ClaimState,
    pub sent: Multicasts,
    pub reply: Option<u64>,
    pub holds: Holds,
    pub updated: Option<u64>,
    pub draw: u64,
    pub last: u64,
}

// A time `ms` after `now`.
pub fn after(now: u64, ms: u64) -> u64
    ensures { result ≡ after_ms now ms }
{
    now.saturating_add(ms)
}

// Was a record that was last multicast then multicast less than `gap` ms ago?
pub fn was_recent(last: Option<u64>, now: u64, gap: u64) -> bool
    ensures { result ≡ recently last now gap }
{
    last.is_some_and(|time| now.saturating_sub(time) < gap)
}

// Has the time come?
pub fn has_come(due: Option<u64>, now: u64) -> bool
    ensures { result ≡ due_by due now }
{
    due.is_some_and(|time| time <= now)
}

// Is the time, if there is one, at most `most`?
pub fn is_within(kept: Option<u64>, most: u64) -> bool
    ensures { result ≡ at_most most kept }
{
    kept.is_none_or(|time| time <= most)
}

// The number of a claim's state: 0 waiting, 1 probing, 2 deferred, 3 held, 4 lost.
// A function of this name, and no From in its place: docs/TRACEABILITY.md names it.
pub fn state_number(c: ClaimState) -> u8
    ensures { result ≡ state_number c }
{
    match c {
        ClaimState::Waiting(_) => 0,
        ClaimState::Probing1(_) | ClaimState::Probing2(_) | ClaimState::Probing3(_) => 1,
        ClaimState::Deferred(_) => 2,
        ClaimState::Announced(_) | ClaimState::Held => 3,
        ClaimState::Lost => 4,
    }
}

// When the claim's next step is due.
pub fn due_of(c: ClaimState) -> Option<u64>
    ensures { result ≡ due_of c }
{
    match c {
        ClaimState::Waiting(due)
        | ClaimState::Probing1(due)
        | ClaimState::Probing2(due)
        | ClaimState::Probing3(due)
        | ClaimState::Announced(due)
        | ClaimState::Deferred(due) => Some(due),
        ClaimState::Held | ClaimState::Lost => None,
    }
}

pub fn is_held(c: ClaimState) -> bool
    ensures { result ≡ held_now c }
{
    matches!(c, ClaimState::Announced(_) | ClaimState::Held)
}

// The state of one of the two claims.
pub fn claim_of(claim: Claim, progress: Progress) -> ClaimState
    ensures { result ≡ claim_of claim progress }
{
    match claim {
        Claim::Instance => progress.instance,
        Claim::Host => progress.host,
    }
}

// No record was multicast.
pub fn never_sent() -> Multicasts
    ensures { result ≡ never_sent }
{
    Multicasts {
        of: [Multicast { last: None }; RECORDS],
    }
}

// A start: both claims wait for the draw.
pub fn start(now: u64, draw: u64) -> Progress
    ensures { result ≡ begun_at now draw }
{
    let due = after(now, draw);
    Progress {
        instance: ClaimState::Waiting(due),
        host: ClaimState::Waiting(due),
        sent: never_sent(),
        reply: None,
        holds: no_holds(),
        updated: None,
        draw,
        last: now,
    }
}

// The claim after a conflict, where a new first probe would be due at `due`.
pub fn after_conflict(c: ClaimState, due: u64) -> ClaimState
    ensures { result ≡ after_conflict c due }
{
    if is_held(c) {
        ClaimState::Waiting(due)
    } else {
        ClaimState::Lost
    }
}

// The claim after a probe with later records, where a deferred first probe would be due at `due`.
pub fn after_probe(c: ClaimState, due: u64) -> ClaimState
    ensures { result ≡ after_probe c due }
{
    match c {
        ClaimState::Probing1(_) | ClaimState::Probing2(_) | ClaimState::Probing3(_) => {
            ClaimState::Deferred(due)
        }
        _ => c,
    }
}

// When the record was last multicast.
pub fn sent_of(o: Own, sent: Multicasts) -> Option<u64>
    ensures { result ≡ sent_of o sent }
{
    sent.of[index_of(o)].last
}

// The last multicast of a record after a packet, with the record in it or not.
fn mark(went: bool, last: Option<u64>, now: u64) -> Option<u64>
    ensures { result ≡ marked went last now }
{
    if went { Some(now) } else { last }
}

// The last multicasts after a packet with the records of a set.
pub fn mark_all(set: Set, sent: Multicasts, now: u64) -> Multicasts
    ensures { result ≡ marked_all set sent now }
{
    let mut of = [Multicast { last: None }; RECORDS];
    for i in 0..RECORDS {
        let o = record_at(i);
        let last = mark(is_in(o, set), sent_of(o, sent), now);
        of[i] = Multicast { last };
    }
    Multicasts { of }
}
