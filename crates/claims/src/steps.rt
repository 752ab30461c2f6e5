// A tick on numbers alone (specification, 'A claim's life'): the due steps of the two claims, of the PTR reply and of the held queries, in order, up to the
// first that sends.
ghost use Rattle.std.specs.Prelude.{◌≡◌};
ghost use Rattle.claims.specs.steps.Steps.{claim_due, step_at, hold_due, step_due, more_due, taken_action, action_of, unsent, unsent_of};
ghost use Rattle.claims.specs.steps.Tick.{with_claim, with_sent, without_reply, sends, action_turn, claim_turn};
ghost use Rattle.claims.specs.steps.Tick.{ptr_reply, reply_turn, without_hold, hold_answers, hold_turn, step_turn, walked, ended_of, tick_of};
ghost use Rattle.claims.specs.steps.Steps as steps;

use crate::answers::{asks_of_hold, wanted};
use crate::holds::{Place, hold_at, no_hold, with_hold};
use crate::records::{Claim, Own, Set, is_any, is_in, no_record, only, records_of};
use crate::{
    ClaimState, MULTICAST_GAP, Multicasts, Progress, after, claim_of, due_of, has_come, is_held,
    mark_all, sent_of, was_recent,
};

// The first probe is followed by two more, and each probe by the next step, after 250 ms; the first announcement by the second after 1,000 ms.
const PROBE_GAP: u64 = 250;

pub const ANNOUNCEMENT_GAP: u64 = 1000;

// The steps of a tick: of each claim, of the PTR reply, and of each held query.
#[derive(Clone, Copy)]
pub enum Step {
    OfClaim(Claim),
    PtrReply,
    OfHold(Place),
}

// How many steps a tick walks.
pub const STEPS: usize = 7;

// What a call sends: at most one packet.
// No Option round the two: each case is told apart once, by one match.
#[derive(Clone, Copy)]
pub enum Output {
    Nothing,
    Probe(Claim),
    Response(Set),
}

// What a claim's step does, with the claim after it: nothing, a probe, the first announcement, the second.
// No Option round the three: each case is told apart once, by one match.
#[derive(Clone, Copy)]
pub enum Action {
    Idle,
    Probe(ClaimState),
    Announce(ClaimState),
    Repeat(ClaimState),
}

// A step taken: the progress after it, and what it sends.
#[derive(Clone, Copy)]
pub struct Turn {
    pub progress: Progress,
    pub output: Output,
}

// A tick: the progress after it, what it sends, and whether more is due.
#[derive(Clone, Copy)]
pub struct Ticked {
    pub progress: Progress,
    pub output: Output,
    pub more: bool,
}

// The steps in their order; past the end, the first.
pub fn step_at(i: usize) -> Step
    ensures { result ≡ step_at i }
{
    let steps = [
        Step::OfClaim(Claim::Instance),
        Step::OfClaim(Claim::Host),
        Step::PtrReply,
        Step::OfHold(Place::First),
        Step::OfHold(Place::Second),
        Step::OfHold(Place::Third),
        Step::OfHold(Place::Fourth),
    ];
    if i < STEPS {
        steps[i]
    } else {
        Step::OfClaim(Claim::Instance)
    }
}

// When the query that is held at a place is answered.
fn hold_due(place: Place, progress: Progress) -> Option<u64>
    ensures { result ≡ hold_due place progress }
{
    hold_at(place, progress.holds).due
}

// When a step is due.
pub fn step_due(s: Step, progress: Progress) -> Option<u64>
    ensures { result ≡ step_due s progress }
{
    match s {
        Step::OfClaim(claim) => due_of(claim_of(claim, progress)),
        Step::PtrReply => progress.reply,
        Step::OfHold(place) => hold_due(place, progress),
    }
}

// Is any step due?
fn more_due(progress: Progress, now: u64) -> bool
    ensures { result ≡ more_due progress now }
{
    for i in 0..STEPS {
        if has_come(step_due(step_at(i), progress), now) {
            return true;
        }
    }
    false
}

// What the step of a claim does whose step is due.
fn taken_action(c: ClaimState, now: u64) -> Action
    ensures { result ≡ taken_action c now }
{
    let next = after(now, PROBE_GAP);
    match c {
        ClaimState::Waiting(_) | ClaimState::Deferred(_) => {
            Action::Probe(ClaimState::Probing1(next))
        }
        ClaimState::Probing1(_) => Action::Probe(ClaimState::Probing2(next)),
        ClaimState::Probing2(_) => Action::Probe(ClaimState::Probing3(next)),
        ClaimState::Probing3(_) => {
            Action::Announce(ClaimState::Announced(after(now, ANNOUNCEMENT_GAP)))
        }
        ClaimState::Announced(_) => Action::Repeat(ClaimState::Held),
        ClaimState::Held | ClaimState::Lost => Action::Idle,
    }
}

fn claim_action(c: ClaimState, now: u64) -> Action
    ensures { result ≡ action_of c now }
{
    if has_come(due_of(c), now) {
        taken_action(c, now)
    } else {
        Action::Idle
    }
}

// Is a record wanted, and not multicast too short a time ago?
fn is_unsent(wanted: bool, last: Option<u64>, now: u64) -> bool
    ensures { result ≡ unsent wanted last now }
{
    wanted && !was_recent(last, now, MULTICAST_GAP)
}

fn unsent_of(set: Set, sent: Multicasts, now: u64) -> Set
    ensures { result ≡ unsent_of set sent now }
{
    Set::of(|o| is_unsent(is_in(o, set), sent_of(o, sent), now))
}

fn with_claim(claim: Claim, c: ClaimState, progress: Progress) -> Progress
    ensures { result ≡ with_claim claim c progress }
{
    match claim {
        Claim::Instance => Progress {
            instance: c,
            ..progress
        },
        Claim::Host => Progress {
            host: c,
            ..progress
        },
    }
}

fn with_sent(sent: Multicasts, progress: Progress) -> Progress
    ensures { result ≡ with_sent sent progress }
{
    Progress { sent, ..progress }
}

fn without_reply(progress: Progress) -> Progress
    ensures { result ≡ without_reply progress }
{
    Progress {
        reply: None,
        ..progress
    }
}

// The records of a set go out, if there are any.
fn send(set: Set, now: u64, progress: Progress) -> Turn
    ensures { result ≡ sends set now progress }
{
    if is_any(set) {
        Turn {
            progress: with_sent(mark_all(set, progress.sent, now), progress),
            output: Output::Response(set),
        }
    } else {
        Turn {
            progress,
            output: Output::Nothing,
        }
    }
}

fn action_turn(a: Action, claim: Claim, aaaa: bool, now: u64, progress: Progress) -> Turn
    ensures { result ≡ action_turn a claim aaaa now progress }
{
    match a {
        Action::Idle => Turn {
            progress,
            output: Output::Nothing,
        },
        Action::Probe(c) => Turn {
            progress: with_claim(claim, c, progress),
            output: Output::Probe(claim),
        },
        Action::Announce(c) => send(records_of(claim, aaaa), now, with_claim(claim, c, progress)),
        Action::Repeat(c) => send(
            unsent_of(records_of(claim, aaaa), progress.sent, now),
            now,
            with_claim(claim, c, progress),
        ),
    }
}

// The step of a claim, if one is due.
fn claim_turn(claim: Claim, aaaa: bool, now: u64, progress: Progress) -> Turn
    ensures { result ≡ claim_turn claim aaaa now progress }
{
    let a = claim_action(claim_of(claim, progress), now);
    action_turn(a, claim, aaaa, now, progress)
}

// What the step of the PTR reply sends.
fn ptr_reply(now: u64, progress: Progress) -> Set
    ensures { result ≡ ptr_reply now progress }
{
    if is_held(progress.instance) {
        unsent_of(only(Own::Ptr), progress.sent, now)
    } else {
        no_record()
    }
}

// The step of the PTR reply, if it is due.
fn reply_turn(now: u64, progress: Progress) -> Turn
    ensures { result ≡ reply_turn now progress }
{
    if has_come(progress.reply, now) {
        send(ptr_reply(now, progress), now, without_reply(progress))
    } else {
        Turn {
            progress,
            output: Output::Nothing,
        }
    }
}

// The progress without the query that is held at a place.
fn without_hold(place: Place, progress: Progress) -> Progress
    ensures { result ≡ without_hold place progress }
{
    Progress {
        holds: with_hold(place, no_hold(), progress.holds),
        ..progress
    }
}

// The records that the step of a held query sends.
fn hold_answers(place: Place, aaaa: bool, now: u64, progress: Progress) -> Set
    ensures { result ≡ hold_answers place aaaa now progress }
{
    let h = hold_at(place, progress.holds);
    wanted(progress, asks_of_hold(h), now, aaaa)
}

// The step of the query that is held at a place, if one is and it is due.
fn hold_turn(place: Place, aaaa: bool, now: u64, progress: Progress) -> Turn
    ensures { result ≡ hold_turn place aaaa now progress }
{
    if has_come(hold_due(place, progress), now) {
        send(
            hold_answers(place, aaaa, now, progress),
            now,
            without_hold(place, progress),
        )
    } else {
        Turn {
            progress,
            output: Output::Nothing,
        }
    }
}

// A step, if it is due.
// A match, and no closures: the definitions step_turn and walked go by the three kinds.
fn step_turn(s: Step, aaaa: bool, now: u64, progress: Progress) -> Turn
    ensures { result ≡ step_turn s aaaa now progress }
{
    match s {
        Step::OfClaim(claim) => claim_turn(claim, aaaa, now, progress),
        Step::PtrReply => reply_turn(now, progress),
        Step::OfHold(place) => hold_turn(place, aaaa, now, progress),
    }
}

// The steps in their order: one with nothing to send is taken and passed, the first that sends ends the walk.
fn walk_steps(aaaa: bool, now: u64, progress: Progress) -> Turn
    ensures { result ≡ walked steps.steps aaaa now progress }
{
    let mut here = progress;
    for i in 0..STEPS {
        let t = step_turn(step_at(i), aaaa, now, here);
        match t.output {
            Output::Nothing => here = t.progress,
            Output::Probe(_) | Output::Response(_) => return t,
        }
    }
    Turn {
        progress: here,
        output: Output::Nothing,
    }
}

fn ended(t: Turn, now: u64) -> Ticked
    ensures { result ≡ ended_of t now }
{
    Ticked {
        progress: Progress {
            last: now,
            ..t.progress
        },
        output: t.output,
        more: more_due(t.progress, now),
    }
}

// The due steps, up to the first that sends. `aaaa` says whether there is an AAAA record.
pub fn tick(progress: Progress, now: u64, aaaa: bool) -> Ticked
    ensures { result ≡ tick_of progress now aaaa }
{
    ended(walk_steps(aaaa, now, progress), now)
}
