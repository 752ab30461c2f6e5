// A packet received, on facts alone (specification, 'A claim's life' and 'Which answers go out'): what a message does to the two claims, and which own
// records go out for it. The crate `facts` reads a message into them, `writer` writes the packet.
ghost use Rattle.std.specs.Prelude.{◌≡◌, cond, not, ◌&&◌};
ghost use Rattle.claims.specs.answers.Answers.{heard_of, asks_of, asks_of_hold, gap_of, gap_for, is_due, is_omitted, is_wanted, wanted_of, set_reply, joined};
ghost use Rattle.claims.specs.answers.Answers.{is_to_asker, asked_by, multicast_asks, unicast_asks, judged_of, due_to, plain_of};
ghost use Rattle.claims.specs.answers.Held.{to_hold, hold_of, held_back, receive_of};

use crate::holds::{Address, Hold, Holds, add, add_known, some_free, some_from};
use crate::records::{Claim, Own, Set, at_once, claim_for, is_in, is_present, no_record, own_ttl};
use crate::{
    ClaimState, MULTICAST_GAP, Progress, after, after_conflict, after_probe, claim_of, is_held,
    mark_all, sent_of, was_recent,
};

// A deferred claim sends its next first probe after 1,000 ms.
const DEFERRAL: u64 = 1000;

// To a probe for its name a claim is defended with a record that was multicast 250 ms ago or more.
const DEFENCE_GAP: u64 = 250;

// A record goes by unicast to one who asks for that where it was multicast less than a quarter of its TTL ago: so many ms for each second of the TTL.
const QUARTER_OF_A_SECOND: u64 = 250;

// What a message says to one claim: it is a probe for its name, that probe's records are later than its own, it has a record that conflicts.
#[derive(Clone, Copy)]
pub struct Heard {
    pub probe: bool,
    pub later: bool,
    pub conflict: bool,
}

// What a message says to the responder: it is a response; more known answers follow it (the TC bit); a question asks for the record, and one without the
// unicast bit does (a QM question); an Answer record is the record, with at least half its TTL; and what it says to each claim. Of a query the conflicts do not
// count, and of a response only they do.
// Flags, and no enum of two kinds: the sets and both claims are read of either.
#[derive(Clone, Copy)]
pub struct Facts {
    pub response: bool,
    pub truncated: bool,
    pub asked: Set,
    pub qm: Set,
    pub known: Set,
    pub instance: Heard,
    pub host: Heard,
}

// What comes with a packet: when and whence it came, and the draws for a PTR reply and for a hold.
#[derive(Clone, Copy)]
pub struct Coming {
    pub now: u64,
    pub from: Address,
    pub draw: u64,
    pub hold: u64,
}

// What a query asks for and knows, and how long ago a record of each claim has to have been multicast.
#[derive(Clone, Copy)]
pub struct Asks {
    pub asked: Set,
    pub known: Set,
    pub instancegap: u64,
    pub hostgap: u64,
}

// A packet received: the progress after it, and the records that go out at once, to all and to its sender alone.
#[derive(Clone, Copy)]
pub struct Received {
    pub progress: Progress,
    pub answers: Set,
    pub unicast: Set,
}

// A claim after a message, where a conflict sends it back to probe at `again`, and a later probe at `deferred`.
fn heard_by(c: ClaimState, response: bool, h: Heard, again: u64, deferred: u64) -> ClaimState
    ensures { result ≡ heard_of c response h again deferred }
{
    if response {
        if h.conflict {
            after_conflict(c, again)
        } else {
            c
        }
    } else if h.probe && h.later {
        after_probe(c, deferred)
    } else {
        c
    }
}

// How long ago a record has to have been multicast, to a probe for its claim or not.
fn gap_of(probe: bool) -> u64
    ensures { result ≡ gap_of probe }
{
    if probe { DEFENCE_GAP } else { MULTICAST_GAP }
}

// What a message asks for and knows: a response asks for nothing.
fn asks_of(f: Facts) -> Asks
    ensures { result ≡ asks_of f }
{
    Asks {
        asked: if f.response { no_record() } else { f.asked },
        known: f.known,
        instancegap: gap_of(f.instance.probe),
        hostgap: gap_of(f.host.probe),
    }
}

// What a held query asks for and knows.
pub fn asks_of_hold(h: Hold) -> Asks
    ensures { result ≡ asks_of_hold h }
{
    Asks {
        asked: h.asked,
        known: h.known,
        instancegap: MULTICAST_GAP,
        hostgap: MULTICAST_GAP,
    }
}

fn gap_for(claim: Claim, q: Asks) -> u64
    ensures { result ≡ gap_for claim q }
{
    match claim {
        Claim::Instance => q.instancegap,
        Claim::Host => q.hostgap,
    }
}

// Is a record due? `aaaa` says whether there is an AAAA record.
fn is_due(progress: Progress, q: Asks, aaaa: bool, o: Own) -> bool
    ensures { result ≡ is_due progress q aaaa o }
{
    is_held(claim_of(claim_for(o), progress)) && is_present(o, aaaa) && is_in(o, q.asked)
}

// Is a record left out if it is due?
fn is_omitted(progress: Progress, q: Asks, now: u64, o: Own) -> bool
    ensures { result ≡ is_omitted progress q now o }
{
    let gap = gap_for(claim_for(o), q);
    is_in(o, q.known) || was_recent(sent_of(o, progress.sent), now, gap)
}

// Is a record due and not left out?
fn is_wanted(progress: Progress, q: Asks, now: u64, aaaa: bool, o: Own) -> bool
    ensures { result ≡ is_wanted progress q now aaaa o }
{
    is_due(progress, q, aaaa, o) && !is_omitted(progress, q, now, o)
}

// The own records that are due and not left out.
pub fn wanted(progress: Progress, q: Asks, now: u64, aaaa: bool) -> Set
    ensures { result ≡ wanted_of progress q now aaaa }
{
    Set::of(|o| is_wanted(progress, q, now, aaaa, o))
}

// Does a record that a message asks for go to its sender alone, if it goes at all?
fn is_to_asker(progress: Progress, f: Facts, now: u64, o: Own) -> bool
    ensures { result ≡ is_to_asker progress f now o }
{
    let quarter = QUARTER_OF_A_SECOND * u64::from(own_ttl(o));
    !is_in(o, f.qm) && was_recent(sent_of(o, progress.sent), now, quarter)
}

// Of the records that a message asks for those that go by unicast, if they go at all, or those that go by multicast.
// By a flag, as the definition asked_by has it.
fn asked_by(unicast: bool, progress: Progress, f: Facts, now: u64) -> Set
    ensures { result ≡ asked_by unicast progress f now }
{
    let q = asks_of(f);
    Set::of(|o| is_in(o, q.asked) && is_to_asker(progress, f, now, o) == unicast)
}

// What a message asks of all on the link.
fn multicast_asks(progress: Progress, f: Facts, now: u64) -> Asks
    ensures { result ≡ multicast_asks progress f now }
{
    Asks {
        asked: asked_by(false, progress, f, now),
        known: f.known,
        instancegap: gap_of(f.instance.probe),
        hostgap: gap_of(f.host.probe),
    }
}

// What a message asks for its sender alone: there is no gap.
fn unicast_asks(progress: Progress, f: Facts, now: u64) -> Asks
    ensures { result ≡ unicast_asks progress f now }
{
    Asks {
        asked: asked_by(true, progress, f, now),
        known: f.known,
        instancegap: 0,
        hostgap: 0,
    }
}

// The PTR reply after a message that asks for it or not; a reply that is set stays.
fn set_reply(asks: bool, reply: Option<u64>, due: u64) -> Option<u64>
    ensures { result ≡ set_reply asks reply due }
{
    reply.or(asks.then_some(due))
}

// A packet received that is judged at once: what it does to the claims, and which records go out for it. A query adds its known answers to a held one of its
// address.
fn judge(progress: Progress, c: Coming, f: Facts, aaaa: bool) -> Received
    ensures { result ≡ judged_of progress c f aaaa }
{
    let now = c.now;
    let again = after(now, progress.draw);
    let deferred = after(now, DEFERRAL);
    let go = wanted(progress, multicast_asks(progress, f, now), now, aaaa);
    let answers = at_once(go);
    let unicast = wanted(progress, unicast_asks(progress, f, now), now, aaaa);
    Received {
        progress: Progress {
            instance: heard_by(progress.instance, f.response, f.instance, again, deferred),
            host: heard_by(progress.host, f.response, f.host, again, deferred),
            sent: mark_all(answers, progress.sent, now),
            reply: set_reply(is_in(Own::Ptr, go), progress.reply, after(now, c.draw)),
            holds: join(progress.holds, c, f),
            last: now,
            ..progress
        },
        answers,
        unicast,
    }
}

// The held queries after a message that is judged at once.
fn join(holds: Holds, c: Coming, f: Facts) -> Holds
    ensures { result ≡ joined holds c f }
{
    if f.response {
        holds
    } else {
        add_known(c.from, f.known, holds)
    }
}

// Is a message held? A query with more known answers to follow is, but for a probe, where there is room and none of its address is held.
fn is_to_hold(holds: Holds, c: Coming, f: Facts) -> bool
    ensures { result ≡ to_hold holds c f }
{
    !f.response
        && f.truncated
        && !f.instance.probe
        && !f.host.probe
        && !some_from(c.from, holds)
        && some_free(holds)
}

// What is kept of a query that is held.
fn hold_of(c: Coming, f: Facts) -> Hold
    ensures { result ≡ hold_of c f }
{
    Hold {
        from: c.from,
        due: Some(after(c.now, c.hold)),
        asked: f.asked,
        known: f.known,
    }
}

// A query that is held: nothing goes out, and nothing else changes but the time.
fn hold_back(progress: Progress, c: Coming, f: Facts) -> Received
    ensures { result ≡ held_back progress c f }
{
    Received {
        progress: Progress {
            holds: add(hold_of(c, f), progress.holds),
            last: c.now,
            ..progress
        },
        answers: no_record(),
        unicast: no_record(),
    }
}

// A packet received. It takes no due step.
pub fn receive(progress: Progress, c: Coming, f: Facts, aaaa: bool) -> Received
    ensures { result ≡ receive_of progress c f aaaa }
{
    if is_to_hold(progress.holds, c, f) {
        hold_back(progress, c, f)
    } else {
        judge(progress, c, f, aaaa)
    }
}

// The own records that are due, whatever is known of them or was multicast before.
fn due(progress: Progress, q: Asks, aaaa: bool) -> Set
    ensures { result ≡ due_to progress q aaaa }
{
    Set::of(|o| is_due(progress, q, aaaa, o))
}

// A query received at `now` from a plain resolver, by a port other than 5353: the records that are due, PTR too, go out at once by unicast, and nothing but
// the time of the last call changes.
pub fn plain(progress: Progress, now: u64, f: Facts, aaaa: bool) -> Received
    ensures { result ≡ plain_of progress now f aaaa }
{
    Received {
        progress: Progress {
            last: now,
            ..progress
        },
        answers: no_record(),
        unicast: due(progress, asks_of(f), aaaa),
    }
}
