// Reads a message into facts (specification, 'A claim's life' and 'Which answers go out'): which own records are asked for and which are known, whether it
// is a probe and whose records are later, and whether it conflicts. A section of any layout is walked as far as it is well formed; of a layout that
// `wire::message::read_message` gave that is the message that was read.
#![tactic(auto)]

mod chains;
pub mod probe;
pub mod tiebreak;

ghost use Rattle.std.specs.Prelude.{◌≡◌, Bool, true, false, cond, ◌&&◌, ◌||◌, List, ℕ, ◌≤◌};
ghost use Rattle.wire.specs.names.Names.{name, name_at};
ghost use Rattle.wire.specs.names.Answers.{name_is};
ghost use Rattle.wire.specs.Lists.{some};
ghost use Rattle.wire.specs.message.Message.{Question, Record, all_records, top_bit};
ghost use Rattle.wire.specs.message.Layout.{record_at};
ghost use Rattle.wire.specs.message.Readable.{readable, message_in, question_shown, record_shown};
ghost use Rattle.claims.specs.records.Own.{own_type, has, each};
ghost use Rattle.own.specs.records.Records.{has_record};
ghost use Rattle.facts.specs.Questions.{takes_in, asks_by, is_qm, is_qu};
ghost use Rattle.facts.specs.Found.{QuestionFound, RecordFound, RecordPassed, LongIfKnown};
ghost use Rattle.facts.specs.chains.Chains.{Ends, Whole, WholeLayout, Walkable};
ghost use Rattle.facts.specs.tiebreak.Later.{is_later};
ghost use Rattle.facts.specs.Types.{can_conflict, some_type, may_conflict, some_of, Passed};
ghost use Rattle.facts.specs.Facts.{type_asks, asks_own, asked_with, is_asked_as, suppresses, is_known, conflicts, conflicted, theirs_later};
ghost use Rattle.facts.specs.Facts.{response_to, query_to};
ghost use Rattle.facts.specs.Facts.{is_truncated, facts_of};

use claims::answers::{Facts, Heard};
use claims::records::{Claim, Own, RECORDS, Set};
use own::records::Setup;
use std::cmp::Ordering;
use wire::message::{Layout, QuestionAt, RecordAt, Section};
use wire::rdata::part;

// The own records that QM questions ask for, and those that QU questions do, which want the answer by unicast.
#[derive(Clone, Copy)]
pub struct AskedFor {
    pub qm: Set,
    pub qu: Set,
}

// Own records are of class 1.
const INTERNET: u16 = 1;

// The type and the class that ask for all.
const ANY: u16 = 255;

// Whether a type or class that is asked for takes in another.
fn takes_in(asked: u16, own: u16) -> bool
    ensures { result ≡ takes_in asked own }
{
    asked == own || asked == ANY
}

// Whether the name at an offset is an own one. Where its length is known, and not 0, the lengths are compared before any pointer is followed.
fn is_named(p: &[u8], ends: &[u16], at: usize, len: usize, own: &[u8]) -> bool
    requires ends { Ends p.now ends.now }
    requires long_if_known { LongIfKnown p.now at len }
    ensures { result ≡ name_is p.now at own.now }
{
    if len != 0 && len != own.len() {
        return false;
    }
    crate::chains::name_by(p, ends, at, own)
}

// Whether a question asks for what a name has, where its type takes that in or not.
fn asks(p: &[u8], ends: &[u16], q: QuestionAt, name: &[u8], takes: bool) -> bool
    requires ends { Ends p.now ends.now }
    requires question_found { QuestionFound p.now q }
    ensures { result ≡ asks_by name.now takes (question_shown p.now q) }
{
    takes && takes_in(q.class % 32768, INTERNET) && is_named(p, ends, q.name, q.span.len, name)
}

// Whether a type asks for an own record that is there.
fn takes_own(setup: Setup, o: Own, rtype: u16) -> bool
    ensures { result ≡ has_record setup o && takes_in rtype (own_type o) }
{
    own::records::has_record(setup, o) && takes_in(rtype, claims::records::own_type(o))
}

// Whether a type asks for an own record; an NSEC is asked for by a type that asks for none of its claim's records.
#[tactic(auto, unfolding(wire::specs::Lists::some))]
fn type_asks(setup: Setup, o: Own, rtype: u16) -> bool
    ensures { result ≡ type_asks setup o rtype }
{
    if claims::records::carries_data(o) {
        return takes_in(rtype, claims::records::own_type(o));
    }
    let claim = claims::records::claim_for(o);
    !takes_own(setup, claims::records::first_of(claim), rtype)
        && !takes_own(setup, claims::records::second_of(claim), rtype)
}

// Whether an own record is among those asked for before, or a question asks for it.
fn is_asked(p: &[u8], ends: &[u16], q: QuestionAt, setup: Setup, asked: Set, o: Own) -> bool
    requires ends { Ends p.now ends.now }
    requires question_found { QuestionFound p.now q }
    ensures { result ≡ has o asked || asks_own setup o (question_shown p.now q) }
{
    if claims::records::is_in(o, asked) {
        return true;
    }
    let takes = type_asks(setup, o, q.rtype);
    if !takes {
        return false;
    }
    let own = own::records::own_name(setup, o);
    asks(p, ends, q, part(&own.bytes, 0, own.len), takes)
}

// The own records asked for before, and those that a question asks for.
// By an array of flags: Set::of, which calls a closure, has a `requires`, and so is no public function.
fn asked_with(p: &[u8], ends: &[u16], q: QuestionAt, setup: Setup, asked: Set) -> Set
    requires ends { Ends p.now ends.now }
    requires question_found { QuestionFound p.now q }
    ensures { result ≡ asked_with setup (question_shown p.now q) asked }
{
    let mut flags = [false; RECORDS];
    for i in 0..RECORDS {
        flags[i] = is_asked(p, ends, q, setup, asked, claims::records::record_at(i));
    }
    claims::records::set_of(flags)
}

// Whether the top bit of a class is set: in a question, that the answer is wanted by unicast.
fn is_qu(class: u16) -> bool
    ensures { result ≡ top_bit class }
{
    32768 <= class
}

// The own records asked for before by questions of each kind, and those that a question asks for.
fn asked_too(p: &[u8], ends: &[u16], q: QuestionAt, setup: Setup, asked: AskedFor) -> AskedFor
    requires ends { Ends p.now ends.now }
    requires question_found { QuestionFound p.now q }
    ensures { (let shown : Question = question_shown p.now q in
        let by : Set → Set = asked_with setup shown in
        result ≡ record { qm = cond (is_qm shown) (by asked.qm) asked.qm; qu = cond (is_qu shown) (by asked.qu) asked.qu }) }
{
    if is_qu(q.class) {
        AskedFor {
            qu: asked_with(p, ends, q, setup, asked.qu),
            ..asked
        }
    } else {
        AskedFor {
            qm: asked_with(p, ends, q, setup, asked.qm),
            ..asked
        }
    }
}

// The own records that the questions ask for, by the kind of question, in one pass over them.
fn asked_for(p: &[u8], ends: &[u16], l: Layout, setup: Setup) -> AskedFor
    requires { Walkable p.now ends.now l }
    ensures qm_value { result.qm ≡ each (λ o. is_asked_as is_qm setup o (message_in p.now l)) }
    ensures qu_value { result.qu ≡ each (λ o. is_asked_as is_qu setup o (message_in p.now l)) }
{
    let s = l.questions;
    let none = claims::records::no_record();
    let mut asked = AskedFor { qm: none, qu: none };
    let mut here = s.at;
    for _read in 0..s.count {
        let Some(q) = crate::chains::question_step(p, ends, here) else {
            return asked;
        };
        asked = asked_too(p, ends, q, setup, asked);
        here = q.next;
    }
    asked
}

// Whether a record suppresses an own one: equal name, class, type and rdata, and twice its TTL at least the own TTL.
fn suppresses(
    p: &[u8],
    ends: &[u16],
    f: RecordAt,
    name: &[u8],
    rtype: u16,
    own: &[u8],
    ttl: u32,
) -> bool
    requires ends { Ends p.now ends.now }
    requires record_found { RecordFound p.now f }
    ensures { result ≡ suppresses name.now rtype own.now ttl (record_shown p.now f) }
{
    f.rtype == rtype
        && f.class % 32768 == INTERNET
        && ttl as u64 <= 2 * f.ttl as u64
        && is_named(p, ends, f.owner, f.span.len, name)
        && wire::expansion::rdata_is(p, f, own)
}

// The own records that the answers know: each own record against each answer, left at the first that suppresses it. An own record whose type none may have is
// not looked for.
fn known_in(p: &[u8], ends: &[u16], l: Layout, setup: Setup) -> Set
    requires { Walkable p.now ends.now l }
    ensures { result ≡ each (λ o. is_known setup o (message_in p.now l)) }
{
    let s = l.answers;
    let mut known = [false; RECORDS];
    'own: for i in 0..RECORDS {
        let o = claims::records::record_at(i);
        let rtype = claims::records::own_type(o);
        if !has_type(p, s, rtype) {
            continue;
        }
        let name = own::records::own_name(setup, o);
        let data = own::records::own_rdata(setup, o);
        let ttl = claims::records::own_ttl(o);
        let mut here = s.at;
        for _read in 0..s.count {
            let Some(f) = crate::chains::record_step(p, ends, here) else {
                continue 'own;
            };
            if suppresses(
                p,
                ends,
                f,
                part(&name.bytes, 0, name.len),
                rtype,
                part(&data.bytes, 0, data.len),
                ttl,
            ) {
                known[i] = true;
                continue 'own;
            }
            here = f.next;
        }
    }
    claims::records::set_of(known)
}

// The same; without an Answer record none is known.
fn known_of(p: &[u8], ends: &[u16], l: Layout, setup: Setup) -> Set
    requires { Walkable p.now ends.now l }
    ensures { result ≡ each (λ o. is_known setup o (message_in p.now l)) }
{
    if l.answers.count == 0 {
        return claims::records::no_record();
    }
    known_in(p, ends, l, setup)
}

// Whether a record conflicts with an own one: equal name, class 1 and type, a TTL that is not 0, and other rdata.
// Not one with suppresses: the tests that cost least come first, and of these the TTL's differs.
fn conflicts(p: &[u8], ends: &[u16], f: RecordAt, name: &[u8], rtype: u16, own: &[u8]) -> bool
    requires ends { Ends p.now ends.now }
    requires record_found { RecordFound p.now f }
    ensures { result ≡ conflicts name.now rtype own.now (record_shown p.now f) }
{
    f.rtype == rtype
        && f.class % 32768 == INTERNET
        && f.ttl != 0
        && is_named(p, ends, f.owner, f.span.len, name)
        && !wire::expansion::rdata_is(p, f, own)
}

// Whether a record of a section passes a test.
fn some_record<F: Fn(RecordAt) -> bool>(p: &[u8], ends: &[u16], s: Section, test: F) -> bool
    requires whole { Whole (record_at p.now) ends.now s.count s.at }
    requires callable { (f : _) → RecordFound p.now f → F.pre test f }
    ensures { RecordPassed (F.post test) p.now s result }
{
    let mut here = s.at;
    for _read in 0..s.count {
        let Some(f) = crate::chains::record_step(p, ends, here) else {
            return false;
        };
        if test(f) {
            return true;
        }
        here = f.next;
    }
    false
}

// Whether a record of a section conflicts with an own one.
fn some_conflicts(p: &[u8], ends: &[u16], s: Section, name: &[u8], rtype: u16, own: &[u8]) -> bool
    requires ends { Ends p.now ends.now }
    requires whole { Whole (record_at p.now) ends.now s.count s.at }
    ensures { (let test : Record → Bool = conflicts name.now rtype own.now in
        result ≡ some test (readable (record_at p.now) s.count s.at)) }
{
    some_record(p, ends, s, |f| conflicts(p, ends, f, name, rtype, own))
}

// Whether a record of any section conflicts with an own one.
#[tactic(auto, using(crate::proofs::Responses::some_append), unfolding(wire::specs::message::Readable::message_in))]
fn conflicts_in(p: &[u8], ends: &[u16], l: Layout, name: &[u8], rtype: u16, own: &[u8]) -> bool
    requires { Walkable p.now ends.now l }
    ensures { (let test : Record → Bool = conflicts name.now rtype own.now in
        result ≡ some test (all_records (message_in p.now l))) }
{
    some_conflicts(p, ends, l.answers, name, rtype, own)
        || some_conflicts(p, ends, l.authorities, name, rtype, own)
        || some_conflicts(p, ends, l.additionals, name, rtype, own)
}

// Whether a record of a message conflicts with an own record that the set-up has.
#[tactic(auto, unfolding(crate::specs::Facts::conflicted))]
fn has_conflict(p: &[u8], ends: &[u16], l: Layout, setup: Setup, o: Own) -> bool
    requires { Walkable p.now ends.now l }
    ensures { result ≡ conflicted setup o (message_in p.now l) }
{
    if !own::records::has_record(setup, o) {
        return false;
    }
    let name = own::records::own_name(setup, o);
    let data = own::records::own_rdata(setup, o);
    conflicts_in(
        p,
        ends,
        l,
        part(&name.bytes, 0, name.len),
        claims::records::own_type(o),
        part(&data.bytes, 0, data.len),
    )
}

// Whether a type is that of a claimed record: A, TXT, AAAA or SRV.
#[tactic(auto, unfolding(crate::specs::Types::can_conflict))]
fn can_conflict(rtype: u16) -> bool
    ensures { result ≡ can_conflict rtype }
{
    rtype == 1 || rtype == 16 || rtype == 28 || rtype == 33
}

// Where the name at an offset ends in place, if it is well formed: no pointer is followed.
fn past_labels(p: &[u8], at: usize) -> usize
    ensures { (bs : List ℕ) (e : ℕ) → name_at p.now at ≡ name bs e → result ≡ e }
{
    // by strides of a label each, so that no `for` fits
    let mut here = at;
    while here < p.len() {
        let n = p[here] as usize;
        if n == 0 {
            return here + 1;
        }
        if 192 <= n {
            return here + 2;
        }
        here = here + 1 + n;
    }
    here
}

// Whether a record of a section may have a type that passes a test, by steps from record to record that follow no pointer and leave rdata unread.
fn some_passes<F: Fn(u16) -> bool>(p: &[u8], s: Section, test: F) -> bool
    requires { F.IsAlwaysCallable test }
    ensures { Passed (F.post test) p.now s result }
{
    let mut here = s.at;
    for _seen in 0..s.count {
        let end = past_labels(p, here);
        if p.len() < end || p.len() - end < 10 {
            return false;
        }
        if test(wire::octets::be16(p, end)) {
            return true;
        }
        here = end + 10 + wire::octets::be16(p, end + 8) as usize;
    }
    false
}

// Whether a record of a section may have the type of a claimed record.
fn some_type(p: &[u8], s: Section) -> bool
    ensures { result ≡ false → some_type p.now s ≡ false }
{
    some_passes(p, s, |rtype| can_conflict(rtype))
}

// Whether a record of a section may have a type.
fn has_type(p: &[u8], s: Section, rtype: u16) -> bool
    ensures { result ≡ false → some_of rtype p.now s ≡ false }
{
    some_passes(p, s, |other| other == rtype)
}

// Whether a record of any section may have such a type. Where none has, there is no conflict.
#[tactic(auto, unfolding(crate::specs::Types::may_conflict))]
fn may_conflict(p: &[u8], l: Layout) -> bool
    ensures { result ≡ false → may_conflict p.now l ≡ false }
{
    some_type(p, l.answers) || some_type(p, l.authorities) || some_type(p, l.additionals)
}

// Whether a message is a response of which no record can conflict.
fn is_quiet(p: &[u8], l: Layout) -> bool
    ensures { result ≡ true → (32768 ≤ l.flags) × (may_conflict p.now l ≡ false) }
{
    32768 <= l.flags && !may_conflict(p, l)
}

// What a response says to a claim.
#[tactic(auto, unfolding(wire::specs::Lists::some))]
fn response_to(p: &[u8], ends: &[u16], l: Layout, setup: Setup, claim: Claim) -> Heard
    requires { Walkable p.now ends.now l }
    ensures { result ≡ response_to setup claim (message_in p.now l) }
{
    Heard {
        probe: false,
        later: false,
        conflict: has_conflict(p, ends, l, setup, claims::records::first_of(claim))
            || has_conflict(p, ends, l, setup, claims::records::second_of(claim)),
    }
}

// Whether a verdict says that theirs is later.
fn is_later(v: Ordering) -> bool
    ensures { result ≡ is_later v }
{
    v.is_gt()
}

// Whether the records of a message under the name of a claim are later than its own.
fn theirs_later(p: &[u8], ends: &[u16], l: Layout, setup: Setup, claim: Claim) -> bool
    requires { Walkable p.now ends.now l }
    ensures { result ≡ theirs_later setup claim (message_in p.now l) }
{
    let first = claims::records::first_of(claim);
    let second = claims::records::second_of(claim);
    let name = own::records::own_name(setup, first);
    let one = own::records::own_rdata(setup, first);
    let two = own::records::own_rdata(setup, second);
    let own = crate::tiebreak::OwnTypes {
        first: claims::records::own_type(first),
        second: own::records::has_record(setup, second).then_some(claims::records::own_type(
            second,
        )),
    };
    is_later(crate::tiebreak::tie_by(
        p,
        ends,
        l,
        part(&name.bytes, 0, name.len),
        own,
        part(&one.bytes, 0, one.len),
        part(&two.bytes, 0, two.len),
    ))
}

// What a query says to a claim.
fn query_to(p: &[u8], ends: &[u16], l: Layout, setup: Setup, claim: Claim) -> Heard
    requires { Walkable p.now ends.now l }
    ensures { result ≡ query_to setup claim (message_in p.now l) }
{
    let name = own::records::own_name(setup, claims::records::first_of(claim));
    Heard {
        probe: crate::probe::probe_by(p, ends, l, part(&name.bytes, 0, name.len)),
        later: theirs_later(p, ends, l, setup, claim),
        conflict: false,
    }
}

// The same; without an Authority record it is no probe, and nothing is later.
fn heard_in(p: &[u8], ends: &[u16], l: Layout, setup: Setup, claim: Claim) -> Heard
    requires { Walkable p.now ends.now l }
    ensures { result ≡ query_to setup claim (message_in p.now l) }
{
    if l.authorities.count == 0 {
        return Heard {
            probe: false,
            later: false,
            conflict: false,
        };
    }
    query_to(p, ends, l, setup, claim)
}

// Whether the TC bit of a header's flags is set: more known answers follow.
fn is_truncated(flags: u16) -> bool
    ensures { result ≡ is_truncated flags }
{
    flags / 512 % 2 == 1
}

// What the message that a layout shows says to a responder of this set-up, a response that may conflict or a query.
fn facts_by(p: &[u8], ends: &[u16], l: Layout, setup: Setup) -> Facts
    requires { Walkable p.now ends.now l }
    ensures { result ≡ facts_of setup (message_in p.now l) }
{
    if 32768 <= l.flags {
        return Facts {
            response: true,
            truncated: false,
            asked: claims::records::no_record(),
            qm: claims::records::no_record(),
            known: claims::records::no_record(),
            instance: response_to(p, ends, l, setup, Claim::Instance),
            host: response_to(p, ends, l, setup, Claim::Host),
        };
    }
    let asked = asked_for(p, ends, l, setup);
    Facts {
        response: false,
        truncated: is_truncated(l.flags),
        asked: claims::holds::union(asked.qm, asked.qu),
        qm: asked.qm,
        known: known_of(p, ends, l, setup),
        instance: heard_in(p, ends, l, setup, Claim::Instance),
        host: heard_in(p, ends, l, setup, Claim::Host),
    }
}

// The same of a message that was read: where its chains of pointers end is noted first.
fn noted_facts(p: &[u8], l: Layout, setup: Setup) -> Facts
    requires { WholeLayout p.now l }
    ensures { result ≡ facts_of setup (message_in p.now l) }
{
    let mut ends = [0u16; 8972];
    crate::chains::note_ends(p, &mut ends);
    facts_by(p, &ends, l, setup)
}

// What the message that a layout shows says to a responder of this set-up. A message that is longer than a frame, and was read, is walked with notes.
pub fn facts(p: &[u8], l: Layout, setup: Setup) -> Facts
    ensures { result ≡ facts_of setup (message_in p.now l) }
{
    if is_quiet(p, l) {
        return Facts {
            response: true,
            truncated: false,
            asked: claims::records::no_record(),
            qm: claims::records::no_record(),
            known: claims::records::no_record(),
            instance: Heard {
                probe: false,
                later: false,
                conflict: false,
            },
            host: Heard {
                probe: false,
                later: false,
                conflict: false,
            },
        };
    }
    if wire::message::MOST_IN_FRAME < p.len() && crate::chains::is_read(p, l) {
        return noted_facts(p, l, setup);
    }
    let none = [0u16; 1];
    facts_by(p, &none[..0], l, setup)
}
