// The order of record lists and the tiebreak (specification, 'A claim's life', "Later: .."; RFC 6762, 8.2): how a message's Authority records under a name
// stand to the own records of the claim to it. Nothing is copied and sorted: for each own record one pass counts the records that stand before it
// and those that equal it, and the counts decide. Whether the message is a probe is in the module `probe`.
ghost use Rattle.std.specs.Prelude.{◌≡◌, Bool, true, false, List, [], ◌∷◌, ◌<◌};
ghost use Rattle.wire.specs.rdata.Rdata.{rdata_at};
ghost use Rattle.wire.specs.rdata.Answers.{fits};
ghost use Rattle.wire.specs.names.Answers.{name_is};
ghost use Rattle.wire.specs.message.Readable.{message_in, record_shown};
ghost use Rattle.wire.specs.message.Layout.{record_at};
ghost use Rattle.facts.specs.Found.{RecordFound};
ghost use Rattle.facts.specs.chains.Chains.{Ends, Whole, Walkable};
ghost use Rattle.facts.specs.tiebreak.Later.{TieRecord, number_of, is_later, compare_bytes, compare_records, tie};
ghost use Rattle.facts.specs.tiebreak.Lists.{tie_record, list_in, own_record, own_records, theirs};
ghost use Rattle.facts.specs.tiebreak.Counts.{count_one, count_met, count_all, none_counted, placed, beyond};

use std::cmp::Ordering;
use wire::message::{Layout, RecordAt, Section};

// Of the records of a list: how many there are, how many stand earlier than an own record, and how many equal it.
#[derive(Clone, Copy)]
struct Counts {
    all: u16,
    earlier: u16,
    same: u16,
}

// How bytes compare, each as 0..255; the longer of two equal beginnings is later.
#[tactic(auto, using(crate::proofs::tiebreak::Orders::bytes_in_turn))]
fn compare_bytes(a: &[u8], b: &[u8]) -> Ordering
    ensures { result ≡ compare_bytes a.now b.now }
{
    a.cmp(b)
}

// How two records compare: by class, type, rdata bytes.
fn compare_records(
    class: u16,
    rtype: u16,
    rdata: &[u8],
    class2: u16,
    rtype2: u16,
    rdata2: &[u8],
) -> Ordering
    ensures { (let a : TieRecord = record { class = class; rtype = rtype; rdata = rdata.now } in
        let b : TieRecord = record { class = class2; rtype = rtype2; rdata = rdata2.now } in
        result ≡ compare_records a b) }
{
    class
        .cmp(&class2)
        .then(rtype.cmp(&rtype2))
        .then_with(|| compare_bytes(rdata, rdata2))
}

// How a record of the packet compares with an own one.
fn compare_with_own(p: &[u8], f: RecordAt, rtype: u16, own: &[u8]) -> Ordering
    requires { fits (rdata_at p.now f) ≡ true }
    ensures { result ≡ compare_records (tie_record (record_shown p.now f)) (own_record rtype own.now) }
{
    let o = wire::expansion::open(p, f);
    let b = o.bytes;
    let n = o.len;
    let seen = wire::expansion::view(p, &b, n, f);
    let class = f.class % 32768;
    compare_records(class, f.rtype, seen, crate::INTERNET, rtype, own)
}

// Counts with one record more, which compares so with the own one.
fn count_one(v: Ordering, c: Counts) -> Counts
    requires { (c.all < 65535) × (c.earlier < 65535) × (c.same < 65535) }
    ensures { result ≡ count_one v c }
{
    match v {
        Ordering::Less => Counts {
            all: c.all + 1,
            earlier: c.earlier + 1,
            ..c
        },
        Ordering::Equal => Counts {
            all: c.all + 1,
            same: c.same + 1,
            ..c
        },
        Ordering::Greater => Counts {
            all: c.all + 1,
            ..c
        },
    }
}

// Counts with a record of the packet counted, if it is under the name.
fn count_met(
    p: &[u8],
    ends: &[u16],
    f: RecordAt,
    name: &[u8],
    rtype: u16,
    own: &[u8],
    c: Counts,
) -> Counts
    requires ends { Ends p.now ends.now }
    requires record_found { RecordFound p.now f }
    requires all_bound { (c.all < 65535) × (c.earlier < 65535) × (c.same < 65535) }
    ensures { (let is_under : Bool = name_is p.now f.owner name.now in
        result ≡ count_met is_under (tie_record (record_shown p.now f)) (own_record rtype own.now) c) }
{
    if crate::is_named(p, ends, f.owner, f.span.len, name) {
        return count_one(compare_with_own(p, f, rtype, own), c);
    }
    c
}

// Counts of the records of a section that are under a name, against an own record.
fn count_under(p: &[u8], ends: &[u16], s: Section, name: &[u8], rtype: u16, own: &[u8]) -> Counts
    requires ends { Ends p.now ends.now }
    requires whole { Whole (record_at p.now) ends.now s.count s.at }
    ensures { result ≡ count_all (own_record rtype own.now) (list_in name.now p.now s) none_counted }
{
    let mut c = Counts {
        all: 0,
        earlier: 0,
        same: 0,
    };
    let mut here = s.at;
    for _read in 0..s.count {
        let Some(f) = crate::chains::record_step(p, ends, here) else {
            return c;
        };
        c = count_met(p, ends, f, name, rtype, own, c);
        here = f.next;
    }
    c
}

// How the record at place `k` of the sorted list compares with the own record that was counted against; a list that has run out is earlier.
#[tactic(auto, unfolding(crate::specs::tiebreak::Counts::placed))]
fn place(k: u16, c: Counts) -> Ordering
    ensures { result ≡ placed k c }
{
    if k < c.earlier {
        Ordering::Less
    } else if k - c.earlier < c.same {
        Ordering::Equal
    } else if k < c.all {
        Ordering::Greater
    } else {
        Ordering::Less
    }
}

// How the lists compare where the own one has run out after `k` records that were the same.
#[tactic(auto, unfolding(crate::specs::tiebreak::Counts::beyond))]
fn past_own(k: u16, c: Counts) -> Ordering
    ensures { result ≡ beyond k c }
{
    if k < c.all {
        Ordering::Greater
    } else {
        Ordering::Equal
    }
}

// The tiebreak with an own list of one record.
fn against_one(p: &[u8], ends: &[u16], s: Section, name: &[u8], rtype: u16, own: &[u8]) -> Ordering
    requires ends { Ends p.now ends.now }
    requires whole { Whole (record_at p.now) ends.now s.count s.at }
    ensures { result ≡ tie (list_in name.now p.now s) (own_record rtype own.now ∷ []) }
{
    let c = count_under(p, ends, s, name, rtype, own);
    place(0, c).then(past_own(1, c))
}

// The tiebreak with an own list of two records, the second not earlier than the first.
fn against_two(
    p: &[u8],
    ends: &[u16],
    s: Section,
    name: &[u8],
    rtype: u16,
    own: &[u8],
    rtype2: u16,
    own2: &[u8],
) -> Ordering
    requires ends { Ends p.now ends.now }
    requires whole { Whole (record_at p.now) ends.now s.count s.at }
    requires own2_value { is_later (compare_records (own_record rtype own.now) (own_record rtype2 own2.now)) ≡ false }
    ensures { (let mine : List TieRecord = own_record rtype own.now ∷ (own_record rtype2 own2.now ∷ []) in
        result ≡ tie (list_in name.now p.now s) mine) }
{
    let c = count_under(p, ends, s, name, rtype, own);
    let first = place(0, c);
    if first.is_ne() {
        return first;
    }
    let d = count_under(p, ends, s, name, rtype2, own2);
    place(1, d).then(past_own(2, d))
}

// The types of a claim's own records: of the first, and of the second where there is one.
#[derive(Clone, Copy)]
pub struct OwnTypes {
    pub first: u16,
    pub second: Option<u16>,
}

// The tiebreak: how the message's Authority records under a name stand to the own records of the claim to it. `first` and `second` are the own
// rdata, names expanded; the second is not looked at where there is none.
pub(crate) fn tie_by(
    p: &[u8],
    ends: &[u16],
    l: Layout,
    name: &[u8],
    own: OwnTypes,
    first: &[u8],
    second: &[u8],
) -> Ordering
    requires { Walkable p.now ends.now l }
    ensures { (let mine : List TieRecord = own_records own first.now second.now in
        result ≡ tie (theirs name.now (message_in p.now l)) mine) }
{
    let s = l.authorities;
    let a = own.first;
    let Some(b) = own.second else {
        return against_one(p, ends, s, name, a, first);
    };
    if compare_records(crate::INTERNET, a, first, crate::INTERNET, b, second).is_gt() {
        against_two(p, ends, s, name, b, second, a, first)
    } else {
        against_two(p, ends, s, name, a, first, b, second)
    }
}

// The same, of any layout.
pub fn tiebreak(
    p: &[u8],
    l: Layout,
    name: &[u8],
    own: OwnTypes,
    first: &[u8],
    second: &[u8],
) -> Ordering
    ensures verdict { (let mine : List TieRecord = own_records own first.now second.now in
        result ≡ tie (theirs name.now (message_in p.now l)) mine) }
    ensures number { (let mine : List TieRecord = own_records own first.now second.now in
        number_of result ≡ number_of (tie (theirs name.now (message_in p.now l)) mine)) }
{
    let none = [0u16; 1];
    tie_by(p, &none[..0], l, name, own, first, second)
}
