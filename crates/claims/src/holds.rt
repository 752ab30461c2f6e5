// Held queries (specification, 'Held queries'; RFC 6762, section 7.2): a query whose known answers go on in later packets waits for them. Up to four are kept,
// in the order in which they came, each by the address that it came from.
ghost use Rattle.std.specs.Prelude.{◌≡◌, ◌||◌};
ghost use Rattle.claims.specs.holds.Holds.{is_taken, no_hold, no_holds, hold_at, with_hold, same_address, is_from, some_from, some_free, union, knowing};
ghost use Rattle.claims.specs.holds.Holds.{knowing_all, queued};

use crate::records::{Set, is_in, no_record};

// An address of 16 bytes, as two numbers, the first eight bytes in `high`; an IPv4 address is ::ffff:a.b.c.d.
#[derive(Clone, Copy, PartialEq, Eq)]
pub struct Address {
    pub high: u64,
    pub low: u64,
}

// A held query: whom it came from, when it is answered, and of each own record whether it is asked for and whether the asker knows it. One that is never due
// is none: its place is free.
#[derive(Clone, Copy)]
pub struct Hold {
    pub from: Address,
    pub due: Option<u64>,
    pub asked: Set,
    pub known: Set,
}

// The places of held queries; of two that are taken, the query of the lower came first.
#[derive(Clone, Copy)]
pub enum Place {
    First,
    Second,
    Third,
    Fourth,
}

// The held queries, by their places.
// Four fields, and no array: the definitions Holds, hold_at and queued are over them (R-HOLD-2).
#[derive(Clone, Copy)]
pub struct Holds {
    pub first: Hold,
    pub second: Hold,
    pub third: Hold,
    pub fourth: Hold,
}

// A free place.
pub fn no_hold() -> Hold
    ensures { result ≡ no_hold }
{
    Hold {
        from: Address { high: 0, low: 0 },
        due: None,
        asked: no_record(),
        known: no_record(),
    }
}

// No query is held.
pub fn no_holds() -> Holds
    ensures { result ≡ no_holds }
{
    let none = no_hold();
    Holds {
        first: none,
        second: none,
        third: none,
        fourth: none,
    }
}

// Is a query held there?
pub fn is_taken(h: Hold) -> bool
    ensures { result ≡ is_taken h }
{
    h.due.is_some()
}

// What is held at a place.
pub fn hold_at(place: Place, holds: Holds) -> Hold
    ensures { result ≡ hold_at place holds }
{
    match place {
        Place::First => holds.first,
        Place::Second => holds.second,
        Place::Third => holds.third,
        Place::Fourth => holds.fourth,
    }
}

// The held queries with another at one place.
pub fn with_hold(place: Place, h: Hold, holds: Holds) -> Holds
    ensures { result ≡ with_hold place h holds }
{
    match place {
        Place::First => Holds { first: h, ..holds },
        Place::Second => Holds { second: h, ..holds },
        Place::Third => Holds { third: h, ..holds },
        Place::Fourth => Holds { fourth: h, ..holds },
    }
}

// Is a query from the address held there?
fn is_from(from: Address, h: Hold) -> bool
    ensures { result ≡ is_from from h }
{
    is_taken(h) && h.from == from
}

// Is a query from the address held?
pub fn some_from(from: Address, holds: Holds) -> bool
    ensures { result ≡ some_from from holds }
{
    is_from(from, holds.first)
        || is_from(from, holds.second)
        || is_from(from, holds.third)
        || is_from(from, holds.fourth)
}

// Are fewer than four held?
pub fn some_free(holds: Holds) -> bool
    ensures { result ≡ some_free holds }
{
    !(is_taken(holds.first)
        && is_taken(holds.second)
        && is_taken(holds.third)
        && is_taken(holds.fourth))
}

// The records of either set.
pub fn union(a: Set, b: Set) -> Set
    ensures { result ≡ union a b }
{
    Set::of(|o| is_in(o, a) || is_in(o, b))
}

// What is held at a place, after a query from `from` that knows some records.
fn knowing(from: Address, known: Set, h: Hold) -> Hold
    ensures { result ≡ knowing from known h }
{
    if is_from(from, h) {
        Hold {
            known: union(h.known, known),
            ..h
        }
    } else {
        h
    }
}

// The held queries after a query from `from`: each that came from there knows its known answers too.
pub fn add_known(from: Address, known: Set, holds: Holds) -> Holds
    ensures { result ≡ knowing_all from known holds }
{
    Holds {
        first: knowing(from, known, holds.first),
        second: knowing(from, known, holds.second),
        third: knowing(from, known, holds.third),
        fourth: knowing(from, known, holds.fourth),
    }
}

// One query more, behind those that are held; where four are, no change.
pub fn add(new: Hold, holds: Holds) -> Holds
    ensures { result ≡ queued new holds }
{
    let Holds {
        first,
        second,
        third,
        fourth,
    } = holds;
    if !is_taken(first) {
        Holds {
            first: second,
            second: third,
            third: fourth,
            fourth: new,
        }
    } else if !is_taken(second) {
        Holds {
            first,
            second: third,
            third: fourth,
            fourth: new,
        }
    } else if !is_taken(third) {
        Holds {
            first,
            second,
            third: fourth,
            fourth: new,
        }
    } else if !is_taken(fourth) {
        Holds {
            fourth: new,
            ..holds
        }
    } else {
        holds
    }
}
