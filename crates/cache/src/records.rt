// One record of a message against one entry by value (specification, 'The cache'). Its owner and rdata, names expanded, lie in the slot that it would fill, and
// are compared as bytes. What the rules do to the entries follows from what was found of them.
ghost use Rattle.std.specs.Prelude.{◌≡◌, take};
ghost use Rattle.wire.specs.case_folding.Fold.{same_name};
ghost use Rattle.cache.specs.entries.Entries.{slot_of};
ghost use Rattle.cache.specs.entries.Cache.{cached_as};
ghost use Rattle.cache.specs.records.Heard.{is_taken, is_flushing, is_sought, is_alike, may_hold, has_bytes, live_heard, flushed_heard};
ghost use Rattle.cache.specs.records.Heard.{first_slot, is_filling, chosen_of};

use crate::entries::{Entry, MOST_RDATA, is_live, rdata_of, slot_of, to_expire};
use wire::case_folding::same_name;
use wire::expansion::same_bytes;
use wire::message::RecordAt;
use wire::rdata::{A, AAAA, NSEC, PTR, SRV, TXT, part};

// A record of a message as it lies; whether it is whole, as each is that hearing gives; how many bytes its rdata has, names expanded, and whether it holds a
// name, which of an NSEC says that it is of the restricted kind. `whole` stays beside the Option of hearing: not-whole speaks of a record that is not.
#[derive(Clone, Copy)]
pub struct Heard {
    pub whole: bool,
    pub at: RecordAt,
    pub len: usize,
    pub named: bool,
}

// What becomes of a record: nothing; the entry in a slot is to expire, is refreshed, or takes the record; the record is turned away; it is passed over.
#[derive(Clone, Copy)]
pub enum Choice {
    Leave,
    Expire(usize),
    Refresh(usize),
    Fill(usize),
    TurnAway,
    PassOver,
}

// Whether records of a class and a type are cached; of NSEC only the restricted kind is.
pub fn is_cached(class: u16, rtype: u16, restricted: bool) -> bool
    ensures { result ≡ cached_as class rtype restricted }
{
    if class % 32768 != 1 {
        return false;
    }
    match rtype {
        A | PTR | TXT | AAAA | SRV => true,
        NSEC => restricted,
        _ => false,
    }
}

// Whether the rules are for a record.
pub fn is_taken(h: Heard) -> bool
    ensures { result ≡ is_taken h }
{
    h.whole && is_cached(h.at.class, h.at.rtype, h.named)
}

// Whether rule 1 is for a record.
pub fn is_flushing(h: Heard) -> bool
    ensures { result ≡ is_flushing h }
{
    32768 <= h.at.class && is_taken(h)
}

// Whether rules 2 and 3 are for a record: its rdata fits a slot.
pub fn is_sought(h: Heard) -> bool
    ensures { result ≡ is_sought h }
{
    h.len <= MOST_RDATA as usize && is_taken(h)
}

// Whether the owner in slot i, of `len` bytes, is that of a record, the first `span` bytes of the slot that it would fill. It takes numbers and no record, so
// that a loop over a table copies no record for each entry.
pub fn is_owner(store: &[u8], i: usize, len: usize, slot: &[u8], span: usize) -> bool
    ensures { result ≡ same_name (take len (slot_of store.now i)) (take span slot.now) }
{
    same_name(part(slot_of(store, i), 0, len), part(slot, 0, span))
}

// Whether an entry agrees with a record in its type and in the length of its owner, and is live: before any byte is looked at.
fn is_alike(e: Entry, time: u64, h: Heard) -> bool
    ensures { result ≡ is_alike time h e }
{
    e.rtype == h.at.rtype && e.owner as usize == h.at.span.len && is_live(e, time)
}

// Whether an entry may hold a record: it agrees with it in the length of its rdata too. Nearly all others are told by this, before any byte is looked at.
pub fn may_hold(e: Entry, time: u64, h: Heard) -> bool
    ensures { result ≡ may_hold time h e }
{
    is_alike(e, time, h) && e.rdata as usize == h.len
}

// Whether the entry in slot i is a live one of a record's name and type.
pub fn is_live_heard(e: Entry, i: usize, store: &[u8], time: u64, slot: &[u8], h: Heard) -> bool
    ensures { result ≡ live_heard time store.now slot.now h i e }
{
    is_alike(e, time, h) && is_owner(store, i, e.owner as usize, slot, h.at.span.len)
}

// Whether the bytes of the entry in slot i are a record's: its rdata, in which records of a name and a type differ, is compared before its owner. An entry that
// may hold a record does where they are.
pub fn has_bytes(e: Entry, i: usize, store: &[u8], slot: &[u8], h: Heard) -> bool
    ensures { result ≡ has_bytes store.now slot.now h i e }
{
    let held = rdata_of(store, i, e.rdata as usize);
    let heard = part(slot, 256, h.len);
    same_bytes(held, heard) && is_owner(store, i, e.owner as usize, slot, h.at.span.len)
}

// Rule 1 on the entry in slot i.
pub fn flush_heard(e: Entry, i: usize, store: &[u8], time: u64, slot: &[u8], h: Heard) -> Entry
    ensures { result ≡ flushed_heard time store.now slot.now h i e }
{
    if time.saturating_sub(e.received) <= 1000 {
        return e;
    }
    if !is_live_heard(e, i, store, time, slot, h) || !is_flushing(h) {
        return e;
    }
    to_expire(e, time)
}

// The slot at which a rule begins in a table of n entries: the first where it is for a record, else none.
pub fn flush_from(h: Heard, n: usize) -> usize
    ensures { result ≡ first_slot (is_flushing h) n }
{
    if is_flushing(h) { 0 } else { n }
}

pub fn seek_from(h: Heard, n: usize) -> usize
    ensures { result ≡ first_slot (is_sought h) n }
{
    if is_sought(h) { 0 } else { n }
}

// Where the search for an entry that is not live begins, after that for an equal one gave `equal`: only where there is none and the TTL is not 0.
pub fn fill_from(h: Heard, n: usize, equal: usize) -> usize
    ensures { result ≡ first_slot (is_filling h n equal) n }
{
    if equal < n || h.at.ttl == 0 {
        return n;
    }
    seek_from(h, n)
}

// What becomes of a record, after the two searches in a table of n entries: a slot of n or more is none.
pub fn chosen(h: Heard, n: usize, equal: usize, free: usize) -> Choice
    ensures { result ≡ chosen_of h n equal free }
{
    if !is_taken(h) {
        return Choice::Leave;
    }
    if (MOST_RDATA as usize) < h.len {
        return Choice::PassOver;
    }
    if equal < n {
        if h.at.ttl == 0 {
            return Choice::Expire(equal);
        }
        return Choice::Refresh(equal);
    }
    if h.at.ttl == 0 {
        return Choice::Leave;
    }
    if free < n {
        return Choice::Fill(free);
    }
    Choice::TurnAway
}
