// One entry of the cache by value (specification, 'The cache'): when it is live, whose record it holds, and what the rules make of it. The owner and the
// rdata of entry i lie in slot i of the byte store.
ghost use Rattle.std.specs.Prelude.{◌≡◌, ◌*◌, take, drop};
ghost use Rattle.wire.specs.rdata.Answers.{start_in};
ghost use Rattle.cache.specs.entries.Entries.{is_live, slot_of, is_of, live_of, soon, heard_ahead, too_long};

use wire::case_folding::same_name;
use wire::rdata::part;

// "type, lengths, received, expiry", and "the TTL as received"; the times are in milliseconds, the TTL in seconds. The length of rdata has four bytes and the
// TTL eight, so that the entry has no padding and its values are all its bytes. No rule reads the TTL: any number may stand in a table that is lent.
#[repr(C)]
#[derive(Clone, Copy)]
pub struct Entry {
    pub rtype: u16,
    pub owner: u16,
    pub rdata: u32,
    pub received: u64,
    pub expiry: u64,
    pub ttl: u64,
}

// The most bytes of an owner and of rdata that an entry may have.
pub const MOST_OWNER: u16 = 255;

pub const MOST_RDATA: u32 = 768;

// Whether an entry is live.
pub fn is_live(e: Entry, time: u64) -> bool
    ensures { result ≡ is_live time e }
{
    time < e.expiry
}

// The bytes of slot i. What lies past the store's end is left out.
pub fn slot_of<'a>(store: &'a [u8], i: usize) -> &'a [u8]
    ensures bytes { result.now ≡ slot_of store.now i }
    ensures start { result.ref_ptr ≡ start_in store.now (1024 * i) store.entry.ref_ptr }
{
    if store.len() / 1024 < i {
        return part(store, store.len(), 0);
    }
    part(store, 1024 * i, 1024)
}

// The rdata of so many bytes in slot i. Of a slot that the store has it is a part of the store itself.
pub fn rdata_of<'a>(store: &'a [u8], i: usize, len: usize) -> &'a [u8]
    ensures { result.now ≡ take len (drop 256 (slot_of store.now i)) }
{
    if i < store.len() / 1024 && len <= MOST_RDATA as usize {
        let at = 1024 * i + 256;
        let end = at + len;
        return &store[at..end];
    }
    part(slot_of(store, i), 256, len)
}

// Whether the entry in slot i is of a name and a type. The type and the lengths are compared before any byte is folded.
pub fn is_of(e: Entry, i: usize, store: &[u8], name: &[u8], rtype: u16) -> bool
    ensures { result ≡ is_of store.now name.now rtype i e }
{
    let len = e.owner as usize;
    e.rtype == rtype && len == name.len() && same_name(part(slot_of(store, i), 0, len), name)
}

// Whether the entry in slot i is a live one of a name and a type. The type, in which most entries differ, is compared first.
pub fn is_live_of(e: Entry, i: usize, store: &[u8], time: u64, name: &[u8], rtype: u16) -> bool
    ensures { result ≡ live_of time store.now name.now rtype i e }
{
    e.rtype == rtype && is_live(e, time) && is_of(e, i, store, name, rtype)
}

// The lesser of the expiry and now plus 1,000.
pub fn to_expire(e: Entry, time: u64) -> Entry
    ensures { result ≡ soon time e }
{
    if e.expiry <= time || e.expiry - time <= 1000 {
        return e;
    }
    Entry {
        expiry: time + 1000,
        ..e
    }
}

// Whether an entry was received after now.
pub fn is_ahead(e: Entry, time: u64) -> bool
    ensures { result ≡ heard_ahead time e }
{
    time < e.received
}

// Whether a length of an entry is over what a slot has room for.
pub fn is_too_long(e: Entry) -> bool
    ensures { result ≡ too_long e }
{
    MOST_OWNER < e.owner || MOST_RDATA < e.rdata
}
