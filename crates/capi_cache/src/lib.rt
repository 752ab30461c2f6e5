// The cache on a lent table (specification, 'The cache'): entries as a lent slice of structs of any length, worked on in place. Thin functions read and
// replace one entry; the rules on an entry by value are those of the crate `cache`.
#![tactic(auto)]

pub mod hearing;

ghost use Rattle.std.specs.Prelude.{◌≡◌, ℕ, ◌+◌, ◌*◌, ◌<◌, ◌≤◌, ◌^◌, List, leb, length, get_or, set, replicate};
ghost use Rattle.std.proofs.lemmas.List.Edits.{sets};
ghost use Rattle.cache.specs.entries.Entries.{blank, is_live, refreshed};
ghost use Rattle.cache.specs.declared.entries.Entry.{Entry};
ghost use Rattle.cache.specs.declared.records.Choice.{Choice};
ghost use Rattle.cache.specs.entries.Cache.{Cache, slot_with, take_records, entries_refusal, take_in};
ghost use Rattle.cache.specs.lookup.Answers.{looked_of};
ghost use Rattle.cache.specs.Answers.{taken_of};
ghost use Rattle.cache.specs.records.Heard.{owner_in, rdata_in};
ghost use Rattle.cache.specs.records.Taking.{flushed_in, likely_from, equal_in, free_from, chosen_in, entry_heard, changed_in, kept_in, counting};
ghost use Rattle.capi_cache.specs.Refusals.{no_most, most_with, ended};
ghost use Rattle.capi_cache.specs.Numbers.{refused_look, found_look, nothing_look, refused_take, counted_take, taken_numbers, looked_numbers};
ghost use Rattle.capi_cache.specs.Types.{type_among, Passed};
ghost use Rattle.capi_cache.specs.Sections.{Changing, Taking, Counted, records_of, cache_with, counts_in};

use cache::Counts;
use cache::entries::{Entry, MOST_OWNER, MOST_RDATA, is_live, is_live_of, to_expire};
use cache::lookup::{LATEST, is_size, is_store_of, look_refusal, met_at};
use cache::records::{
    Choice, Heard, chosen, fill_from, flush_from, flush_heard, has_bytes, may_hold, seek_from,
};
use wire::buffer::put;
use wire::message::{Section, read_from};
use wire::rdata::part;
use wire::refusals::{TABLE, TIME};

// What taking a message answers in numbers, for callers in other languages.
#[repr(C)]
#[derive(Clone, Copy)]
pub struct TakenNumbers {
    pub refusal: u8,
    pub turned: u32,
    pub passed: u32,
}

// What a lookup answers in numbers; with a slot that was found come those of the name, and of the owner there: how many labels it has, and how long the
// first is.
#[repr(C)]
#[derive(Clone, Copy)]
pub struct LookedNumbers {
    pub refusal: u8,
    pub found: bool,
    pub slot: usize,
    pub name_labels: usize,
    pub name_first_label: usize,
}

// How many entries the table has.
pub fn entry_count(table: &[Entry]) -> usize
    ensures { result ≡ length table.now }
{
    table.len()
}

// The entry at `i`, by value.
fn entry_at(table: &[Entry], i: usize) -> Entry
    requires { i < length table.now }
    ensures { result ≡ get_or table.now i blank }
{
    table[i]
}

// The entry at `i` is replaced, and the others stay.
fn put_entry(table: &mut [Entry], i: usize, e: Entry)
    requires { i < length table.old }
    ensures { table.new ≡ set table.old i e }
{
    table[i] = e;
}

// An entry of zeros.
fn blank_entry() -> Entry
    ensures { result ≡ blank }
{
    Entry {
        rtype: 0,
        owner: 0,
        rdata: 0,
        received: 0,
        expiry: 0,
        ttl: 0,
    }
}

// The entry at `i`, by value; one of zeros past the table's end.
pub fn entry_or_blank(table: &[Entry], i: usize) -> Entry
    ensures { result ≡ get_or table.now i blank }
{
    if i < table.len() {
        return entry_at(table, i);
    }
    blank_entry()
}

// The latest time of receipt and the greatest lengths of some entries. No entry is tested by a branch of its own.
#[derive(Clone, Copy)]
struct Most {
    received: u64,
    rdata: u32,
    owner: u32,
}

// Of no entries.
fn no_most() -> Most
    ensures { result ≡ no_most }
{
    Most {
        received: 0,
        rdata: 0,
        owner: 0,
    }
}

// Of one entry more.
fn most_with(m: Most, e: Entry) -> Most
    ensures { result ≡ most_with m e }
{
    Most {
        received: m.received.max(e.received),
        rdata: m.rdata.max(e.rdata),
        owner: m.owner.max(e.owner as u32),
    }
}

// The refusal after all entries: 1 of a time above 2^62 or before one of receipt; 8 of a table of another size than 1 to 512 or of a length over a slot's.
fn at_end(m: Most, n: usize, time: u64) -> u8
    ensures { result ≡ ended time m n }
{
    if LATEST < time || time < m.received {
        return TIME;
    }
    if !is_size(n) || (MOST_OWNER as u32) < m.owner || MOST_RDATA < m.rdata {
        return TABLE;
    }
    0
}

// The refusals 1 and 8 that a table's entries give, or 0: a table of any size, dead entries too.
pub fn table_refusal(table: &[Entry], time: u64) -> u8
    ensures { result ≡ entries_refusal time table.now }
{
    let mut most = no_most();
    for e in table {
        most = most_with(most, *e);
    }
    at_end(most, table.len(), time)
}

// The answers in numbers.
fn refused_look(refusal: u8) -> LookedNumbers
    ensures { result ≡ refused_look refusal }
{
    LookedNumbers {
        refusal,
        found: false,
        slot: 0,
        name_labels: 0,
        name_first_label: 0,
    }
}

fn found_look(slot: usize, name: &[u8]) -> LookedNumbers
    ensures { result ≡ found_look name.now slot }
{
    let met = met_at(slot, name);
    LookedNumbers {
        refusal: 0,
        found: true,
        slot: met.slot,
        name_labels: met.labels,
        name_first_label: met.first,
    }
}

fn refused_take(refusal: u8) -> TakenNumbers
    ensures { result ≡ refused_take refusal }
{
    TakenNumbers {
        refusal,
        turned: 0,
        passed: 0,
    }
}

// Looks a name and a type up in a lent table, in place: the lowest live match from a slot on. Nothing is written.
pub fn kurgashel_cache_look_up(
    table: &[Entry],
    store: &[u8],
    time: u64,
    name: &[u8],
    rtype: u16,
    from: usize,
) -> LookedNumbers
    ensures { result ≡ looked_numbers (looked_of time table.now store.now name.now rtype from) }
{
    let n = table.len();
    let refusal = look_refusal(table_refusal(table, time), n, store, name);
    if refusal != 0 {
        return refused_look(refusal);
    }
    for i in from..n {
        if is_live_of(entry_at(table, i), i, store, time, name, rtype) {
            return found_look(i, name);
        }
    }
    refused_look(0)
}

// Rule 1 on every entry, in place. One of another type than the record's stays, and is passed over unstored.
fn flush(table: &mut [Entry], store: &[u8], time: u64, slot: &[u8], h: Heard)
    ensures { table.new ≡ flushed_in time store.now slot.now h table.old }
{
    let n = table.len();
    let first = flush_from(h, n);
    for i in first..n {
        let e = entry_at(table, i);
        if e.rtype == h.at.rtype {
            put_entry(table, i, flush_heard(e, i, store, time, slot, h));
        }
    }
}

// Whether one of four entries is of a record's type.
fn is_type_among(a: Entry, b: Entry, c: Entry, d: Entry, h: Heard) -> bool
    ensures { result ≡ type_among h.at.rtype a b c d }
{
    let f = h.at;
    a.rtype == f.rtype || b.rtype == f.rtype || c.rtype == f.rtype || d.rtype == f.rtype
}

// Whether the table has four entries from slot i on.
fn has_four(n: usize, i: usize) -> bool
    ensures { result ≡ leb (i + 4) n }
{
    if n < i {
        return false;
    }
    4 <= n - i
}

// A slot from a slot on; no entry between is of a record's type. They are passed over four at a time.
fn past_others(table: &[Entry], h: Heard, from: usize) -> usize
    ensures { Passed h.at.rtype table.now from result }
{
    let n = table.len();
    // by index: four at a time was measured, and the search goes on from the slot
    let mut i = from;
    while has_four(n, i) {
        let a = entry_at(table, i);
        let b = entry_at(table, i + 1);
        let c = entry_at(table, i + 2);
        let d = entry_at(table, i + 3);
        if is_type_among(a, b, c, d, h) {
            return i;
        }
        i += 4;
    }
    i
}

// The lowest entry that may hold a record, from a slot on; the slot past the last where there is none.
fn likely_slot(table: &[Entry], time: u64, h: Heard, from: usize) -> usize
    ensures { result ≡ likely_from time h table.now from }
{
    let n = table.len();
    for i in from..n {
        if may_hold(entry_at(table, i), time, h) {
            return i;
        }
    }
    from.max(n)
}

// The lowest live equal entry, where rules 2 and 3 are for a record; the slot past the last where there is none. Only entries that may hold it are compared,
// and of those before the first of its type nothing but the type is looked at.
fn equal_slot(table: &[Entry], store: &[u8], time: u64, slot: &[u8], h: Heard) -> usize
    ensures { result ≡ equal_in time store.now slot.now h table.now }
{
    let n = table.len();
    let first = seek_from(h, n);
    let near = past_others(table, h, first);
    // from likely slot to likely slot: the step is the next search's answer, so that no `for` fits
    let mut i = likely_slot(table, time, h, near);
    while i < n {
        if has_bytes(entry_at(table, i), i, store, slot, h) {
            return i;
        }
        i = likely_slot(table, time, h, i + 1);
    }
    i
}

// The lowest entry that is not live, from a slot on; the slot past the last where there is none.
fn free_slot(table: &[Entry], time: u64, from: usize) -> usize
    ensures { result ≡ free_from time table.now from }
{
    let n = table.len();
    for i in from..n {
        if !is_live(entry_at(table, i), time) {
            return i;
        }
    }
    from.max(n)
}

// What becomes of a record: the lowest live equal entry, else the lowest that is not live.
fn choose(table: &[Entry], store: &[u8], time: u64, slot: &[u8], h: Heard) -> Choice
    ensures { result ≡ chosen_in time store.now slot.now h table.now }
{
    let n = table.len();
    let equal = equal_slot(table, store, time, slot, h);
    let from = fill_from(h, n, equal);
    let free = free_slot(table, time, from);
    chosen(h, n, equal, free)
}

// Rule 3 on the lowest live equal entry: it has the times and the TTL of the record that is taken now.
fn refresh_entry(e: Entry, time: u64, ttl: u32) -> Entry
    requires { time ≤ 2 ^ 62 }
    ensures { result ≡ refreshed time ttl e }
{
    Entry {
        received: time,
        expiry: time + 1000 * ttl as u64,
        ttl: ttl as u64,
        ..e
    }
}

// The entry of a record that is taken now.
fn fill_entry(time: u64, h: Heard) -> Entry
    requires { (time ≤ 2 ^ 62) × ((h.at.span.len ≤ 255) × (h.len ≤ 768)) }
    ensures { result ≡ entry_heard time h }
{
    let f = h.at;
    Entry {
        rtype: f.rtype,
        owner: f.span.len as u16,
        rdata: h.len as u32,
        received: time,
        expiry: time + 1000 * f.ttl as u64,
        ttl: f.ttl as u64,
    }
}

// A slot of zeros.
fn blank_slot() -> [u8; 1024]
    ensures { result ≡ replicate 1024 0 }
{
    [0u8; 1024]
}

// The bytes of a record that fills slot i: those that `slot` shows, and zeros in the bytes that they leave.
fn keep(store: &mut [u8], i: usize, slot: &[u8], h: Heard)
    requires { 1024 * i + 1024 ≤ length store.old }
    ensures { store.new ≡ sets store.old (1024 * i) (slot_with (owner_in slot.now h) (rdata_in slot.now h)) }
{
    let f = h.at;
    let mut filled = blank_slot();
    put(&mut filled, 0, part(slot, 0, f.span.len));
    put(&mut filled, 256, part(slot, 256, h.len));
    put(store, 1024 * i, &filled);
}

// What was chosen of a record is done.
fn change(table: &mut [Entry], store: &mut [u8], time: u64, slot: &[u8], h: Heard, c: Choice)
    requires { ((time ≤ 2 ^ 62) × (length store.old ≡ 1024 * length table.old)) × Changing (length table.old) h c }
    ensures { (table.new ≡ changed_in time h c table.old) × (store.new ≡ kept_in slot.now h c store.old) }
{
    match c {
        Choice::Expire(i) => {
            let e = entry_at(table, i);
            put_entry(table, i, to_expire(e, time));
        }
        Choice::Refresh(i) => {
            let e = entry_at(table, i);
            put_entry(table, i, refresh_entry(e, time, h.at.ttl));
        }
        Choice::Fill(i) => {
            put_entry(table, i, fill_entry(time, h));
            keep(store, i, slot, h);
        }
        Choice::Leave | Choice::TurnAway | Choice::PassOver => {}
    }
}

// The rules for one record: what became of it is answered.
fn take_record(table: &mut [Entry], store: &mut [u8], time: u64, slot: &[u8], h: Heard) -> Choice
    requires { ((time ≤ 2 ^ 62) × (length store.old ≡ 1024 * length table.old)) × (h.at.span.len ≤ 255) }
    ensures { (let es : List Entry = flushed_in time store.old slot.now h table.old in
        let c : Choice = chosen_in time store.old slot.now h es in
        (result ≡ c) × ((table.new ≡ changed_in time h c es) × (store.new ≡ kept_in slot.now h c store.old))) }
{
    flush(table, store, time, slot, h);
    let c = choose(table, store, time, slot, h);
    change(table, store, time, slot, h, c);
    c
}

// The counts, after what became of a record.
fn counted(counts: Counts, c: Choice) -> Counts
    requires { (counts.turned + 1 < 2 ^ 32) × (counts.passed + 1 < 2 ^ 32) }
    ensures { result ≡ counting c counts }
{
    match c {
        Choice::TurnAway => Counts {
            turned: counts.turned + 1,
            passed: counts.passed,
        },
        Choice::PassOver => Counts {
            turned: counts.turned,
            passed: counts.passed + 1,
        },
        Choice::Leave | Choice::Expire(_) | Choice::Refresh(_) | Choice::Fill(_) => counts,
    }
}

// The records of a section, in order, as far as they are whole: each is laid over `slot`, and counted with those before.
fn take_section(
    table: &mut [Entry],
    store: &mut [u8],
    time: u64,
    message: &[u8],
    s: Section,
    slot: &mut [u8],
    before: Counts,
) -> Counts
    requires { (Taking time (length table.old) (length store.old) × Counted before s) × (length slot.old ≡ 1024) }
    ensures takes { (let was : Cache = cache_with before table.old store.old in
        let c : Cache = take_records time (records_of message.now s) was in
        (result ≡ counts_in c) × ((table.new ≡ c.entries) × (store.new ≡ c.store))) }
    ensures most { (result.turned ≤ before.turned + s.count) × (result.passed ≤ before.passed + s.count) }
{
    let mut counts = before;
    let mut at = s.at;
    for _k in 0..s.count {
        let Some(h) = hearing::hear(slot, message, at) else {
            return counts;
        };
        let c = take_record(table, store, time, slot, h);
        counts = counted(counts, c);
        at = h.at.next;
    }
    counts
}

// The counts in numbers.
fn counted_take(c: Counts) -> TakenNumbers
    ensures { result ≡ counted_take c.turned c.passed }
{
    TakenNumbers {
        refusal: 0,
        turned: c.turned,
        passed: c.passed,
    }
}

// Takes the records of a message into a lent table and its store. The whole message is read before anything changes.
pub fn kurgashel_cache_take(
    table: &mut [Entry],
    store: &mut [u8],
    time: u64,
    port: u16,
    message: &[u8],
) -> TakenNumbers
    ensures { (let es : List Entry = table.old in
        let s : List ℕ = store.old in
        let p : List ℕ = message.now in
        (result ≡ taken_numbers (taken_of time es s port p))
        × ((table.new ≡ (take_in time es s port p).entries) × (store.new ≡ (take_in time es s port p).store))) }
{
    let entries = table_refusal(table, time);
    if entries != 0 {
        return refused_take(entries);
    }
    if !is_store_of(table.len(), store.len()) {
        return refused_take(TABLE);
    }
    match read_from(message, port) {
        Ok(l) => {
            let none = Counts {
                turned: 0,
                passed: 0,
            };
            if l.flags < 32768 {
                return counted_take(none);
            }
            let mut slot = blank_slot();
            let answers = take_section(table, store, time, message, l.answers, &mut slot, none);
            let all = take_section(
                table,
                store,
                time,
                message,
                l.additionals,
                &mut slot,
                answers,
            );
            counted_take(all)
        }
        Err(refusal) => refused_take(refusal.number()),
    }
}
