// The table of the console's cache: 513 entries by value, one more than the cache takes. The first of them are lent to the exported cache, with the first
// bytes of a byte store.
#![tactic(auto)]

ghost use Rattle.std.specs.Prelude.{◌≡◌, ℕ, ◌≤◌, List, take, get_or};
ghost use Rattle.cache.specs.entries.Entries.{blank};
ghost use Rattle.cache.specs.entries.Cache.{take_in};
ghost use Rattle.cache.specs.lookup.Answers.{looked_of};
ghost use Rattle.capi_cache.specs.Numbers.{looked_numbers};
ghost use Rattle.console_table.specs.Table.{least, first_taken, lent_entries, lent_bytes, taken_into, store_after, zeros};

use cache::entries::Entry;
use capi_cache::{LookedNumbers, TakenNumbers};

// The entries that there are, of which a table has at most all.
pub const MOST_ENTRIES: usize = 513;

// A table: its first entries, as many as it is said to have, and how many bytes its store has.
// count and room may be more than there is, as a line says: the definitions lent_entries and lent_bytes cut by them.
#[derive(Clone, Copy)]
pub struct Table {
    pub entries: [Entry; 513],
    pub count: usize,
    pub room: usize,
}

// What taking a message into the first entries answers, and all entries then.
#[derive(Clone, Copy)]
pub struct FirstTaken {
    pub numbers: TakenNumbers,
    pub entries: [Entry; 513],
}

// What taking a message answers, and the table then.
#[derive(Clone, Copy)]
pub struct AfterTake {
    pub numbers: TakenNumbers,
    pub table: Table,
}

// The lesser of two numbers.
pub fn least(a: usize, b: usize) -> usize
    ensures { (result ≡ least a b) × ((result ≤ a) × (result ≤ b)) }
{
    a.min(b)
}

// Takes a message into the first `n` entries and all bytes of a store.
// The thin form stays: the definition first_taken is its answer.
fn take_first(
    es: [Entry; 513],
    n: usize,
    store: &mut [u8],
    time: u64,
    port: u16,
    message: &[u8],
) -> FirstTaken
    requires { n ≤ 513 }
    ensures { (let s : List ℕ = store.old in
        let p : List ℕ = message.now in
        (result ≡ first_taken time n es s port p) × (store.new ≡ (take_in time (take n es) s port p).store)) }
{
    let mut entries = es;
    let numbers = capi_cache::kurgashel_cache_take(&mut entries[..n], store, time, port, message);
    FirstTaken { numbers, entries }
}

// An entry of zeros.
fn unused() -> Entry
    ensures { result ≡ blank }
{
    Entry {
        rtype: 0,
        owner: 0,
        rdata: 0,
        received: 0,
        expiry: 0,
        ttl: 0,
    }
}

// A table of so many entries, all of them zeros, with a store of so many bytes.
pub fn zeros(count: usize, room: usize) -> Table
    ensures { result ≡ zeros count room }
{
    Table {
        entries: [unused(); 513],
        count,
        room,
    }
}

// An entry, or one of zeros where there is none.
pub fn entry_at(table: Table, i: usize) -> Entry
    ensures { result ≡ get_or table.entries i blank }
{
    table.entries.get(i).copied().unwrap_or(unused())
}

// Takes a message into a table and its store. What is not lent stays.
pub fn take_message(
    table: Table,
    store: &mut [u8],
    time: u64,
    port: u16,
    message: &[u8],
) -> AfterTake
    ensures table { result ≡ taken_into time table store.old port message.now }
    ensures store { store.new ≡ store_after time table store.old port message.now }
{
    let n = table.count.min(MOST_ENTRIES);
    let m = table.room.min(store.len());
    let FirstTaken { numbers, entries } = take_first(
        table.entries,
        n,
        &mut store[..m],
        time,
        port,
        message,
    );
    AfterTake {
        numbers,
        table: Table { entries, ..table },
    }
}

// Looks a name and a type up in a table and its store, from a slot on.
pub fn look_up(
    table: Table,
    store: &[u8],
    time: u64,
    name: &[u8],
    rtype: u16,
    from: usize,
) -> LookedNumbers
    ensures { (let bytes : List ℕ = lent_bytes table store.now in
        result ≡ looked_numbers (looked_of time (lent_entries table) bytes name.now rtype from)) }
{
    let n = table.count.min(MOST_ENTRIES);
    let lent = &store[..table.room.min(store.len())];
    capi_cache::kurgashel_cache_look_up(&table.entries[..n], lent, time, name, rtype, from)
}
