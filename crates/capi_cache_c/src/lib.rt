// The cache for C: each function calls the one of the same name in `capi_cache`, with the same clauses. c/include/kurgashel.h declares them.
#![tactic(auto)]

ghost use Rattle.std.specs.Prelude.{◌≡◌, ℕ, List};
ghost use Rattle.cache.specs.lookup.Answers.{looked_of};
ghost use Rattle.capi_cache.specs.Numbers.{looked_numbers, taken_numbers};
ghost use Rattle.cache.specs.declared.entries.Entry.{Entry};
ghost use Rattle.cache.specs.entries.Cache.{take_in};
ghost use Rattle.cache.specs.Answers.{taken_of};

use cache::entries::Entry;
use capi_cache::{LookedNumbers, TakenNumbers};

// Looks a name and a type up in a lent table, in place: the lowest live match from a slot on. Nothing is written.
#[unsafe(no_mangle)]
pub extern "C" fn kurgashel_cache_look_up(
    table: &[Entry],
    store: &[u8],
    time: u64,
    name: &[u8],
    rtype: u16,
    from: usize,
) -> LookedNumbers
    ensures { result ≡ looked_numbers (looked_of time table.now store.now name.now rtype from) }
{
    capi_cache::kurgashel_cache_look_up(table, store, time, name, rtype, from)
}

// Takes the records of a message into a lent table and its store.
#[unsafe(no_mangle)]
pub extern "C" fn kurgashel_cache_take(
    table: &mut [Entry],
    store: &mut [u8],
    time: u64,
    port: u16,
    message: &[u8],
) -> TakenNumbers
    ensures { (let es : List Entry = table.old in
        let s : List ℕ = store.old in
        let p : List ℕ = message.now in
        (result ≡ taken_numbers (taken_of time es s port p))
        × ((table.new ≡ (take_in time es s port p).entries) × (store.new ≡ (take_in time es s port p).store))) }
{
    capi_cache::kurgashel_cache_take(table, store, time, port, message)
}
