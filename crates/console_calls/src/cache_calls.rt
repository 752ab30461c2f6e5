// The console's calls on the cache: `put NOW PORT PACKET`, `look NOW NAME TYPE FROM`, `slot K`, `table N` or `table N STORE`, and `clear`. The table goes by
// value, its byte store is lent: what both are after a line is promised. What is written no contract can say.
ghost use Rattle.std.specs.Prelude.{◌≡◌, ◌≤◌, length, replicate};
ghost use Rattle.console_table.specs.Table.{zeros};
ghost use Rattle.console_text.specs.fields.Numbers.{number_at};
ghost use Rattle.console_calls.specs.cache_calls.Lines.{is_cache_call, is_put, is_table, room_told, after_put, after_clear, after_table, cache_after};

use crate::output::{self, bad_line, bytes, finish, first, only, refused};
use cache::entries::Entry;
use capi_cache::{LookedNumbers, TakenNumbers};
use console_table::{MOST_ENTRIES, Table};
use console_text::fields::{are_bytes, has_arguments, is_number, number, number_of_16};
use console_text::hex::fill;
use console_text::lines::{field, front};
use wire::expansion::same_bytes;

// The bytes of a slot.
const SLOT: usize = 1024;

// The entries of the table, and the bytes of its store, before a line says otherwise.
const USUAL_ENTRIES: usize = 64;

const USUAL_STORE: usize = 65536;

// The most bytes of a store: a slot for each of the most entries.
const MOST_STORE: u64 = 525312;

// The greatest type.
const MOST_TYPE: u64 = 65535;

// The table before the first line.
pub fn at_first() -> Table
    ensures { result ≡ zeros 64 65536 }
{
    console_table::zeros(USUAL_ENTRIES, USUAL_STORE)
}

// The answer for a message: `cached TURNED PASSED`.
fn taken(numbers: TakenNumbers, rt: &impl Print, text: &mut [u8; 4096]) {
    if numbers.refusal != 0 {
        return refused(rt, text, numbers.refusal as u64);
    }
    let used = first(rt, text, b"cached");
    let used = output::number(rt, text, used, numbers.turned as u64);
    let used = output::number(rt, text, used, numbers.passed as u64);
    finish(rt, text, used);
}

// Whether a line is of the form `put NOW PORT PACKET`.
#[tactic(auto, unfolding(crate::specs::cache_calls::Lines::is_put))]
fn is_put(line: &[u8]) -> bool
    ensures { result ≡ is_put line.now }
{
    has_arguments(line, 3) && is_number(line, 1) && is_number(line, 2) && are_bytes(line, 3)
}

// `put NOW PORT PACKET`: the table after it. A port that is too great is no 5353, as 0 is none.
#[tactic(auto, unfolding(crate::specs::cache_calls::Lines::after_put))]
fn put(line: &[u8], table: Table, store: &mut [u8], rt: &impl Print, text: &mut [u8; 4096]) -> Table
    ensures table { result ≡ (after_put line.now table store.old).table }
    ensures store { store.new ≡ (after_put line.now table store.old).store }
{
    if !is_put(line) {
        bad_line(rt, text);
        return table;
    }
    let time = number(line, 1);
    let port = number_of_16(line, 2);
    let mut packet = [0u8; 20000];
    let n = fill(field(line, 3), &mut packet);
    let after = console_table::take_message(table, store, time, port, front(&packet, n));
    let numbers = after.numbers;
    taken(numbers, rt, text);
    after.table
}

// The answer `slot K RECEIVED EXPIRY OWNER LABELS FIRST RDATA`, of what was found, its entry and the bytes of its slot.
fn found(numbers: LookedNumbers, e: Entry, slot: &[u8], rt: &impl Print, text: &mut [u8; 4096]) {
    let used = first(rt, text, b"slot");
    let used = output::number(rt, text, used, numbers.slot as u64);
    let used = output::number(rt, text, used, e.received);
    let used = output::number(rt, text, used, e.expiry);
    let used = bytes(rt, text, used, wire::rdata::part(slot, 0, e.owner as usize));
    let used = output::number(rt, text, used, numbers.name_labels as u64);
    let used = output::number(rt, text, used, numbers.name_first_label as u64);
    let used = bytes(
        rt,
        text,
        used,
        wire::rdata::part(slot, 256, e.rdata as usize),
    );
    finish(rt, text, used);
}

// The answer for a name and a type.
fn looked(
    numbers: LookedNumbers,
    table: Table,
    store: &[u8],
    rt: &impl Print,
    text: &mut [u8; 4096],
) {
    if numbers.refusal != 0 {
        return refused(rt, text, numbers.refusal as u64);
    }
    if !numbers.found {
        return only(rt, text, b"none");
    }
    let k = numbers.slot;
    found(
        numbers,
        console_table::entry_at(table, k),
        cache::entries::slot_of(store, k),
        rt,
        text,
    )
}

// Whether a line is of the form `look NOW NAME TYPE FROM`.
fn is_look(line: &[u8]) -> bool {
    has_arguments(line, 4)
        && is_number(line, 1)
        && are_bytes(line, 2)
        && is_number(line, 3)
        && is_number(line, 4)
}

// The slot that a lookup starts from. A type that is too great is no entry's: such a lookup starts past the last slot.
fn from(line: &[u8]) -> usize {
    if MOST_TYPE < number(line, 3) {
        MOST_ENTRIES
    } else {
        number(line, 4) as usize
    }
}

// `look NOW NAME TYPE FROM`
fn look(line: &[u8], table: Table, store: &[u8], rt: &impl Print, text: &mut [u8; 4096]) {
    if !is_look(line) {
        return bad_line(rt, text);
    }
    let time = number(line, 1);
    let mut name = [0u8; 20000];
    let n = fill(field(line, 2), &mut name);
    let rtype = number_of_16(line, 3);
    let numbers = console_table::look_up(table, store, time, front(&name, n), rtype, from(line));
    looked(numbers, table, store, rt, text)
}

// The answer `slot K TYPE OWNERLEN RDATALEN RECEIVED EXPIRY TTL BYTES`, of an entry and the bytes of its slot.
fn whole(k: usize, e: Entry, slot: &[u8], rt: &impl Print, text: &mut [u8; 4096]) {
    let used = first(rt, text, b"slot");
    let used = output::number(rt, text, used, k as u64);
    let used = output::number(rt, text, used, e.rtype as u64);
    let used = output::number(rt, text, used, e.owner as u64);
    let used = output::number(rt, text, used, e.rdata as u64);
    let used = output::number(rt, text, used, e.received);
    let used = output::number(rt, text, used, e.expiry);
    let used = output::number(rt, text, used, e.ttl);
    let used = bytes(rt, text, used, slot);
    finish(rt, text, used);
}

// Whether a line is of the form `slot K`, of an entry that the table has and a slot that its store has.
fn is_slot(line: &[u8], table: Table) -> bool {
    if !has_arguments(line, 1) || !is_number(line, 1) {
        return false;
    }
    let k = number(line, 1);
    k < table.count as u64 && k < (table.room / SLOT) as u64
}

// `slot K`
fn slot(line: &[u8], table: Table, store: &[u8], rt: &impl Print, text: &mut [u8; 4096]) {
    if !is_slot(line, table) {
        return bad_line(rt, text);
    }
    let k = number(line, 1) as usize;
    whole(
        k,
        console_table::entry_at(table, k),
        cache::entries::slot_of(store, k),
        rt,
        text,
    )
}

// Makes every byte of a store 0.
fn wipe(store: &mut [u8])
    ensures { store.new ≡ replicate (length store.old) 0 }
{
    store.fill(0);
}

// `clear`: the table after it, as large as it was.
#[tactic(auto, unfolding(crate::specs::cache_calls::Lines::after_clear))]
fn clear(
    line: &[u8],
    table: Table,
    store: &mut [u8],
    rt: &impl Print,
    text: &mut [u8; 4096],
) -> Table
    ensures table { result ≡ (after_clear line.now table store.old).table }
    ensures store { store.new ≡ (after_clear line.now table store.old).store }
{
    if !has_arguments(line, 0) {
        bad_line(rt, text);
        return table;
    }
    wipe(store);
    only(rt, text, b"cleared");
    console_table::zeros(table.count, table.room)
}

// Whether a line is of the form `table N` or `table N STORE`, of sizes that there are.
#[tactic(auto, unfolding(crate::specs::cache_calls::Lines::is_table))]
fn is_table(line: &[u8]) -> bool
    ensures { result ≡ is_table line.now }
{
    is_number(line, 1)
        && number(line, 1) <= MOST_ENTRIES as u64
        && (has_arguments(line, 1)
            || has_arguments(line, 2) && is_number(line, 2) && number(line, 2) <= MOST_STORE)
}

// How many bytes the store of a new table has: a slot for each entry where the line does not say.
#[tactic(auto, unfolding(crate::specs::cache_calls::Lines::room_told))]
fn room_told(line: &[u8]) -> usize
    requires { number_at line.now 1 ≤ 513 }
    ensures { result ≡ room_told line.now }
{
    if has_arguments(line, 1) {
        SLOT * number(line, 1) as usize
    } else {
        number(line, 2) as usize
    }
}

// `table N` or `table N STORE`: the table after it.
#[tactic(auto, unfolding(crate::specs::cache_calls::Lines::after_table))]
fn make_table(
    line: &[u8],
    table: Table,
    store: &mut [u8],
    rt: &impl Print,
    text: &mut [u8; 4096],
) -> Table
    ensures table { result ≡ (after_table line.now table store.old).table }
    ensures store { store.new ≡ (after_table line.now table store.old).store }
{
    if !is_table(line) {
        bad_line(rt, text);
        return table;
    }
    let count = number(line, 1) as usize;
    let room = room_told(line);
    wipe(store);
    only(rt, text, b"table");
    console_table::zeros(count, room)
}

// Whether a word is one of these calls.
// by same_bytes: of a pattern of bytes the proof knows their number alone
#[tactic(auto, unfolding(crate::specs::cache_calls::Lines::is_cache_call))]
pub fn is_call(word: &[u8]) -> bool
    ensures { result ≡ is_cache_call word.now }
{
    same_bytes(word, b"put")
        || same_bytes(word, b"look")
        || same_bytes(word, b"slot")
        || same_bytes(word, b"table")
        || same_bytes(word, b"clear")
}

// Answers one of these calls, and tells the table after it. Any other line is a bad one.
#[tactic(auto, unfolding(crate::specs::cache_calls::Lines::cache_after))]
pub fn call(
    line: &[u8],
    table: Table,
    store: &mut [u8],
    rt: &impl Print,
    text: &mut [u8; 4096],
) -> Table
    ensures table { result ≡ (cache_after line.now table store.old).table }
    ensures store { store.new ≡ (cache_after line.now table store.old).store }
{
    let word = field(line, 0);
    if same_bytes(word, b"put") {
        return put(line, table, store, rt, text);
    }
    if same_bytes(word, b"clear") {
        return clear(line, table, store, rt, text);
    }
    if same_bytes(word, b"table") {
        return make_table(line, table, store, rt, text);
    }
    if same_bytes(word, b"look") {
        look(line, table, store, rt, text);
    } else if same_bytes(word, b"slot") {
        slot(line, table, store, rt, text);
    } else {
        bad_line(rt, text);
    }
    table
}
