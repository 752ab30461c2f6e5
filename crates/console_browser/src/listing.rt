// The call `list NOW`: the slots that are listed, each with its target.
use capi_browser::BrowserNumbers;
use console_calls::output::{bad_line, bytes, finish, first, number, only, refused};
use console_table::{MOST_ENTRIES, Table};
use console_text::fields::{has_arguments, is_number};

// Adds ` K TARGET`.
fn row(
    rt: &impl Print,
    text: &mut [u8; 4096],
    used: usize,
    table: Table,
    store: &[u8],
    k: usize,
) -> usize {
    let e = console_table::entry_at(table, k);
    let used = number(rt, text, used, k as u64);
    bytes(
        rt,
        text,
        used,
        wire::rdata::part(cache::entries::slot_of(store, k), 256, e.rdata as usize),
    )
}

// Adds a row for each slot that is listed.
fn rows(
    rt: &impl Print,
    text: &mut [u8; 4096],
    used: usize,
    table: Table,
    store: &[u8],
    b: BrowserNumbers,
    time: u64,
) -> usize {
    let mut taken = used;
    let mut from = 0;
    for _listed in 0..MOST_ENTRIES {
        let listed = crate::lending::list(table, store, b, time, from);
        let k = listed.slot;
        if !listed.found || MOST_ENTRIES <= k {
            return taken;
        }
        taken = row(rt, text, taken, table, store, k);
        from = k + 1;
    }
    taken
}

// Whether a line is of the form `list NOW`.
fn is_list(line: &[u8]) -> bool {
    has_arguments(line, 1) && is_number(line, 1)
}

// `list NOW`
pub fn list(
    line: &[u8],
    held: BrowserNumbers,
    table: Table,
    store: &[u8],
    rt: &impl Print,
    text: &mut [u8; 4096],
) {
    if !is_list(line) {
        return bad_line(rt, text);
    }
    let time = console_text::fields::number(line, 1);
    let listed = crate::lending::list(table, store, held, time, 0);
    if listed.refusal != 0 {
        return refused(rt, text, listed.refusal as u64);
    }
    if !listed.found {
        return only(rt, text, b"list -");
    }
    let used = first(rt, text, b"list");
    let used = rows(rt, text, used, table, store, held, time);
    finish(rt, text, used);
}
