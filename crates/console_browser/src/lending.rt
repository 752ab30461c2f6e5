// The first entries of the console's table, and the first bytes of its store, lent to the exported browser.
ghost use Rattle.std.specs.Prelude.{◌≡◌, ℕ, List, length};
ghost use Rattle.writer.specs.own_packets.Own.{laid_over};
ghost use Rattle.cache.specs.declared.entries.Entry.{Entry};
ghost use Rattle.browser.specs.Calls.{tick_of, ticked_packet, list_of};
ghost use Rattle.capi_browser.specs.Numbers.{browser_of, ticked_numbers, listed_numbers};
ghost use Rattle.console_table.specs.Table.{lent_entries, lent_bytes};

use capi_browser::{BrowserNumbers, ListedNumbers, TickedNumbers};
use console_table::{MOST_ENTRIES, Table, least};

// Ticks on a table and its store.
pub fn tick(
    table: Table,
    store: &[u8],
    b: BrowserNumbers,
    time: u64,
    out: &mut [u8],
) -> TickedNumbers
    ensures { (let es : List Entry = lent_entries table in
        let bytes : List ℕ = lent_bytes table store.now in
        let room : ℕ = length out.old in
        (result ≡ ticked_numbers (tick_of (browser_of b) time es bytes room))
        × (out.new ≡ laid_over (ticked_packet (browser_of b) time es bytes room) out.old)) }
{
    let n = least(table.count, MOST_ENTRIES);
    let m = least(table.room, store.len());
    capi_browser::kurgashel_browse_tick(&table.entries[..n], &store[..m], b, time, out)
}

// The lowest listed slot of a table and its store, from a slot on.
pub fn list(table: Table, store: &[u8], b: BrowserNumbers, time: u64, from: usize) -> ListedNumbers
    ensures { result ≡ listed_numbers (list_of (browser_of b) time (lent_entries table) (lent_bytes table store.now) from) }
{
    let n = least(table.count, MOST_ENTRIES);
    let m = least(table.room, store.len());
    capi_browser::kurgashel_browse_list(&table.entries[..n], &store[..m], b, time, from)
}
