// The browser for C: each function calls the one of the same name in `capi_browser`, with the same clauses. c/include/kurgashel.h declares them.
#![tactic(auto)]

ghost use Rattle.std.specs.Prelude.{◌≡◌, ℕ, List, length};
ghost use Rattle.browser.specs.Calls.{start_of, tick_of, ticked_packet, list_of, due_of};
ghost use Rattle.capi_browser.specs.Numbers.{started_numbers, browser_of, ticked_numbers, listed_numbers, due_numbers};
ghost use Rattle.capi_browser.specs.Labels.{service_of, exactly};
ghost use Rattle.cache.specs.declared.entries.Entry.{Entry};
ghost use Rattle.writer.specs.own_packets.Own.{laid_over};

use cache::entries::Entry;
use capi_browser::{BrowserNumbers, DueNumbers, ListedNumbers, StartedNumbers, TickedNumbers};

// Begins a browser for a service.
#[unsafe(no_mangle)]
pub extern "C" fn kurgashel_browse_start(
    service: &[u8],
    protocol: &[u8],
    domain: &[u8],
    time: u64,
    draw: u64,
    refresh: u64,
) -> StartedNumbers
    ensures { result ≡ started_numbers (start_of (service_of service.now) (exactly 4 protocol.now) (exactly 5 domain.now)
        time draw refresh) }
{
    capi_browser::kurgashel_browse_start(service, protocol, domain, time, draw, refresh)
}

// Sends what is due, at most one packet, into `out`.
#[unsafe(no_mangle)]
pub extern "C" fn kurgashel_browse_tick(
    table: &[Entry],
    store: &[u8],
    browser: BrowserNumbers,
    time: u64,
    out: &mut [u8],
) -> TickedNumbers
    ensures { (let es : List Entry = table.now in
        let bytes : List ℕ = store.now in
        let room : ℕ = length out.old in
        (result ≡ ticked_numbers (tick_of (browser_of browser) time es bytes room))
        × (out.new ≡ laid_over (ticked_packet (browser_of browser) time es bytes room) out.old)) }
{
    capi_browser::kurgashel_browse_tick(table, store, browser, time, out)
}

// The lowest listed slot from a slot on.
#[unsafe(no_mangle)]
pub extern "C" fn kurgashel_browse_list(
    table: &[Entry],
    store: &[u8],
    browser: BrowserNumbers,
    time: u64,
    from: usize,
) -> ListedNumbers
    ensures { result ≡ listed_numbers (list_of (browser_of browser) time table.now store.now from) }
{
    capi_browser::kurgashel_browse_list(table, store, browser, time, from)
}

// When the next step is due, with the table as it is.
#[unsafe(no_mangle)]
pub extern "C" fn kurgashel_browse_due(
    table: &[Entry],
    store: &[u8],
    browser: BrowserNumbers,
    time: u64,
) -> DueNumbers
    ensures { result ≡ due_numbers (due_of (browser_of browser) time table.now store.now) }
{
    capi_browser::kurgashel_browse_due(table, store, browser, time)
}
