// The list: the targets of live, well-formed PTR entries of the name, each once with letters folded, lowest entry first.
ghost use Rattle.std.specs.Prelude.{◌≡◌, ◌&&◌, not};
ghost use Rattle.wire.specs.refusals.Numbers.{number_in};
ghost use Rattle.browser.specs.list.Listing.{is_shown, shows_too, is_listed};
ghost use Rattle.browser.specs.Calls.{list_of, look_refusal};

use crate::service::service_name;
use crate::{Browser, look_refusal};
use cache::entries::{Entry, is_live, is_of, slot_of};
use capi_cache::{entry_or_blank, table_refusal};
use wire::case_folding::same_name;
use wire::names::is_name;
use wire::rdata::{PTR, part};
use wire::refusals::Refusal;

// Whether the entry in slot i is a live, well-formed PTR entry of the name.
pub(crate) fn is_shown(e: Entry, i: usize, store: &[u8], b: Browser, time: u64) -> bool
    ensures { result ≡ is_shown time store.now b i e }
{
    if !is_live(e, time) || e.rtype != PTR {
        return false;
    }
    let name = service_name(b);
    is_of(e, i, store, &name.bytes[..name.len], PTR)
        && is_name(part(slot_of(store, i), 256, e.rdata as usize))
}

// Whether the entry d in slot j shows the target of the entry e in slot i.
fn shows_too(d: Entry, j: usize, e: Entry, i: usize, store: &[u8], b: Browser, time: u64) -> bool
    ensures { result ≡ shows_too time store.now b i e j d }
{
    is_shown(d, j, store, b, time)
        && same_name(
            part(slot_of(store, j), 256, d.rdata as usize),
            part(slot_of(store, i), 256, e.rdata as usize),
        )
}

// Whether the entry e in slot i is listed still, after the entry d in slot j below it.
pub(crate) fn stays_listed(
    listed: bool,
    d: Entry,
    j: usize,
    e: Entry,
    i: usize,
    store: &[u8],
    b: Browser,
    time: u64,
) -> bool
    ensures { result ≡ (listed && not (shows_too time store.now b i e j d)) }
{
    listed && !shows_too(d, j, e, i, store, b, time)
}

// Whether slot i is listed.
pub(crate) fn is_listed(table: &[Entry], store: &[u8], b: Browser, time: u64, i: usize) -> bool
    ensures { result ≡ is_listed time store.now b table.now i }
{
    let e = entry_or_blank(table, i);
    let mut listed = is_shown(e, i, store, b, time);
    for j in 0..i {
        let d = entry_or_blank(table, j);
        listed = stays_listed(listed, d, j, e, i, store, b, time);
    }
    listed
}

// The lowest listed slot from a slot on, if there is one. Who asks from 0 on, and then each time from the slot behind the last, gets the list; the target is
// the rdata in the slot. Nothing is written.
pub fn list(
    table: &[Entry],
    store: &[u8],
    b: Browser,
    time: u64,
    from: usize,
) -> Result<Option<usize>, Refusal>
    ensures answer { result ≡ list_of b time table.now store.now from }
    ensures number { number_in result ≡ look_refusal b time table.now store.now }
{
    let n = table.len();
    let entries = table_refusal(table, time);
    look_refusal(entries, n, store, b, time)?;
    for i in from..n {
        if is_listed(table, store, b, time, i) {
            return Ok(Some(i));
        }
    }
    Ok(None)
}
