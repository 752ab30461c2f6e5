// Refresh queries (RFC 6762, 5.2): at 80, 85, 90 and 95 percent of an entry's TTL, plus the second start draw.
ghost use Rattle.std.specs.Prelude.{◌≡◌, ◌≤◌, ◌<◌};
ghost use Rattle.browser.specs.service.Sound.{Sound};
ghost use Rattle.browser.specs.series.Series.{series_at};
ghost use Rattle.browser.specs.refresh.Refresh.{greater, sooner_by, may_ask, sooner, next_query};

use crate::Browser;
use crate::list::is_shown;
use crate::series::series_at;
use cache::entries::Entry;

// Four thresholds, in thousandths of the TTL.
pub const FIRST: u64 = 800;

pub const SECOND: u64 = 850;

pub const THIRD: u64 = 900;

pub const FOURTH: u64 = 950;

// The lesser of a time and that at which a threshold asks for a query. One at or past the expiry asks for none, so that no sum and no product is too great.
fn sooner_by(b: Browser, time: u64, e: Entry, t: u64, part: u64) -> u64
    requires { (b.refresh ≤ 20) × ((part ≤ 950) × (800 ≤ part)) }
    ensures { result ≡ sooner_by b time e t part }
{
    let share = part + b.refresh;
    if e.expiry <= e.received {
        return t;
    }
    if (e.expiry - e.received - 1) / share < e.ttl {
        return t;
    }
    let at = e.received + e.ttl * share;
    if at <= b.query {
        return t;
    }
    if at < time {
        if e.expiry <= time {
            return t;
        }
        if t <= time {
            return t;
        }
        return time;
    }
    if t <= at {
        return t;
    }
    at
}

// Whether the entry in slot i may ask for a query.
fn may_ask(e: Entry, i: usize, store: &[u8], b: Browser, time: u64) -> bool
    ensures { result ≡ may_ask time store.now b i e }
{
    b.count != 0 && is_shown(e, i, store, b, time)
}

// The lesser of a time and that at which the entry in slot i asks for a query.
pub(crate) fn sooner_of(t: u64, e: Entry, i: usize, store: &[u8], b: Browser, time: u64) -> u64
    requires { Sound b }
    ensures { result ≡ sooner time store.now b i e t }
{
    if !may_ask(e, i, store, b, time) {
        return t;
    }
    let first = sooner_by(b, time, e, t, FIRST);
    let second = sooner_by(b, time, e, first, SECOND);
    let third = sooner_by(b, time, e, second, THIRD);
    sooner_by(b, time, e, third, FOURTH)
}

// The next query of the series, not before now.
pub(crate) fn series_from(b: Browser, time: u64) -> u64
    requires { Sound b }
    ensures { result ≡ greater (series_at b) time }
{
    series_at(b).max(time)
}

// The next query from now on, with the table as it is: one of the series, or one that an entry asks for.
pub(crate) fn next_query(table: &[Entry], store: &[u8], b: Browser, time: u64) -> u64
    requires { Sound b }
    ensures { result ≡ next_query time store.now b table.now }
{
    let mut t = series_from(b, time);
    for (i, e) in table.iter().enumerate() {
        t = sooner_of(t, *e, i, store, b, time);
    }
    t
}
