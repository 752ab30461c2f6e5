// Known answers (RFC 6762, 7.1): the live, well-formed PTR entries of the name with more than half their TTL left, with the TTL left.
ghost use Rattle.std.specs.Prelude.{◌≡◌, drop};
ghost use Rattle.cache.specs.entries.Entries.{lesser};
ghost use Rattle.browser.specs.known_answers.Known.{is_known, shown_ttl};
ghost use Rattle.browser.specs.known_answers.Plans.{empty_plan, plan_with, plan_from};

use crate::Browser;
use crate::list::is_shown;
use cache::entries::Entry;

// A known answer: its slot, the bytes of its target, and the TTL that is shown.
#[derive(Clone, Copy)]
pub struct Known {
    pub slot: usize,
    pub len: u32,
    pub ttl: u32,
}

// As many known answers as a packet may have to be filled: each takes at least 12 bytes.
pub const MOST_KNOWN: usize = 121;

// The first known answers from a slot on: the first `n`.
#[derive(Clone, Copy)]
pub struct Plan {
    pub known: [Known; 121],
    pub n: usize,
}

// The greatest TTL: one with its top bit set is read as 0.
pub const MOST_TTL: u64 = 2147483647;

// Whether the entry in slot i is a known answer.
pub(crate) fn is_known(e: Entry, i: usize, store: &[u8], b: Browser, time: u64) -> bool
    ensures { result ≡ is_known time store.now b i e }
{
    time < e.expiry && e.ttl <= (e.expiry - time - 1) / 500 && is_shown(e, i, store, b, time)
}

// The TTL that is shown: what is left, at most that received.
pub(crate) fn shown_ttl(e: Entry, time: u64) -> u32
    ensures { result ≡ shown_ttl time e }
{
    if e.expiry <= time {
        return 0;
    }
    e.ttl.min((e.expiry - time) / 1000).min(MOST_TTL) as u32
}

// No known answer.
pub(crate) fn no_plan() -> Plan
    ensures { result ≡ empty_plan }
{
    Plan {
        known: [Known {
            slot: 0,
            len: 0,
            ttl: 0,
        }; 121],
        n: 0,
    }
}

// With the entry in slot i, if it is a known answer and there is room for it.
pub(crate) fn plan_with(plan: Plan, e: Entry, i: usize, store: &[u8], b: Browser, time: u64) -> Plan
    ensures { result ≡ plan_with time store.now b i e plan }
{
    let n = plan.n;
    if MOST_KNOWN <= n || !is_known(e, i, store, b, time) {
        return plan;
    }
    let mut known = plan.known;
    known[n] = Known {
        slot: i,
        len: e.rdata,
        ttl: shown_ttl(e, time),
    };
    Plan { known, n: n + 1 }
}

// The known answers from a slot on, as many as a packet may have to be filled.
pub(crate) fn gather(table: &[Entry], store: &[u8], b: Browser, time: u64, from: usize) -> Plan
    ensures { result ≡ plan_from time store.now b from (drop from table.now) empty_plan }
{
    let mut plan = no_plan();
    for i in from..table.len() {
        plan = plan_with(plan, table[i], i, store, b, time);
    }
    plan
}
