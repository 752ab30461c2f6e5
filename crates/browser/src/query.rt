// The packets of a browser (RFC 6762, 7.1, 7.2): the question and known answers until one would pass 1,452 bytes. A packet is composed in a buffer of its own
// and then laid over the lent one, so that bytes beyond it are kept.
ghost use Rattle.std.specs.Prelude.{◌≡◌, cond, ◌||◌, ◌+◌, ◌≤◌, ◌<◌, length, take, ltb};
ghost use Rattle.browser.specs.service.Sound.{Sound};
ghost use Rattle.browser.specs.known_answers.Plans.{planned};
ghost use Rattle.writer.specs.Writer.{held_in, spot_of};
ghost use Rattle.browser.specs.query.Drafts.{no_header, head_bytes, opened, records_of, stop_at, record_in, Composing, Puts, Holds, Composes, Writes};

use crate::Browser;
use crate::known_answers::{Known, MOST_KNOWN, Plan};
use writer::Spot;

// The most bytes of a packet.
pub const MOST_PACKET: usize = 1452;

// What is composed: where it ends, and how many known answers are in it.
#[derive(Clone, Copy)]
pub struct Draft {
    pub end: usize,
    pub answers: usize,
}

// How many known answers a plan has.
fn known_count(plan: Plan) -> usize
    ensures { result ≡ length (planned plan) }
{
    plan.n.min(MOST_KNOWN)
}

// The slot of the first known answer of a plan behind the first k.
pub(crate) fn stop_at(plan: Plan, k: usize) -> Option<usize>
    ensures { result ≡ stop_at plan k }
{
    if k < known_count(plan) {
        let known = plan.known;
        let first = known[k];
        return Some(first.slot);
    }
    None
}

// Writes the question, if one is asked, behind room for a header.
fn open(b: Browser, asks: bool, out: &mut [u8], places: &mut [usize]) -> Spot
    requires { Sound b × Holds no_header (spot_of 12 0) out.old places.old }
    ensures { Holds (opened asks b) result out.new places.new }
{
    if !asks {
        return Spot { end: 12, count: 0 };
    }
    let name = crate::service::service_name(b);
    let bytes = name.bytes;
    let len = name.len;
    match writer::put_question(out, 12, places, 0, &bytes[..len], wire::rdata::PTR, 1) {
        Ok(spot) => spot,
        Err(_) => Spot { end: 12, count: 0 },
    }
}

// Writes a known answer behind the packet `out[..at.end]`, unless it would pass 1,452 bytes: where the packet ends then.
fn put_known(
    store: &[u8],
    len: usize,
    k: Known,
    at: Spot,
    out: &mut [u8],
    places: &mut [usize],
) -> Option<Spot>
    requires { Composing at out.old places.old }
    ensures { Puts (held_in out.old places.old at.end at.count) (record_in store.now len k) at result
        out.new places.new }
{
    let slot = cache::entries::slot_of(store, k.slot);
    let owner = wire::rdata::part(slot, 0, len);
    let target = wire::rdata::part(slot, 256, k.len as usize);
    let Ok(spot) = writer::put_record(
        out,
        at.end,
        places,
        at.count,
        false,
        owner,
        wire::rdata::PTR,
        1,
        k.ttl,
        target,
    ) else {
        return None;
    };
    if spot.end <= MOST_PACKET {
        Some(spot)
    } else {
        None
    }
}

// Writes known answers behind the packet `out[..first.end]`, until one would pass 1,452 bytes.
fn compose(
    b: Browser,
    plan: Plan,
    store: &[u8],
    first: Spot,
    out: &mut [u8],
    places: &mut [usize],
) -> Draft
    requires { Composing first out.old places.old }
    ensures { Composes (held_in out.old places.old first.end first.count) (records_of store.now b plan) result
        out.new }
{
    let name = crate::service::service_name(b);
    let len = name.len;
    let known = plan.known;
    let n = known_count(plan);
    let mut at = first;
    for j in 0..n {
        let Some(spot) = put_known(store, len, known[j], at, out, places) else {
            return Draft {
                end: at.end,
                answers: j,
            };
        };
        at = spot;
    }
    Draft {
        end: at.end,
        answers: n,
    }
}

// A number where a test holds, else 0.
fn only_if(test: bool, v: u8) -> u8
    ensures { result ≡ cond test v 0 }
{
    if test {
        return v;
    }
    0
}

// The header of a query: the TC bit where it is truncated, and the counts.
fn head(asks: bool, answers: usize, truncated: bool) -> [u8; 12]
    requires { answers < 65536 }
    ensures { result ≡ head_bytes asks answers truncated }
{
    let flags = only_if(truncated, 2);
    let questions = only_if(asks, 1);
    let high = (answers / 256) as u8;
    let low = (answers % 256) as u8;
    [0, 0, flags, 0, 0, questions, high, low, 0, 0, 0, 0]
}

// Writes the known answers of a plan into `out`, behind a question or without one.
pub(crate) fn write(b: Browser, asks: bool, plan: Plan, store: &[u8], out: &mut [u8]) -> Draft
    requires { Sound b × (1452 ≤ length out.old) }
    ensures { Writes asks b store.now plan out.old result out.new }
{
    let mut draft = [0u8; 2048];
    let mut places = [0usize; 2048];
    let first = open(b, asks, &mut draft, &mut places);
    let d = compose(b, plan, store, first, &mut draft, &mut places);
    let answers = d.answers;
    let end = d.end;
    let header = head(asks, answers, answers < known_count(plan));
    wire::buffer::put(&mut draft, 0, &header);
    wire::buffer::put(out, 0, &draft[..end]);
    d
}
