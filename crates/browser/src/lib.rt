// A continuous querier for one service name (RFC 6762, 5.2, 7.1, 7.2): start, tick on the lent cache, and the list of what is there. A browser is a state by
// value that keeps what happened and no far deadline; receiving is the cache's.
#![tactic(auto)]

pub mod known_answers;
pub mod list;
pub mod query;
pub mod refresh;
pub mod series;
pub mod service;

ghost use Rattle.std.specs.Prelude.{◌≡◌, ◌||◌, ◌≤◌, length};
ghost use Rattle.wire.specs.refusals.Numbers.{number_in, refused_by};
ghost use Rattle.browser.specs.service.Sound.{Sound};
ghost use Rattle.browser.specs.Calls.{refusal_of, is_owed, blank, wrong_draws, wrong_browser, wrong_time, start_tests, start_refusal};
ghost use Rattle.browser.specs.Calls.{start_of, Ticks, resumed, asked, due_of, look_refusal};
ghost use Rattle.browser.specs.Steps.{tick_tests_with, look_tests_with, look_refusal_with, owed_start, asked_start, Ends, refused_tick, due_with};

use crate::known_answers::Plan;
use crate::series::{count_one, series_at};
use crate::service::labels_right;
use cache::entries::Entry;
use cache::lookup::is_store_of;
use capi_cache::table_refusal;
use claims::refusal_tests::{LAST_KEPT, LAST_TIME, start_time_refused};
use own::records::Service;
use wire::refusals::Refusal;
use writer::own_packets::LEAST_OUT;

// A browser: the service label, the protocol and the domain as in a set-up; the two start draws; when the last query of the series was sent, or, before the
// first, the start, and how many of the series were sent, counted up to 13; when the last query of either kind was sent; the slot from which on a truncated
// query still owes known answers; and the time of the last call. Times are in milliseconds.
#[derive(Clone, Copy)]
pub struct Browser {
    pub service: Service,
    pub protocol: [u8; 4],
    pub domain: [u8; 5],
    pub draw: u64,
    pub refresh: u64,
    pub series: u64,
    pub count: u64,
    pub query: u64,
    pub owed: Option<usize>,
    pub last: u64,
}

// What a call answers: its refusal, that it sends nothing, or the length of the packet that it wrote.
#[derive(Clone, Copy)]
pub enum Answer {
    Refused(Refusal),
    Quiet,
    Sent(usize),
}

#[derive(Clone, Copy)]
pub struct Started {
    pub answer: Answer,
    pub browser: Browser,
}

// A tick also says whether more is due at that time.
#[derive(Clone, Copy)]
pub struct Ticked {
    pub answer: Answer,
    pub more: bool,
    pub browser: Browser,
}

// The draws: that of the first query, 20..120 ms, and that of the refresh queries, 0..20 thousandths.
pub const LEAST_DRAW: u64 = 20;

pub const MOST_DRAW: u64 = 120;

pub const MOST_REFRESH: u64 = 20;

// No slot of any table.
const NO_SLOT: usize = 18446744073709551615;

// The state of a refused start. Every tick refuses it with 7.
pub fn blank_browser() -> Browser
    ensures { result ≡ blank }
{
    Browser {
        service: Service {
            bytes: [0; 16],
            len: 0,
        },
        protocol: [0; 4],
        domain: [0; 5],
        draw: 0,
        refresh: 0,
        series: 0,
        count: 0,
        query: 0,
        owed: None,
        last: 0,
    }
}

// Refusal 2 of a start, and 7 of a state: a draw is outside.
fn draws_refused(draw: u64, refresh: u64) -> bool
    ensures { result ≡ wrong_draws draw refresh }
{
    draw < LEAST_DRAW || MOST_DRAW < draw || MOST_REFRESH < refresh
}

// The refusal of a start, if it is refused.
fn start_refusal(
    service: Service,
    protocol: [u8; 4],
    domain: [u8; 5],
    time: u64,
    draw: u64,
    refresh: u64,
) -> Result<(), Refusal>
    ensures { result ≡ refused_by (start_tests service protocol domain time draw refresh) }
{
    if start_time_refused(time) {
        return Err(Refusal::Time);
    }
    if draws_refused(draw, refresh) {
        return Err(Refusal::Draw);
    }
    if !labels_right(service, protocol, domain) {
        return Err(Refusal::Setup);
    }
    Ok(())
}

// Begins a browser, whose first query waits for the draw.
pub fn start(
    service: Service,
    protocol: [u8; 4],
    domain: [u8; 5],
    time: u64,
    draw: u64,
    refresh: u64,
) -> Started
    ensures answer { result ≡ start_of service protocol domain time draw refresh }
    ensures number { refusal_of result.answer ≡ start_refusal service protocol domain time draw refresh }
{
    if let Err(refusal) = start_refusal(service, protocol, domain, time, draw, refresh) {
        return Started {
            answer: Answer::Refused(refusal),
            browser: blank_browser(),
        };
    }
    Started {
        answer: Answer::Quiet,
        browser: Browser {
            service,
            protocol,
            domain,
            draw,
            refresh,
            series: time,
            count: 0,
            query: time,
            owed: None,
            last: time,
        },
    }
}

// Refusal 7: the labels break the rules, or a kept draw is outside.
fn browser_refused(b: Browser) -> bool
    ensures { result ≡ wrong_browser b }
{
    !labels_right(b.service, b.protocol, b.domain) || draws_refused(b.draw, b.refresh)
}

// Refusal 1: the time is too late or before the last call's, or a kept time is too late.
fn time_refused(b: Browser, time: u64) -> bool
    ensures { result ≡ wrong_time b time }
{
    LAST_TIME < time
        || time < b.last
        || LAST_KEPT < b.last
        || LAST_KEPT < b.series
        || LAST_KEPT < b.query
}

// The refusal of a tick, if it is refused, where `entries` is the number of that of its table of n entries, and `room` the bytes of its buffer.
fn tick_refusal(
    entries: u8,
    n: usize,
    store: &[u8],
    b: Browser,
    time: u64,
    room: usize,
) -> Result<(), Refusal>
    ensures { result ≡ refused_by (tick_tests_with entries n (length store.now) b time room) }
{
    if time_refused(b, time) || entries == Refusal::Time.number() {
        return Err(Refusal::Time);
    }
    if room < LEAST_OUT {
        return Err(Refusal::Buffer);
    }
    if entries != 0 || !is_store_of(n, store.len()) {
        return Err(Refusal::Table);
    }
    if browser_refused(b) {
        return Err(Refusal::Setup);
    }
    Ok(())
}

// The refusal of a list and of the next due time, if they are refused.
pub(crate) fn look_refusal(
    entries: u8,
    n: usize,
    store: &[u8],
    b: Browser,
    time: u64,
) -> Result<(), Refusal>
    ensures answer { result ≡ refused_by (look_tests_with entries n (length store.now) b time) }
    ensures number { number_in result ≡ look_refusal_with entries n (length store.now) b time }
{
    tick_refusal(entries, n, store, b, time, LEAST_OUT)
}

// The slot from which on known answers are gathered: that from which on some are owed, or one behind every table.
fn owed_start(b: Browser) -> usize
    ensures { result ≡ owed_start b }
{
    b.owed.unwrap_or(NO_SLOT)
}

// For a query: the first where one is to be sent now, or one behind every table.
fn asked_start(owed: Plan, next: u64, time: u64) -> usize
    ensures { result ≡ asked_start owed.n next time }
{
    if 0 < owed.n || time < next {
        NO_SLOT
    } else {
        0
    }
}

// A browser after a tick that sends no query.
fn resume(b: Browser, time: u64, owed: Option<usize>) -> Browser
    ensures { result ≡ resumed b time owed }
{
    Browser {
        owed,
        last: time,
        ..b
    }
}

// A browser after a tick that sends a query.
fn ask(b: Browser, time: u64, owed: Option<usize>) -> Browser
    requires { Sound b }
    ensures { result ≡ asked b time owed }
{
    if time < series_at(b) {
        return Browser {
            query: time,
            owed,
            last: time,
            ..b
        };
    }
    Browser {
        series: time,
        count: count_one(b.count),
        query: time,
        owed,
        last: time,
        ..b
    }
}

fn refused_tick(refusal: Refusal, b: Browser) -> Ticked
    ensures { result ≡ refused_tick refusal b }
{
    Ticked {
        answer: Answer::Refused(refusal),
        more: false,
        browser: b,
    }
}

// The next due time, where that of the next query is `next`: what is owed is due now.
fn due_at(b: Browser, time: u64, next: u64) -> u64
    ensures { result ≡ due_with b time next }
{
    if b.owed.is_some() { time } else { next }
}

// Whether more is due: something is owed, or a query is due.
fn is_more(owed: Option<usize>, asks: bool) -> bool
    ensures { result ≡ (is_owed owed || asks) }
{
    owed.is_some() || asks
}

// What is sent of what is owed, or else of what is known where a query is due, and the browser then.
fn finish(
    b: Browser,
    store: &[u8],
    time: u64,
    next: u64,
    owed: Plan,
    known: Plan,
    out: &mut [u8],
) -> Ticked
    requires { Sound b × (1452 ≤ length out.old) }
    ensures { Ends b time store.now next owed known out.old result out.new }
{
    if 0 < owed.n {
        let w = crate::query::write(b, false, owed, store, out);
        let stop = crate::query::stop_at(owed, w.answers);
        return Ticked {
            answer: Answer::Sent(w.end),
            more: is_more(stop, next <= time),
            browser: resume(b, time, stop),
        };
    }
    if time < next {
        return Ticked {
            answer: Answer::Quiet,
            more: false,
            browser: resume(b, time, None),
        };
    }
    let w = crate::query::write(b, true, known, store, out);
    let stop = crate::query::stop_at(known, w.answers);
    Ticked {
        answer: Answer::Sent(w.end),
        more: is_more(stop, false),
        browser: ask(b, time, stop),
    }
}

// Sends what is due: known answers that a truncated query still owes, or a query. At most one packet is written, into `out`.
pub fn tick(table: &[Entry], store: &[u8], b: Browser, time: u64, out: &mut [u8]) -> Ticked
    ensures { Ticks b time table.now store.now out.old result out.new }
{
    let entries = table_refusal(table, time);
    if let Err(refusal) = tick_refusal(entries, table.len(), store, b, time, out.len()) {
        return refused_tick(refusal, b);
    }
    let owed = crate::known_answers::gather(table, store, b, time, owed_start(b));
    let next = crate::refresh::next_query(table, store, b, time);
    let known = crate::known_answers::gather(table, store, b, time, asked_start(owed, next, time));
    finish(b, store, time, next, owed, known, out)
}

// When the next step is due, with the table as it is: a caller that ticks then, and whenever the table has changed, misses none.
pub fn due(table: &[Entry], store: &[u8], b: Browser, time: u64) -> Result<u64, Refusal>
    ensures answer { result ≡ due_of b time table.now store.now }
    ensures number { number_in result ≡ look_refusal b time table.now store.now }
{
    let entries = table_refusal(table, time);
    look_refusal(entries, table.len(), store, b, time)?;
    Ok(due_at(b, time, crate::refresh::next_query(table, store, b, time)))
}
