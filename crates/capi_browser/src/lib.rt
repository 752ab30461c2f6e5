// The browser for C and Rust: start, tick, the list and the next due time, on a state by value and a lent cache, with the answers in numbers.
// c/include/kurgashel.h declares these functions.
#![tactic(auto)]

ghost use Rattle.std.specs.Prelude.{◌≡◌, ℕ, List, length};
ghost use Rattle.cache.specs.declared.entries.Entry.{Entry};
ghost use Rattle.writer.specs.own_packets.Own.{laid_over};
ghost use Rattle.browser.specs.Calls.{refusal_of, length_of, start_of, tick_of, ticked_packet, list_of, due_of};
ghost use Rattle.capi_browser.specs.Numbers.{owed_of, owed_number, browser_of, numbers_of, started_numbers, ticked_numbers, listed_numbers, due_numbers};
ghost use Rattle.capi_browser.specs.Labels.{service_of, exactly};

use browser::{Answer, Browser, Started, Ticked};
use cache::entries::Entry;
use own::records::Service;
use wire::refusals::Refusal;

// A browser's state in numbers: its labels, the length of the service label, and what `browser::Browser` keeps; `owed` is 0 for nothing, and else the slot
// from which on known answers are owed, plus 1.
#[repr(C)]
#[derive(Clone, Copy)]
pub struct BrowserNumbers {
    pub service: [u8; 16],
    pub protocol: [u8; 4],
    pub domain: [u8; 5],
    pub len: u64,
    pub draw: u64,
    pub refresh: u64,
    pub series: u64,
    pub count: u64,
    pub query: u64,
    pub owed: u64,
    pub last: u64,
}

// What a start answers: the specification's refusal number, or 0, and the browser.
#[repr(C)]
#[derive(Clone, Copy)]
pub struct StartedNumbers {
    pub refusal: u8,
    pub browser: BrowserNumbers,
}

// What a tick answers: a refusal or 0; whether more is due; the length of the packet that goes to all, or 0; and the browser then.
#[repr(C)]
#[derive(Clone, Copy)]
pub struct TickedNumbers {
    pub refusal: u8,
    pub more: bool,
    pub length: usize,
    pub browser: BrowserNumbers,
}

// A refusal or 0; whether a slot is listed, and which.
#[repr(C)]
#[derive(Clone, Copy)]
pub struct ListedNumbers {
    pub refusal: u8,
    pub found: bool,
    pub slot: usize,
}

// A refusal or 0; and when the next step is due.
#[repr(C)]
#[derive(Clone, Copy)]
pub struct DueNumbers {
    pub refusal: u8,
    pub time: u64,
}

// From which slot on known answers are owed, in a number and back.
fn owed_of(n: u64) -> Option<usize>
    ensures { result ≡ owed_of n }
{
    if n == 0 { None } else { Some((n - 1) as usize) }
}

fn owed_number(owed: Option<usize>) -> u64
    ensures { result ≡ owed_number owed }
{
    match owed {
        Some(i) => (i as u64).saturating_add(1),
        None => 0,
    }
}

// A browser of its numbers, and its numbers.
fn browser_of(b: BrowserNumbers) -> Browser
    ensures { result ≡ browser_of b }
{
    let bytes = b.service;
    let protocol = b.protocol;
    let domain = b.domain;
    Browser {
        service: Service {
            bytes,
            len: b.len as usize,
        },
        protocol,
        domain,
        draw: b.draw,
        refresh: b.refresh,
        series: b.series,
        count: b.count,
        query: b.query,
        owed: owed_of(b.owed),
        last: b.last,
    }
}

fn numbers_of(b: Browser) -> BrowserNumbers
    ensures { result ≡ numbers_of b }
{
    let label = b.service;
    let service = label.bytes;
    let protocol = b.protocol;
    let domain = b.domain;
    let owed = b.owed;
    BrowserNumbers {
        service,
        protocol,
        domain,
        len: label.len as u64,
        draw: b.draw,
        refresh: b.refresh,
        series: b.series,
        count: b.count,
        query: b.query,
        owed: owed_number(owed),
        last: b.last,
    }
}

fn refusal_of(answer: Answer) -> u8
    ensures { result ≡ refusal_of answer }
{
    match answer {
        Answer::Refused(refusal) => refusal.number(),
        Answer::Quiet => 0,
        Answer::Sent(_) => 0,
    }
}

fn length_of(answer: Answer) -> usize
    ensures { result ≡ length_of answer }
{
    match answer {
        Answer::Refused(_) => 0,
        Answer::Quiet => 0,
        Answer::Sent(length) => length,
    }
}

// The answers in numbers.
fn started_numbers(started: Started) -> StartedNumbers
    ensures { result ≡ started_numbers started }
{
    let answer = started.answer;
    let browser = started.browser;
    StartedNumbers {
        refusal: refusal_of(answer),
        browser: numbers_of(browser),
    }
}

fn ticked_numbers(ticked: Ticked) -> TickedNumbers
    ensures { result ≡ ticked_numbers ticked }
{
    let answer = ticked.answer;
    let browser = ticked.browser;
    TickedNumbers {
        refusal: refusal_of(answer),
        more: ticked.more,
        length: length_of(answer),
        browser: numbers_of(browser),
    }
}

fn listed_numbers(listed: Result<Option<usize>, Refusal>) -> ListedNumbers
    ensures { result ≡ listed_numbers listed }
{
    match listed {
        Ok(Some(slot)) => ListedNumbers {
            refusal: 0,
            found: true,
            slot,
        },
        Ok(None) => ListedNumbers {
            refusal: 0,
            found: false,
            slot: 0,
        },
        Err(refusal) => ListedNumbers {
            refusal: refusal.number(),
            found: false,
            slot: 0,
        },
    }
}

fn due_numbers(due: Result<u64, Refusal>) -> DueNumbers
    ensures { result ≡ due_numbers due }
{
    let (refusal, time) = match due {
        Ok(time) => (0, time),
        Err(refusal) => (refusal.number(), 0),
    };
    DueNumbers { refusal, time }
}

// A service label of some bytes. More than there is room for keep their length, by which no browser has them.
fn service_of(label: &[u8]) -> Service
    ensures { result ≡ service_of label.now }
{
    let mut bytes = [0u8; 16];
    wire::buffer::put(&mut bytes, 0, label);
    Service {
        bytes,
        len: label.len(),
    }
}

// The labels of one length: zeros, which are no such label, where there are more bytes or fewer.
fn protocol_of(label: &[u8]) -> [u8; 4]
    ensures { result ≡ exactly 4 label.now }
{
    let mut bytes = [0u8; 4];
    if label.len() != 4 {
        return bytes;
    }
    wire::buffer::put(&mut bytes, 0, label);
    bytes
}

fn domain_of(label: &[u8]) -> [u8; 5]
    ensures { result ≡ exactly 5 label.now }
{
    let mut bytes = [0u8; 5];
    if label.len() != 5 {
        return bytes;
    }
    wire::buffer::put(&mut bytes, 0, label);
    bytes
}

// Begins a browser for a service.
pub fn kurgashel_browse_start(
    service: &[u8],
    protocol: &[u8],
    domain: &[u8],
    time: u64,
    draw: u64,
    refresh: u64,
) -> StartedNumbers
    ensures { result ≡ started_numbers (start_of (service_of service.now) (exactly 4 protocol.now) (exactly 5 domain.now)
        time draw refresh) }
{
    started_numbers(browser::start(
        service_of(service),
        protocol_of(protocol),
        domain_of(domain),
        time,
        draw,
        refresh,
    ))
}

// Sends what is due, at most one packet, into `out`.
pub fn kurgashel_browse_tick(
    table: &[Entry],
    store: &[u8],
    browser: BrowserNumbers,
    time: u64,
    out: &mut [u8],
) -> TickedNumbers
    ensures { (let es : List Entry = table.now in
        let bytes : List ℕ = store.now in
        let room : ℕ = length out.old in
        (result ≡ ticked_numbers (tick_of (browser_of browser) time es bytes room))
        × (out.new ≡ laid_over (ticked_packet (browser_of browser) time es bytes room) out.old)) }
{
    let b = browser_of(browser);
    let ticked = browser::tick(table, store, b, time, out);
    ticked_numbers(ticked)
}

// The lowest listed slot from a slot on.
pub fn kurgashel_browse_list(
    table: &[Entry],
    store: &[u8],
    browser: BrowserNumbers,
    time: u64,
    from: usize,
) -> ListedNumbers
    ensures { result ≡ listed_numbers (list_of (browser_of browser) time table.now store.now from) }
{
    let b = browser_of(browser);
    let listed = browser::list::list(table, store, b, time, from);
    listed_numbers(listed)
}

// When the next step is due, with the table as it is.
pub fn kurgashel_browse_due(
    table: &[Entry],
    store: &[u8],
    browser: BrowserNumbers,
    time: u64,
) -> DueNumbers
    ensures { result ≡ due_numbers (due_of (browser_of browser) time table.now store.now) }
{
    let b = browser_of(browser);
    let due = browser::due(table, store, b, time);
    due_numbers(due)
}
