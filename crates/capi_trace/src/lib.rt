// Traces for C and Rust, on byte slices, with answers in numbers: reading a trace event by event, testing it as a whole, and writing it event by event.
// c/include/kurgashel.h declares the functions.
#![tactic(auto)]

ghost use Rattle.std.specs.Prelude.{◌≡◌, length};
ghost use Rattle.std.proofs.lemmas.List.Edits.{sets};
ghost use Rattle.trace.specs.reading.Reading.{step_at};
ghost use Rattle.trace.specs.reading.Events.{data_at, check_of};
ghost use Rattle.capi_trace.specs.Numbers.{event_of, no_event, step_of, checked_of, told_by, written_of, written_by, out_by};

use claims::holds::Address;
use trace::reading::Event;
use trace::writing::Unwritten;
use wire::refusals::Refusal;

// An event of a trace: 12 or 0; the kind of its record, 0 at the trace's end or where it is refused; the offset behind it, or that of the refusal; the time; of
// a packet the halves of its source address, its port and draws; of an update the port; the claim and its state; and how many bytes it brings.
#[repr(C)]
#[derive(Clone, Copy)]
pub struct TraceEvent {
    pub refusal: u8,
    pub kind: u8,
    pub at: usize,
    pub time: u64,
    pub high: u64,
    pub low: u64,
    pub port: u64,
    pub draw: u64,
    pub hold: u64,
    pub claim: u64,
    pub state: u64,
    pub length: usize,
}

// Whether a trace is read, or an event is written: the specification's refusal number, or 0; and the offset of the refusal, or that behind the event.
#[repr(C)]
#[derive(Clone, Copy)]
pub struct TraceAnswer {
    pub refusal: u8,
    pub at: usize,
}

// An event of no kind: the trace's end, or its refusal.
// By a number: it goes into a struct that C reads.
fn no_event(refusal: u8, at: usize) -> TraceEvent
    ensures { result ≡ no_event refusal at }
{
    TraceEvent {
        refusal,
        kind: 0,
        at,
        time: 0,
        high: 0,
        low: 0,
        port: 0,
        draw: 0,
        hold: 0,
        claim: 0,
        state: 0,
        length: 0,
    }
}

// The numbers of an event that brings so many bytes, with the offset behind it.
fn event_of(event: Event, at: usize, length: usize) -> TraceEvent
    ensures { result ≡ event_of event at length }
{
    let none = no_event(0, at);
    match event {
        Event::Tick(time) => TraceEvent {
            kind: 1,
            time,
            length,
            ..none
        },
        Event::Packet {
            time,
            from,
            port,
            draw,
            hold,
        } => TraceEvent {
            kind: 2,
            time,
            high: from.high,
            low: from.low,
            port,
            draw,
            hold,
            length,
            ..none
        },
        Event::Claim { last, claim, state } => TraceEvent {
            kind: 4,
            time: last,
            claim,
            state,
            length,
            ..none
        },
        Event::Stop(time) => TraceEvent {
            kind: 6,
            time,
            length,
            ..none
        },
        Event::Port { time, port } => TraceEvent {
            kind: 7,
            time,
            port,
            length,
            ..none
        },
        Event::Txt(time) => TraceEvent {
            kind: 8,
            time,
            length,
            ..none
        },
    }
}

// The event at an offset, which is the trace's start or the offset behind another event.
pub fn kurgashel_trace_next(trace: &[u8], at: usize) -> TraceEvent
    ensures { result ≡ step_of at (step_at trace.now at) }
{
    match trace::reading::next(trace, at) {
        Ok(Some(entry)) => event_of(entry.event, entry.next, entry.len),
        Ok(None) => no_event(0, at),
        Err(refused) => no_event(Refusal::Trace.number(), refused.at),
    }
}

// Lays the bytes that the event at an offset brings over the start of a buffer, as far as it goes, and tells how many they are.
pub fn kurgashel_trace_bytes<'t, 'o>(trace: &'t [u8], at: usize, out: &'o mut [u8]) -> usize
    ensures length { result ≡ length (data_at trace.now at) }
    ensures out { out.new ≡ sets out.old 0 (data_at trace.now at) }
{
    trace::reading::bytes(trace, at, out)
}

// Whether a whole trace is read.
pub fn kurgashel_trace_check(trace: &[u8]) -> TraceAnswer
    ensures { result ≡ checked_of (check_of trace.now) (length trace.now) }
{
    match trace::reading::check(trace) {
        Ok(()) => TraceAnswer {
            refusal: 0,
            at: trace.len(),
        },
        Err(refused) => TraceAnswer {
            refusal: Refusal::Trace.number(),
            at: refused.at,
        },
    }
}

// The event of a kind with its numbers, none for a kind that there is not.
// By numbers: they are what C hands in.
fn told_by(
    kind: u8,
    time: u64,
    high: u64,
    low: u64,
    port: u64,
    draw: u64,
    hold: u64,
    claim: u64,
    state: u64,
) -> Option<Event>
    ensures { result ≡ told_by kind time high low port draw hold claim state }
{
    match kind {
        1 => Some(Event::Tick(time)),
        2 => Some(Event::Packet {
            time,
            from: Address { high, low },
            port,
            draw,
            hold,
        }),
        4 => Some(Event::Claim {
            last: time,
            claim,
            state,
        }),
        6 => Some(Event::Stop(time)),
        7 => Some(Event::Port { time, port }),
        8 => Some(Event::Txt(time)),
        _ => None,
    }
}

// The answer of the writer in numbers.
fn written_of(w: Result<usize, Unwritten>) -> TraceAnswer
    ensures { result ≡ written_of w }
{
    match w {
        Ok(next) => TraceAnswer {
            refusal: 0,
            at: next,
        },
        Err(Unwritten::Unfit { at }) => TraceAnswer {
            refusal: Refusal::Trace.number(),
            at,
        },
        Err(Unwritten::NoRoom) => TraceAnswer {
            refusal: Refusal::Buffer.number(),
            at: 0,
        },
    }
}

// Writes the event of a kind with its numbers, and the bytes of a packet or of TXT, into a buffer from an offset on. A kind that there is not is refused as 12.
pub fn kurgashel_trace_write<'o, 'b>(
    out: &'o mut [u8],
    at: usize,
    kind: u8,
    time: u64,
    high: u64,
    low: u64,
    port: u64,
    draw: u64,
    hold: u64,
    claim: u64,
    state: u64,
    bytes: &'b [u8],
) -> TraceAnswer
    ensures answer { result ≡ written_by out.old at (told_by kind time high low port draw hold claim state) bytes.now }
    ensures out { out.new ≡ out_by out.old at (told_by kind time high low port draw hold claim state) bytes.now }
{
    match told_by(kind, time, high, low, port, draw, hold, claim, state) {
        Some(event) => written_of(trace::writing::write(out, at, event, bytes)),
        None => TraceAnswer {
            refusal: Refusal::Trace.number(),
            at,
        },
    }
}
