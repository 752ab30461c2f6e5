// Traces for C: each function calls the one of the same name in `capi_trace`, with the same clauses. c/include/kurgashel.h declares them.
#![tactic(auto)]

ghost use Rattle.std.specs.Prelude.{◌≡◌, length};
ghost use Rattle.trace.specs.reading.Reading.{step_at};
ghost use Rattle.capi_trace.specs.Numbers.{step_of, checked_of, told_by, written_by, out_by};
ghost use Rattle.std.proofs.lemmas.List.Edits.{sets};
ghost use Rattle.trace.specs.reading.Events.{data_at, check_of};

use capi_trace::{TraceAnswer, TraceEvent};

// The event at an offset, which is the trace's start or the offset behind another event.
#[unsafe(no_mangle)]
pub extern "C" fn kurgashel_trace_next(trace: &[u8], at: usize) -> TraceEvent
    ensures { result ≡ step_of at (step_at trace.now at) }
{
    capi_trace::kurgashel_trace_next(trace, at)
}

// Lays the bytes that the event at an offset brings over the start of a buffer, as far as it goes, and tells how many they are.
#[unsafe(no_mangle)]
pub extern "C" fn kurgashel_trace_bytes<'t, 'o>(
    trace: &'t [u8],
    at: usize,
    out: &'o mut [u8],
) -> usize
    ensures length { result ≡ length (data_at trace.now at) }
    ensures out { out.new ≡ sets out.old 0 (data_at trace.now at) }
{
    capi_trace::kurgashel_trace_bytes(trace, at, out)
}

// Whether a whole trace is read.
#[unsafe(no_mangle)]
pub extern "C" fn kurgashel_trace_check(trace: &[u8]) -> TraceAnswer
    ensures { result ≡ checked_of (check_of trace.now) (length trace.now) }
{
    capi_trace::kurgashel_trace_check(trace)
}

// Writes the event of a kind with its numbers, and the bytes of a packet or of TXT, into a buffer from an offset on. A kind that there is not is refused as 12.
#[unsafe(no_mangle)]
pub extern "C" fn kurgashel_trace_write<'o, 'b>(
    out: &'o mut [u8],
    at: usize,
    kind: u8,
    time: u64,
    high: u64,
    low: u64,
    port: u64,
    draw: u64,
    hold: u64,
    claim: u64,
    state: u64,
    bytes: &'b [u8],
) -> TraceAnswer
    ensures answer { result ≡ written_by out.old at (told_by kind time high low port draw hold claim state) bytes.now }
    ensures out { out.new ≡ out_by out.old at (told_by kind time high low port draw hold claim state) bytes.now }
{
    capi_trace::kurgashel_trace_write(
        out, at, kind, time, high, low, port, draw, hold, claim, state, bytes,
    )
}
