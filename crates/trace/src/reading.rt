// Reading a trace event by event: each event with its numbers and the place of the bytes that it brings, or the offset of the first record that is malformed
// or cannot stand where it does, or the end where one is owed there (refusal 12).
ghost use Rattle.std.specs.Prelude.{◌≡◌, ◌+◌, ◌-◌, ◌*◌, ◌≤◌, ◌<◌, length};
ghost use Rattle.std.proofs.lemmas.List.Edits.{sets};
ghost use Rattle.trace.specs.records.Records.{record_at};
ghost use Rattle.trace.specs.reading.Reading.{all_zero, pieces_of, is_usual, is_piece, pieces_at, alone_step, with_data, behind_source, step_at, found_in};
ghost use Rattle.trace.specs.reading.Events.{in_piece, data_from, data_at, check_of};

use crate::records::{
    CLAIM_SIZE, PACKET_SIZE, PIECE_BYTES, PIECE_SIZE, PORT_SIZE, Record, SOURCE_SIZE, STOP_SIZE,
    TICK_SIZE, TXT_SIZE, record_at,
};
use claims::holds::Address;

// An event with its numbers: the calls that were made on a responder, and a claim's state as it then was. The bytes of a packet and of TXT stand beside it.
#[derive(Clone, Copy)]
pub enum Event {
    Tick(u64),
    Packet {
        time: u64,
        from: Address,
        port: u64,
        draw: u64,
        hold: u64,
    },
    Claim {
        last: u64,
        claim: u64,
        state: u64,
    },
    Stop(u64),
    Port {
        time: u64,
        port: u64,
    },
    Txt(u64),
}

// The hold draw of a packet whose source is not told; its address is that of sixteen zero bytes.
pub const USUAL_HOLD: u64 = 400;

// An event in a trace: the offset of its first piece and how many bytes its pieces carry, and the offset behind it.
#[derive(Clone, Copy)]
pub struct Entry {
    pub event: Event,
    pub first: usize,
    pub len: usize,
    pub next: usize,
}

// The refusal of a trace, with the offset of the first record that is malformed or cannot stand where it does.
#[derive(Clone, Copy)]
pub struct Refused {
    pub at: usize,
}

// Whether all bytes are zero.
fn all_zero(s: &[u8]) -> bool
    ensures { result ≡ all_zero s.now }
{
    s.iter().all(|b| *b == 0)
}

// Whether a source is one that is not told.
pub fn is_usual(from: Address, hold: u64) -> bool
    ensures { result ≡ is_usual from hold }
{
    from.high == 0 && from.low == 0 && hold == USUAL_HOLD
}

// Whether a piece stands at an offset, where so many bytes are owed; behind the last of them it is padded with zeros.
fn is_piece(trace: &[u8], at: usize, left: usize) -> bool
    ensures { result ≡ is_piece trace.now at left }
{
    let Some(record) = record_at(trace, at) else {
        return false;
    };
    let Record::Piece = record else {
        return false;
    };
    if PIECE_BYTES <= left {
        return true;
    }
    let from = at + 1 + left;
    let end = at + PIECE_SIZE;
    all_zero(&trace[from..end])
}

// Where the pieces of so many bytes end, from an offset on.
fn pieces_end(trace: &[u8], first: usize, len: usize) -> Result<usize, Refused>
    requires { first ≤ length trace.now }
    ensures { result ≡ pieces_at (pieces_of len) trace.now first len }
{
    let mut at = first;
    let mut left = len;
    while 0 < left {
        if !is_piece(trace, at, left) {
            return Err(Refused { at });
        }
        at += PIECE_SIZE;
        left = left.saturating_sub(PIECE_BYTES);
    }
    Ok(at)
}

// An event with the pieces that it owes.
fn with_data(trace: &[u8], event: Event, first: usize, len: usize) -> Result<Entry, Refused>
    requires { first ≤ length trace.now }
    ensures { found_in result ≡ with_data trace.now event first len }
{
    let next = pieces_end(trace, first, len)?;
    Ok(Entry {
        event,
        first,
        len,
        next,
    })
}

// The packet behind the record of its source.
fn behind_source(trace: &[u8], at: usize, from: Address, hold: u64) -> Result<Entry, Refused>
    requires { at ≤ length trace.now }
    ensures { found_in result ≡ behind_source trace.now at from hold (record_at trace.now at) }
{
    let Some(record) = record_at(trace, at) else {
        return Err(Refused { at });
    };
    match record {
        Record::Packet {
            time,
            port,
            draw,
            len,
        } => with_data(
            trace,
            Event::Packet {
                time,
                from,
                port,
                draw,
                hold,
            },
            at + PACKET_SIZE,
            len,
        ),
        _ => Err(Refused { at }),
    }
}

// An event without bytes.
fn alone(event: Event, next: usize) -> Result<Entry, Refused>
    ensures { found_in result ≡ alone_step event next }
{
    Ok(Entry {
        event,
        first: next,
        len: 0,
        next,
    })
}

// The event at an offset before the trace's end. Without the Option of `next`, in which each entry is copied once more.
fn entry_at(trace: &[u8], at: usize) -> Result<Entry, Refused>
    requires { at < length trace.now }
    ensures { found_in result ≡ step_at trace.now at }
{
    let Some(record) = record_at(trace, at) else {
        return Err(Refused { at });
    };
    match record {
        Record::Tick(time) => alone(Event::Tick(time), at + TICK_SIZE),
        Record::Packet {
            time,
            port,
            draw,
            len,
        } => with_data(
            trace,
            Event::Packet {
                time,
                from: Address { high: 0, low: 0 },
                port,
                draw,
                hold: USUAL_HOLD,
            },
            at + PACKET_SIZE,
            len,
        ),
        Record::Piece => Err(Refused { at }),
        Record::Claim { last, claim, state } => {
            alone(Event::Claim { last, claim, state }, at + CLAIM_SIZE)
        }
        Record::Source { from, hold } => {
            if is_usual(from, hold) {
                return Err(Refused { at });
            }
            behind_source(trace, at + SOURCE_SIZE, from, hold)
        }
        Record::Stop(time) => alone(Event::Stop(time), at + STOP_SIZE),
        Record::Port { time, port } => alone(Event::Port { time, port }, at + PORT_SIZE),
        Record::Txt { time, len } => { with_data(trace, Event::Txt(time), at + TXT_SIZE, len) }
    }
}

// The event at an offset, which is the trace's start or behind another event. At the trace's end and past it there is none.
pub fn next(trace: &[u8], at: usize) -> Result<Option<Entry>, Refused>
    ensures { result ≡ step_at trace.now at }
{
    if trace.len() <= at {
        return Ok(None);
    }
    let entry = entry_at(trace, at)?;
    Ok(Some(entry))
}

// The lesser of the bytes that are left and those that a piece carries.
pub fn in_piece(left: usize) -> usize
    ensures { result ≡ in_piece left }
{
    left.min(PIECE_BYTES)
}

// Lays the bytes of pieces over the start of a buffer, as far as it goes.
fn gather(trace: &[u8], first: usize, len: usize, out: &mut [u8])
    requires { first + 17 * pieces_of len ≤ length trace.now }
    ensures { out.new ≡ sets out.old 0 (data_from (pieces_of len) trace.now first len) }
{
    let mut at = first;
    let mut left = len;
    while 0 < left {
        let from = at + 1;
        let end = from + in_piece(left);
        wire::buffer::put(out, len - left, &trace[from..end]);
        at += PIECE_SIZE;
        left = left.saturating_sub(PIECE_BYTES);
    }
}

// Lays the bytes that the event at an offset brings over the start of a buffer, as far as it goes, and tells how many they are.
pub fn bytes(trace: &[u8], at: usize, out: &mut [u8]) -> usize
    ensures len { result ≡ length (data_at trace.now at) }
    ensures out { out.new ≡ sets out.old 0 (data_at trace.now at) }
{
    match next(trace, at) {
        Ok(Some(entry)) => {
            gather(trace, entry.first, entry.len, out);
            entry.len
        }
        Ok(None) => 0,
        Err(_) => 0,
    }
}

// Whether a whole trace is read.
pub fn check(trace: &[u8]) -> Result<(), Refused>
    ensures { result ≡ check_of trace.now }
{
    let mut at = 0;
    while at < trace.len() {
        let entry = entry_at(trace, at)?;
        at = entry.next;
    }
    Ok(())
}
