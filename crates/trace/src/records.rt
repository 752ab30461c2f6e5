// One record of a trace: its kind, its size and its numbers. Whether it can stand where it does is told in `reading`.
ghost use Rattle.std.specs.Prelude.{◌≡◌, ◌+◌, ◌≤◌, length};
ghost use Rattle.trace.specs.records.Numbers.{word64};
ghost use Rattle.trace.specs.records.Records.{kind_of, size_of, claim_of, fields_at, record_at};

use claims::holds::Address;
use wire::octets::{be16, be32, byte};

// The kinds of records, each with its byte.
#[derive(Clone, Copy)]
pub enum Kind {
    Tick = 1,
    Packet = 2,
    Piece = 3,
    Claim = 4,
    Source = 5,
    Stop = 6,
    Port = 7,
    Txt = 8,
}

// The bytes that a piece carries.
pub const PIECE_BYTES: usize = 16;

// The sizes of records, with the byte of kind.
pub const TICK_SIZE: usize = 9;

pub const PACKET_SIZE: usize = 14;

pub const PIECE_SIZE: usize = 17;

pub const CLAIM_SIZE: usize = 11;

pub const SOURCE_SIZE: usize = 19;

pub const STOP_SIZE: usize = 9;

pub const PORT_SIZE: usize = 11;

pub const TXT_SIZE: usize = 11;

// A record by itself, with its numbers; the bytes of a piece stay where they are.
#[derive(Clone, Copy)]
pub enum Record {
    Tick(u64),
    Packet {
        time: u64,
        port: u64,
        draw: u64,
        len: usize,
    },
    Piece,
    Claim {
        last: u64,
        claim: u64,
        state: u64,
    },
    Source {
        from: Address,
        hold: u64,
    },
    Stop(u64),
    Port {
        time: u64,
        port: u64,
    },
    Txt {
        time: u64,
        len: usize,
    },
}

// The kind that a byte says.
fn kind_of(b: u8) -> Option<Kind>
    ensures { result ≡ kind_of b }
{
    match b {
        1 => Some(Kind::Tick),
        2 => Some(Kind::Packet),
        3 => Some(Kind::Piece),
        4 => Some(Kind::Claim),
        5 => Some(Kind::Source),
        6 => Some(Kind::Stop),
        7 => Some(Kind::Port),
        8 => Some(Kind::Txt),
        _ => None,
    }
}

// The size of a record of a kind.
fn size_of(kind: Kind) -> usize
    ensures { result ≡ size_of kind }
{
    match kind {
        Kind::Tick => TICK_SIZE,
        Kind::Packet => PACKET_SIZE,
        Kind::Piece => PIECE_SIZE,
        Kind::Claim => CLAIM_SIZE,
        Kind::Source => SOURCE_SIZE,
        Kind::Stop => STOP_SIZE,
        Kind::Port => PORT_SIZE,
        Kind::Txt => TXT_SIZE,
    }
}

// The 64-bit number at an offset.
fn be64(trace: &[u8], at: usize) -> u64
    requires { at + 8 ≤ length trace.now }
    ensures { result ≡ word64 trace.now at }
{
    let high = be32(trace, at) as u64;
    let low = be32(trace, at + 4) as u64;
    high * 4294967296 + low
}

// The record of a claim's state, where both are in range.
// Numbers, and no enums: writing answers 12 for a claim above 1 and a state above 4 (claim_size).
fn claim_of(last: u64, claim: u8, state: u8) -> Option<Record>
    ensures { result ≡ claim_of last claim state }
{
    if 1 < claim || 4 < state {
        return None;
    }
    Some(Record::Claim {
        last,
        claim: claim as u64,
        state: state as u64,
    })
}

// The record of a kind that stands whole at an offset, where its numbers are in range.
fn fields(trace: &[u8], at: usize, kind: Kind) -> Option<Record>
    requires { at + size_of kind ≤ length trace.now }
    ensures { result ≡ fields_at trace.now at kind }
{
    match kind {
        Kind::Tick => Some(Record::Tick(be64(trace, at + 1))),
        Kind::Packet => Some(Record::Packet {
            time: be64(trace, at + 1),
            port: be16(trace, at + 9) as u64,
            draw: byte(trace, at + 11) as u64,
            len: be16(trace, at + 12) as usize,
        }),
        Kind::Piece => Some(Record::Piece),
        Kind::Claim => claim_of(
            be64(trace, at + 1),
            byte(trace, at + 9),
            byte(trace, at + 10),
        ),
        Kind::Source => Some(Record::Source {
            from: Address {
                high: be64(trace, at + 1),
                low: be64(trace, at + 9),
            },
            hold: be16(trace, at + 17) as u64,
        }),
        Kind::Stop => Some(Record::Stop(be64(trace, at + 1))),
        Kind::Port => Some(Record::Port {
            time: be64(trace, at + 1),
            port: be16(trace, at + 9) as u64,
        }),
        Kind::Txt => Some(Record::Txt {
            time: be64(trace, at + 1),
            len: be16(trace, at + 9) as usize,
        }),
    }
}

// The record that stands at an offset: none where its kind is unknown, it is cut short or a number is out of range.
pub fn record_at(trace: &[u8], at: usize) -> Option<Record>
    ensures { result ≡ record_at trace.now at }
{
    let kind = kind_of(byte(trace, at))?;
    let size = size_of(kind);
    if trace.len() < size || trace.len() - size < at {
        return None;
    }
    fields(trace, at, kind)
}
