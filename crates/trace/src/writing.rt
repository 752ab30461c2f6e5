// Writing a trace event by event. A value that its field cannot hold is refused as 12 at the offset that its record would have; then a buffer too small for all
// of the event as 3. Nothing is written then.
ghost use Rattle.std.specs.Prelude.{◌≡◌, [], ◌∷◌, ℕ, ◌+◌, ◌*◌, ◌<◌, ◌≤◌, length};
ghost use Rattle.std.proofs.lemmas.List.Edits.{sets};
ghost use Rattle.trace.specs.records.Numbers.{bytes16, bytes64};
ghost use Rattle.trace.specs.reading.Reading.{pieces_of};
ghost use Rattle.trace.specs.reading.Events.{occurrence};
ghost use Rattle.trace.specs.writing.Bytes.{headed, piece_of, pieces_for, source_bytes, packet_numbers, packet_bytes, txt_bytes, bytes_of};
ghost use Rattle.trace.specs.writing.Sizes.{source_size, packet_size, claim_size, size_for};
ghost use Rattle.trace.specs.writing.Writing.{written_to, out_after};

use crate::reading::{Event, is_usual};
use crate::records::{
    CLAIM_SIZE, Kind, PACKET_SIZE, PIECE_BYTES, PIECE_SIZE, PORT_SIZE, SOURCE_SIZE, STOP_SIZE,
    TICK_SIZE, TXT_SIZE,
};
use claims::holds::Address;
use wire::buffer::put;

// A value that its field cannot hold: how far behind the event's start the record lies.
#[derive(Clone, Copy)]
pub struct Unfit {
    pub behind: usize,
}

// Why an event is not written: refusal 12, with the offset of the record that a value does not fit, or refusal 3.
#[derive(Clone, Copy)]
pub enum Unwritten {
    Unfit { at: usize },
    NoRoom,
}

// The greatest numbers of 16 and of 8 bits.
const MOST_16: u64 = 65535;

const MOST_8: u64 = 255;

const MOST_LEN: usize = 65535;

// The greatest claim, the host's, and the greatest state, lost.
const MOST_CLAIM: u64 = 1;

const MOST_STATE: u64 = 4;

// The size of the pieces of so many bytes.
fn pieces_size(len: usize) -> usize
    requires { len < 65536 }
    ensures { result ≡ pieces_of len * 17 }
{
    len.div_ceil(PIECE_BYTES) * PIECE_SIZE
}

// The size of the record of a source, which is left out where it is the usual one.
fn source_size(from: Address, hold: u64) -> usize
    ensures { result ≡ source_size from hold }
{
    if is_usual(from, hold) { 0 } else { SOURCE_SIZE }
}

// The size of a packet's records behind that of its source, whose size is given.
fn packet_size(source: usize, port: u64, draw: u64, len: usize) -> Result<usize, Unfit>
    requires { source < 20 }
    ensures { result ≡ packet_size source port draw len }
{
    if MOST_16 < port || MOST_8 < draw || MOST_LEN < len {
        return Err(Unfit { behind: source });
    }
    Ok(source + PACKET_SIZE + pieces_size(len))
}

// The size of a claim's record.
// Numbers, and no enums: one that no claim or state has is handed in, and refused as 12.
fn claim_size(claim: u64, state: u64) -> Result<usize, Unfit>
    ensures { result ≡ claim_size claim state }
{
    if MOST_CLAIM < claim || MOST_STATE < state {
        return Err(Unfit { behind: 0 });
    }
    Ok(CLAIM_SIZE)
}

// The size of an event that brings so many bytes.
pub fn size_of(event: Event, len: usize) -> Result<usize, Unfit>
    ensures { result ≡ size_for event len }
{
    match event {
        Event::Tick(_) => Ok(TICK_SIZE),
        Event::Packet {
            time: _,
            from,
            port,
            draw,
            hold,
        } => {
            if MOST_16 < hold {
                return Err(Unfit { behind: 0 });
            }
            packet_size(source_size(from, hold), port, draw, len)
        }
        Event::Claim {
            last: _,
            claim,
            state,
        } => claim_size(claim, state),
        Event::Stop(_) => Ok(STOP_SIZE),
        Event::Port { time: _, port } => {
            if MOST_16 < port {
                return Err(Unfit { behind: 0 });
            }
            Ok(PORT_SIZE)
        }
        Event::Txt(_) => {
            if MOST_LEN < len {
                return Err(Unfit { behind: 0 });
            }
            Ok(TXT_SIZE + pieces_size(len))
        }
    }
}

// Lays a number of 64 bits over a buffer.
fn put64(out: &mut [u8], at: usize, n: u64)
    ensures { out.new ≡ sets out.old at (bytes64 n) }
{
    put(out, at, &n.to_be_bytes());
}

// Lays a number of 16 bits over a buffer.
fn put16(out: &mut [u8], at: usize, n: u64)
    requires { n < 65536 }
    ensures { out.new ≡ sets out.old at (bytes16 n) }
{
    put(out, at, &(n as u16).to_be_bytes());
}

// Lays a kind and the number of 64 bits behind it over a buffer.
fn put_headed(out: &mut [u8], at: usize, kind: u8, n: u64)
    requires { at + 9 ≤ length out.old }
    ensures { out.new ≡ sets out.old at (headed kind n) }
{
    put(out, at, &[kind]);
    put64(out, at + 1, n);
}

// Lays the numbers of a packet behind its time over a buffer.
fn put_numbers(out: &mut [u8], at: usize, port: u64, draw: u64, len: usize)
    requires { (port < 65536) × (draw < 256) × (len < 65536) }
    ensures { out.new ≡ sets out.old at (packet_numbers port draw len) }
{
    let bytes = [
        (port / 256) as u8,
        (port % 256) as u8,
        draw as u8,
        (len / 256) as u8,
        (len % 256) as u8,
    ];
    put(out, at, &bytes);
}

// Lays a claim and its state over a buffer.
fn put_claim(out: &mut [u8], at: usize, claim: u64, state: u64)
    requires { (claim < 256) × (state < 256) }
    ensures { out.new ≡ sets out.old at (claim ∷ state ∷ []) }
{
    let bytes = [claim as u8, state as u8];
    put(out, at, &bytes);
}

// Lays the record of a source over a buffer.
fn put_source(out: &mut [u8], at: usize, from: Address, hold: u64)
    requires at_in_bounds { at + 19 ≤ length out.old }
    requires hold_bound { hold < 65536 }
    ensures { out.new ≡ sets out.old at (source_bytes from hold) }
{
    put_headed(out, at, Kind::Source as u8, from.high);
    put64(out, at + 9, from.low);
    put16(out, at + 17, hold);
}

// Lays a piece over a buffer.
fn put_piece(out: &mut [u8], at: usize, bytes: &[u8])
    requires at_in_bounds { at + 17 ≤ length out.old }
    requires bytes_len_bound { length bytes.now ≤ 16 }
    ensures { out.new ≡ sets out.old at (piece_of bytes.now) }
{
    let zeros = [0u8; PIECE_BYTES];
    let n = bytes.len();
    let padding = PIECE_BYTES - n;
    put(out, at, &[Kind::Piece as u8]);
    put(out, at + 1, bytes);
    put(out, at + 1 + n, &zeros[..padding]);
}

// Lays the pieces of some bytes over a buffer.
fn put_pieces(out: &mut [u8], first: usize, bytes: &[u8])
    requires { first + pieces_of (length bytes.now) * 17 ≤ length out.old }
    ensures { out.new ≡ sets out.old first (pieces_for bytes.now) }
{
    let mut at = first;
    for piece in bytes.chunks(PIECE_BYTES) {
        put_piece(out, at, piece);
        at += PIECE_SIZE;
    }
}

// Lays a packet over a buffer, behind the record of its source.
fn put_packet(out: &mut [u8], at: usize, time: u64, port: u64, draw: u64, bytes: &[u8])
    requires bytes_in_bounds { at + 14 + pieces_of (length bytes.now) * 17 ≤ length out.old }
    requires port_bound { (port < 65536) × (draw < 256) × (length bytes.now < 65536) }
    ensures { out.new ≡ sets out.old at (packet_bytes time port draw bytes.now) }
{
    put_headed(out, at, Kind::Packet as u8, time);
    put_numbers(out, at + 9, port, draw, bytes.len());
    put_pieces(out, at + PACKET_SIZE, bytes);
}

// Lays an update of TXT over a buffer.
fn put_txt(out: &mut [u8], at: usize, time: u64, bytes: &[u8])
    requires bytes_in_bounds { at + 11 + pieces_of (length bytes.now) * 17 ≤ length out.old }
    requires bytes_len_bound { length bytes.now < 65536 }
    ensures { out.new ≡ sets out.old at (txt_bytes time bytes.now) }
{
    put_headed(out, at, Kind::Txt as u8, time);
    put16(out, at + 9, bytes.len() as u64);
    put_pieces(out, at + TXT_SIZE, bytes);
}

// Lays an event that fits over a buffer.
fn put_event(out: &mut [u8], at: usize, event: Event, bytes: &[u8])
    requires { (n : ℕ) × (size_for event (length bytes.now) ≡ Ok n) × (at + n ≤ length out.old) }
    ensures { out.new ≡ sets out.old at (bytes_of (occurrence event bytes.now)) }
{
    match event {
        Event::Tick(time) => put_headed(out, at, Kind::Tick as u8, time),
        Event::Packet {
            time,
            from,
            port,
            draw,
            hold,
        } => {
            if is_usual(from, hold) {
                put_packet(out, at, time, port, draw, bytes);
            } else {
                put_source(out, at, from, hold);
                put_packet(out, at + SOURCE_SIZE, time, port, draw, bytes);
            }
        }
        Event::Claim { last, claim, state } => {
            put_headed(out, at, Kind::Claim as u8, last);
            put_claim(out, at + 9, claim, state);
        }
        Event::Stop(time) => put_headed(out, at, Kind::Stop as u8, time),
        Event::Port { time, port } => {
            put_headed(out, at, Kind::Port as u8, time);
            put16(out, at + 9, port);
        }
        Event::Txt(time) => put_txt(out, at, time, bytes),
    }
}

// Writes an event, with the bytes of a packet or of TXT, into a buffer from an offset on, and tells the offset behind it.
pub fn write(out: &mut [u8], at: usize, event: Event, bytes: &[u8]) -> Result<usize, Unwritten>
    ensures answer { result ≡ written_to out.old at event bytes.now }
    ensures out { out.new ≡ out_after out.old at event bytes.now }
{
    if out.len() < at {
        return Err(Unwritten::NoRoom);
    }
    match size_of(event, bytes.len()) {
        Err(unfit) => Err(Unwritten::Unfit {
            at: at + unfit.behind,
        }),
        Ok(n) => {
            if out.len() - at < n {
                return Err(Unwritten::NoRoom);
            }
            put_event(out, at, event, bytes);
            Ok(at + n)
        }
    }
}
