// The events that a line tells, in the words in which they are shown: `tick NOW`, `recv NOW FROM PORT DRAW HOLD PACKET`, `claim LAST K STATE`, `stop NOW`,
// `port NOW PORT` and `txt NOW TXT`.
use claims::holds::Address;
use console_text::fields::are_bytes;
use console_text::hex::{fill, is_bytes};
use console_text::lines::{field, number};
use responder::address::address_of;
use trace::reading::Event;

// An event with the index of the field behind it, and that of the field with the bytes that it brings, if it brings any.
#[derive(Clone, Copy)]
pub struct Told {
    pub event: Event,
    pub next: usize,
    pub bytes: Option<usize>,
}

// No line has so many fields: past there no event is looked for.
const MOST_FIELDS: usize = 65536;

// A field of a line as a number.
fn number_at(line: &[u8], index: usize) -> Option<u64> {
    number(field(line, index))
}

// The address of a sender that a field tells: 4 bytes of IPv4, or 16.
fn address(field: &[u8]) -> Option<Address> {
    if !is_bytes(field) {
        return None;
    }
    let mut bytes = [0u8; 16];
    match fill(field, &mut bytes) {
        4 => Some(address_of(&bytes[..4])),
        16 => Some(address_of(&bytes)),
        _ => None,
    }
}

// An event that brings no bytes, with the index of the field behind it.
fn alone(event: Event, next: usize) -> Option<Told> {
    Some(Told {
        event,
        next,
        bytes: None,
    })
}

// `recv NOW FROM PORT DRAW HOLD PACKET`, its word at an index.
fn packet(line: &[u8], at: usize) -> Option<Told> {
    if MOST_FIELDS - 3 < at {
        return None;
    }
    let event = Event::Packet {
        time: number_at(line, at + 1)?,
        from: address(field(line, at + 2))?,
        port: number_at(line, at + 3)?,
        draw: number_at(line, at + 4)?,
        hold: number_at(line, at + 5)?,
    };
    if !are_bytes(line, at + 6) {
        return None;
    }
    Some(Told {
        event,
        next: at + 7,
        bytes: Some(at + 6),
    })
}

// `claim LAST K STATE`
fn claim(line: &[u8], at: usize) -> Option<Told> {
    if MOST_FIELDS - 1 < at {
        return None;
    }
    let event = Event::Claim {
        last: number_at(line, at + 1)?,
        claim: number_at(line, at + 2)?,
        state: number_at(line, at + 3)?,
    };
    alone(event, at + 4)
}

// `port NOW PORT`
fn port(line: &[u8], at: usize) -> Option<Told> {
    if MOST_FIELDS < at {
        return None;
    }
    let event = Event::Port {
        time: number_at(line, at + 1)?,
        port: number_at(line, at + 2)?,
    };
    alone(event, at + 3)
}

// `txt NOW TXT`
fn txt(line: &[u8], at: usize) -> Option<Told> {
    if MOST_FIELDS < at {
        return None;
    }
    let event = Event::Txt(number_at(line, at + 1)?);
    if !are_bytes(line, at + 2) {
        return None;
    }
    Some(Told {
        event,
        next: at + 3,
        bytes: Some(at + 2),
    })
}

// `tick NOW`
fn tick(line: &[u8], at: usize) -> Option<Told> {
    if MOST_FIELDS < at {
        return None;
    }
    alone(Event::Tick(number_at(line, at + 1)?), at + 2)
}

// `stop NOW`
fn stop(line: &[u8], at: usize) -> Option<Told> {
    if MOST_FIELDS < at {
        return None;
    }
    alone(Event::Stop(number_at(line, at + 1)?), at + 2)
}

// The event whose word is the field with an index.
pub(crate) fn event_at(line: &[u8], at: usize) -> Option<Told> {
    match field(line, at) {
        b"tick" => tick(line, at),
        b"recv" => packet(line, at),
        b"claim" => claim(line, at),
        b"stop" => stop(line, at),
        b"port" => port(line, at),
        b"txt" => txt(line, at),
        _ => None,
    }
}

// Lays the bytes of a field over the start of a buffer, and tells how many there are: none where the event brings none.
pub(crate) fn bytes_told(line: &[u8], index: Option<usize>, out: &mut [u8]) -> usize {
    match index {
        Some(index) => fill(field(line, index), out),
        None => 0,
    }
}
