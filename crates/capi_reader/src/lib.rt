// The packet reader for C and Rust. It stands on the reader alone, so that a device that only reads links nothing else. A message is read once,
// then walked (crate `capi_reader_walk`); `capi_reader_refusal` answers a message's refusal alone. The source port is not known here: the caller tests it.
// c/include/kurgashel.h declares these functions.
#![tactic(auto)]

ghost use Rattle.std.specs.Prelude.{◌≡◌, length};
ghost use Rattle.wire.specs.message.Layout.{message_at, read_of};
ghost use Rattle.wire.specs.names.Names.{name_at};
ghost use Rattle.wire.specs.runs.Written.{with_name};
ghost use Rattle.capi_reader.specs.Reader.{end_of, length_of, name_of, span_within, sections_of};

use wire::names::{expand, read_name};

// A name: its uncompressed length, 0 where it is malformed, how many labels it has and how long the first is, 0 and 0 of the root, and its bytes, with zeros
// behind them.
#[repr(C)]
#[derive(Clone, Copy)]
pub struct Name {
    pub length: usize,
    pub labels: usize,
    pub first_label: usize,
    pub bytes: [u8; 255],
}

// A name that was written into a buffer: where it ends in the message, its uncompressed length, how many labels it has and how long the first is. All are 0
// where it is malformed or longer than the buffer.
#[repr(C)]
#[derive(Clone, Copy, Default)]
pub struct NameSpan {
    pub end: usize,
    pub length: usize,
    pub labels: usize,
    pub first_label: usize,
}

// Where the parts of a message lie: the refusal, and where it is 0 the ID, the flags, each section's offset and count, and the offset past the last record.
#[repr(C)]
#[derive(Clone, Copy, Default)]
pub struct Sections {
    pub refusal: u8,
    pub id: u16,
    pub flags: u16,
    pub questions: u16,
    pub answers: u16,
    pub authorities: u16,
    pub additionals: u16,
    pub questions_at: usize,
    pub answers_at: usize,
    pub authorities_at: usize,
    pub additionals_at: usize,
    pub end: usize,
}

// The offset past the name at an offset, and 0 where it is malformed. Nothing is copied.
pub fn kurgashel_name_end(message: &[u8], at: usize) -> usize
    ensures { result ≡ end_of (name_at message.now at) }
{
    match read_name(message, at) {
        Some(span) => span.end,
        None => 0,
    }
}

// The uncompressed length of the name at an offset, and 0 where it is malformed. Nothing is copied.
pub fn kurgashel_name_length(message: &[u8], at: usize) -> usize
    ensures { result ≡ length_of (name_at message.now at) }
{
    let found = read_name(message, at);
    match found {
        Some(span) => span.len,
        None => 0,
    }
}

// The name at an offset, uncompressed.
pub fn kurgashel_name(message: &[u8], at: usize) -> Name
    ensures { result ≡ name_of (name_at message.now at) }
{
    let expanded = expand(message, at);
    let bytes = expanded.bytes;
    match expanded.name {
        Some(span) => Name {
            length: span.len,
            labels: span.labels,
            first_label: span.first,
            bytes,
        },
        None => Name {
            length: 0,
            labels: 0,
            first_label: 0,
            bytes: [0u8; 255],
        },
    }
}

// Writes the name at an offset, uncompressed, over the first bytes of a buffer; the others stay. Nothing is written where it is malformed or longer.
pub fn kurgashel_name_into(message: &[u8], at: usize, out: &mut [u8]) -> NameSpan
    ensures answer { result ≡ span_within (length out.old) (name_at message.now at) }
    ensures bytes { out.new ≡ with_name out.old (name_at message.now at) }
{
    let room = out.len();
    match wire::runs::name_into(message, at, out) {
        Some(read) if read.len <= room => NameSpan {
            end: read.end,
            length: read.len,
            labels: read.labels,
            first_label: read.first,
        },
        _ => NameSpan::default(),
    }
}

// Where the parts of a message lie, or its refusal: 4, 5 or 6.
pub fn kurgashel_message(message: &[u8]) -> Sections
    ensures { result ≡ sections_of (read_of (message_at message.now)) }
{
    match wire::message::read_message(message) {
        Ok(l) => Sections {
            refusal: 0,
            id: l.id,
            flags: l.flags,
            questions: l.questions.count,
            answers: l.answers.count,
            authorities: l.authorities.count,
            additionals: l.additionals.count,
            questions_at: l.questions.at,
            answers_at: l.answers.at,
            authorities_at: l.authorities.at,
            additionals_at: l.additionals.at,
            end: l.end,
        },
        Err(refusal) => Sections {
            refusal: refusal.number(),
            ..Sections::default()
        },
    }
}
