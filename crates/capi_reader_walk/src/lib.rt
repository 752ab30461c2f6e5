// A message that was read (crate `capi_reader`) is walked, from C and Rust: each section from its offset on, by as many questions or records as it has; and
// the rdata of a record is read, as the part of the message where it lies. These functions are apart from the reading of a whole message, so that the compiler
// puts the reading of a record into its loop: a short message is then read in half the time. c/include/kurgashel.h declares them.
#![tactic(auto)]

ghost use Rattle.std.specs.Prelude.{◌≡◌};
ghost use Rattle.wire.specs.message.Layout.{question_read, record_read};
ghost use Rattle.wire.specs.nsec.Nsec.{names};
ghost use Rattle.wire.specs.rdata.Readers.{string_at};
ghost use Rattle.capi_reader_walk.specs.Walked.{walked_question, walked_record, fields_at};
ghost use Rattle.capi_reader_walk.specs.Parts.{address_of, address_at, srv_of, srv_at, nsec_at, string_of};

use wire::message::{counted_ttl, question_at, record_at};
use wire::octets::{be16, be32};
use wire::rdata::{StringRead, address_in, name_in, next_form, part, srv_in, string_at};
use wire::refusals::Refusal;

// A question: whether one is there, where its name starts, how long that is uncompressed, how many labels it has and how long the first is; its type and
// class, and the offset past it.
#[repr(C)]
#[derive(Clone, Copy, Default)]
pub struct Question {
    pub found: bool,
    pub rtype: u16,
    pub class: u16,
    pub name: usize,
    pub name_length: usize,
    pub name_labels: usize,
    pub name_first_label: usize,
    pub next: usize,
}

// A record: whether one is there, where its owner starts, how long that is uncompressed, how many labels it has and how long the first is; its type, class
// and TTL, where its rdata starts and how long it is, and the offset past it.
#[repr(C)]
#[derive(Clone, Copy, Default)]
pub struct Record {
    pub found: bool,
    pub rtype: u16,
    pub class: u16,
    pub ttl: u32,
    pub owner: usize,
    pub owner_length: usize,
    pub owner_labels: usize,
    pub owner_first_label: usize,
    pub rdata: usize,
    pub rdata_length: usize,
    pub next: usize,
}

// A record without its owner: whether one is there, its type, class and TTL, where its rdata starts and how long it is, and the offset past it.
#[repr(C)]
#[derive(Clone, Copy, Default)]
pub struct Fields {
    pub found: bool,
    pub rtype: u16,
    pub class: u16,
    pub ttl: u32,
    pub rdata: usize,
    pub rdata_length: usize,
    pub next: usize,
}

// The address of an A or AAAA record: 4 or 16 bytes, 0 where there is none, and zeros behind them.
#[repr(C)]
#[derive(Clone, Copy)]
pub struct Address {
    pub length: usize,
    pub bytes: [u8; 16],
}

// An SRV: whether one is there, its priority, weight and port, and where its target starts, how long that is uncompressed, how many labels it has and how
// long the first is.
#[repr(C)]
#[derive(Clone, Copy, Default)]
pub struct Srv {
    pub found: bool,
    pub priority: u16,
    pub weight: u16,
    pub port: u16,
    pub target: usize,
    pub target_length: usize,
    pub target_labels: usize,
    pub target_first_label: usize,
}

// An NSEC of the restricted kind: whether one is there; where its next name starts, how long that is uncompressed, how many labels it has and how long the
// first is; and where its window block starts and how long it is.
#[repr(C)]
#[derive(Clone, Copy, Default)]
pub struct Nsec {
    pub found: bool,
    pub next: usize,
    pub next_length: usize,
    pub next_labels: usize,
    pub next_first_label: usize,
    pub block: usize,
    pub block_length: usize,
}

// A string of a TXT: the refusal, whether one is there, where its text starts and how long that is, and where the next string starts.
#[repr(C)]
#[derive(Clone, Copy, Default)]
pub struct Text {
    pub refusal: u8,
    pub found: bool,
    pub text: usize,
    pub length: usize,
    pub next: usize,
}

// The question at an offset.
pub fn kurgashel_question(message: &[u8], at: usize) -> Question
    ensures { result ≡ walked_question (question_read message.now at) }
{
    match question_at(message, at) {
        Some(q) => Question {
            found: true,
            rtype: q.rtype,
            class: q.class,
            name: q.name,
            name_length: q.span.len,
            name_labels: q.span.labels,
            name_first_label: q.span.first,
            next: q.next,
        },
        None => Question::default(),
    }
}

// The record at an offset. Of a message that is not refused the rdata is as its type asks.
pub fn kurgashel_record(message: &[u8], at: usize) -> Record
    ensures { result ≡ walked_record (record_read message.now at) }
{
    match record_at(message, at) {
        Some(f) => Record {
            found: true,
            rtype: f.rtype,
            class: f.class,
            ttl: f.ttl,
            owner: f.owner,
            owner_length: f.span.len,
            owner_labels: f.span.labels,
            owner_first_label: f.span.first,
            rdata: f.rdata,
            rdata_length: f.rdlength,
            next: f.next,
        },
        None => Record::default(),
    }
}

// What stands behind the owner of a record, which ends at an offset. The owner is not read, so that one that was read is not followed again.
#[tactic(auto, unfolding(crate::specs::Walked::fields_at))]
pub fn kurgashel_fields(message: &[u8], end: usize) -> Fields
    ensures { result ≡ fields_at message.now end }
{
    if message.len() < end || message.len() - end < 10 {
        return Fields::default();
    }
    let rdata_length = be16(message, end + 8) as usize;
    let rdata = end + 10;
    if message.len() - rdata < rdata_length {
        return Fields::default();
    }
    Fields {
        found: true,
        rtype: be16(message, end),
        class: be16(message, end + 2),
        ttl: counted_ttl(be32(message, end + 4)),
        rdata,
        rdata_length,
        next: rdata + rdata_length,
    }
}

// The address in the rdata of a type, which lies in a part of the message.
pub fn kurgashel_address(message: &[u8], rtype: u16, at: usize, len: usize) -> Address
    ensures { result ≡ address_of (address_at message.now rtype at len) }
{
    let d = part(message, at, len);
    let mut bytes = [0u8; 16];
    if d.len() != len {
        return Address { length: 0, bytes };
    }
    let address = address_in(d, rtype);
    wire::buffer::put(&mut bytes, 0, address);
    Address {
        length: address.len(),
        bytes,
    }
}

// The SRV in the rdata that lies in a part of the message.
pub fn kurgashel_srv(message: &[u8], at: usize, len: usize) -> Srv
    ensures { result ≡ srv_of (srv_at message.now at len) }
{
    let d = part(message, at, len);
    if d.len() != len {
        return Srv::default();
    }
    match srv_in(message, at, d) {
        Some(s) => Srv {
            found: true,
            priority: s.priority,
            weight: s.weight,
            port: s.port,
            target: s.target,
            target_length: s.span.len,
            target_labels: s.span.labels,
            target_first_label: s.span.first,
        },
        None => Srv::default(),
    }
}

// The NSEC of the restricted kind in the rdata that lies in a part of the message, for a record whose owner stands at an offset.
pub fn kurgashel_nsec(message: &[u8], owner: usize, at: usize, len: usize) -> Nsec
    ensures { result ≡ nsec_at message.now owner at len }
{
    let d = part(message, at, len);
    if d.len() != len {
        return Nsec::default();
    }
    let held = next_form(message, owner, at, d);
    if !held.named {
        return Nsec::default();
    }
    match name_in(message, at, d, 0, held.behind) {
        Some(span) => Nsec {
            found: true,
            next: at,
            next_length: span.len,
            next_labels: span.labels,
            next_first_label: span.first,
            block: span.end,
            block_length: held.behind,
        },
        None => Nsec::default(),
    }
}

// Whether a window block says that its name has records of a type.
pub fn kurgashel_nsec_names(block: &[u8], rtype: u16) -> bool
    ensures { result ≡ names rtype block.now }
{
    wire::nsec::names_type(block, rtype)
}

// The string at a place of a TXT: none from its end on, and refusal 6 for one that runs past it.
pub fn kurgashel_txt_string(txt: &[u8], at: usize) -> Text
    ensures { result ≡ string_of (string_at txt.now at) }
{
    match string_at(txt, at) {
        StringRead::Found(s) => Text {
            refusal: 0,
            found: true,
            text: s.text,
            length: s.len,
            next: s.next,
        },
        StringRead::End => Text::default(),
        StringRead::Malformed => Text {
            refusal: Refusal::Malformed.number(),
            ..Text::default()
        },
    }
}
