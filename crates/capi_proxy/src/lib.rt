// The proxy for C and Rust, on byte slices, with the answers in numbers. A crate of its own, so that a program that is no proxy links nothing of it.
// c/include/kurgashel.h declares the functions. The two domains are lent at every call: nothing is kept.
#![tactic(auto)]

ghost use Rattle.std.specs.Prelude.{◌≡◌};
ghost use Rattle.wire.specs.message.Message.{record_of, ttl_of};
ghost use Rattle.wire.specs.message.Layout.{record_at};
ghost use Rattle.proxy.specs.domains.Domains.{domains, setup_refusal};
ghost use Rattle.proxy.specs.questions.Questions.{question_of};
ghost use Rattle.proxy.specs.records.Records.{record_out, item_out};
ghost use Rattle.proxy.specs.records.Held.{held_out};
ghost use Rattle.capi_proxy.specs.Numbers.{question_numbers, refused_numbers, field_numbers, record_numbers};

use cache::entries::Entry;
use proxy::domains::Moved;
use proxy::records::{Fields, Passed};
use wire::refusals::Refusal;

// What becomes of a question: the specification's refusal number, or 0; whether it is answered negatively at once; and where it is asked on the link the
// length of its name there and the bytes, zeros after them.
#[repr(C)]
#[derive(Clone, Copy)]
pub struct QuestionNumbers {
    pub refusal: u8,
    pub negative: bool,
    pub length: usize,
    pub name: [u8; 255],
}

// What becomes of a record: the specification's refusal number, or 0; whether it is passed on, or left out; its type, class and TTL, the lengths of its owner
// and of its rdata; whether the rdata holds a name, and then stands here, or is passed on as it lies; and the bytes, zeros after them.
#[repr(C)]
#[derive(Clone, Copy)]
pub struct RecordNumbers {
    pub refusal: u8,
    pub passed: bool,
    pub named: bool,
    pub rtype: u16,
    pub class: u16,
    pub ttl: u32,
    pub owner_length: usize,
    pub rdata_length: usize,
    pub owner: [u8; 255],
    pub rdata: [u8; 261],
}

impl From<Result<Option<Moved>, Refusal>> for QuestionNumbers {
    ghost from_gives = { λ q numbers. numbers ≡ question_numbers q };

    fn from(q: Result<Option<Moved>, Refusal>) -> QuestionNumbers {
        match q {
            Ok(Some(moved)) => {
                let name = moved.bytes;
                QuestionNumbers {
                    refusal: 0,
                    negative: false,
                    length: moved.len,
                    name,
                }
            }
            Ok(None) => QuestionNumbers {
                refusal: 0,
                negative: true,
                length: 0,
                name: [0u8; 255],
            },
            Err(refusal) => QuestionNumbers {
                refusal: refusal.number(),
                negative: false,
                length: 0,
                name: [0u8; 255],
            },
        }
    }
}

// By a number: it goes into a struct that C reads.
fn refused_numbers(refusal: u8) -> RecordNumbers
    ensures { result ≡ refused_numbers refusal }
{
    RecordNumbers {
        refusal,
        passed: false,
        named: false,
        rtype: 0,
        class: 0,
        ttl: 0,
        owner_length: 0,
        rdata_length: 0,
        owner: [0u8; 255],
        rdata: [0u8; 261],
    }
}

fn field_numbers(f: Fields, owner: [u8; 255], rdata: [u8; 261]) -> RecordNumbers
    ensures { result ≡ field_numbers f owner rdata }
{
    RecordNumbers {
        refusal: 0,
        passed: true,
        named: wire::rdata::form_of(f.rtype).named,
        rtype: f.rtype,
        class: f.class,
        ttl: f.ttl,
        owner_length: f.owner,
        rdata_length: f.rdata,
        owner,
        rdata,
    }
}

impl From<Result<Option<Passed>, Refusal>> for RecordNumbers {
    ghost from_gives = { λ p numbers. numbers ≡ record_numbers p };

    fn from(p: Result<Option<Passed>, Refusal>) -> RecordNumbers {
        match p {
            Ok(Some(passed)) => field_numbers(passed.fields, passed.owner, passed.rdata),
            Ok(None) => refused_numbers(0),
            Err(refusal) => refused_numbers(refusal.number()),
        }
    }
}

// The refusal of two domains, or 0.
pub fn kurgashel_proxy_refusal(rich: &[u8], ldh: &[u8]) -> u8
    ensures { result ≡ setup_refusal (domains rich.now ldh.now) }
{
    match proxy::domains::setup_refusal(rich, ldh) {
        Ok(()) => 0,
        Err(refusal) => refusal.number(),
    }
}

// A unicast question for an uncompressed name and a type.
pub fn kurgashel_proxy_question(rich: &[u8], ldh: &[u8], name: &[u8], rtype: u16) -> QuestionNumbers
    ensures { result ≡ question_numbers (question_of (domains rich.now ldh.now) name.now rtype) }
{
    let q = proxy::questions::ask(rich, ldh, name, rtype);
    QuestionNumbers::from(q)
}

// The record at an offset of a message.
pub fn kurgashel_proxy_record(rich: &[u8], ldh: &[u8], message: &[u8], at: usize) -> RecordNumbers
    ensures { result ≡ record_numbers (item_out (domains rich.now ldh.now) (record_at message.now at)) }
{
    let p = proxy::records::record_at(rich, ldh, message, at);
    RecordNumbers::from(p)
}

// A record whose names are uncompressed.
pub fn kurgashel_proxy_plain_record(
    rich: &[u8],
    ldh: &[u8],
    owner: &[u8],
    rtype: u16,
    class: u16,
    ttl: u32,
    rdata: &[u8],
) -> RecordNumbers
    ensures { result ≡ record_numbers (record_out (domains rich.now ldh.now)
        (record_of owner.now rtype class (ttl_of ttl) rdata.now)) }
{
    let counted = wire::message::counted_ttl(ttl);
    let p = proxy::records::record(rich, ldh, owner, rtype, class, counted, rdata);
    RecordNumbers::from(p)
}

// The record of an entry of the cache and the bytes of its slot.
pub fn kurgashel_proxy_cached(
    rich: &[u8],
    ldh: &[u8],
    time: u64,
    entry: Entry,
    slot: &[u8],
) -> RecordNumbers
    ensures { result ≡ record_numbers (held_out (domains rich.now ldh.now) time entry slot.now) }
{
    let p = proxy::records::cached(rich, ldh, time, entry, slot);
    RecordNumbers::from(p)
}
