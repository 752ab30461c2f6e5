// A record of the link at the proxy (specification, 'The proxy'; RFC 8766, 5.5.2 to 5.5.4): as it is written out, as it lies in a message, and as it lies in
// the cache. Only well-formed records of the five types are passed on; text is never encoded anew.
ghost use Rattle.std.specs.Prelude.{◌≡◌, true};
ghost use Rattle.wire.specs.refusals.Numbers.{refused_by, number_in};
ghost use Rattle.wire.specs.message.Message.{record_of};
ghost use Rattle.wire.specs.message.Layout.{record_at};
ghost use Rattle.proxy.specs.domains.Domains.{domains, setup_refusal};
ghost use Rattle.proxy.specs.domains.Under.{moved_of};
ghost use Rattle.proxy.specs.records.Records.{is_address, fits_type, is_whole, outward, content_of, capped, passed_with};
ghost use Rattle.proxy.specs.records.Records.{record_out, record_refusal, none_out, item_out, item_refusal};
ghost use Rattle.proxy.specs.records.Held.{left_of, held_tests, held_refusal, held_out, cached_refusal};

use crate::domains::{Moved, move_name, setup_refusal};
use cache::entries::{Entry, is_ahead, is_live, is_too_long};
use wire::buffer::put;
use wire::names::is_name;
use wire::rdata::{A, AAAA, SRV, TXT, form_of, part, strings_fill};
use wire::refusals::Refusal;

// The most seconds that a record is passed on for.
pub const MOST_TTL: u32 = 10;

// A record that is passed on: the length of its owner, its type, its class without the top bit, its TTL, and the length of its rdata.
#[derive(Clone, Copy)]
pub struct Fields {
    pub owner: usize,
    pub rtype: u16,
    pub class: u16,
    pub ttl: u32,
    pub rdata: usize,
}

// A record that is passed on; the bytes of its owner, and those of its rdata where it holds a name (PTR, SRV), zeros after them. Other rdata is passed on as
// it lies, and is not copied: then there are zeros alone.
#[derive(Clone, Copy)]
pub struct Passed {
    pub fields: Fields,
    pub owner: [u8; 255],
    pub rdata: [u8; 261],
}

// Rdata that holds a name, the name mapped: the length of all, and the bytes, zeros after them.
#[derive(Clone, Copy)]
pub struct Content {
    pub len: usize,
    pub bytes: [u8; 261],
}

// Whether a type is that of an address.
#[tactic(auto, unfolding(crate::specs::records::Records::is_address))]
fn is_address(rtype: u16) -> bool
    ensures { result ≡ is_address rtype }
{
    rtype == A || rtype == AAAA
}

// Whether a type is one of the five, and uncompressed rdata is as it asks.
#[tactic(auto, unfolding(crate::specs::records::Records::fits_type))]
pub fn fits_type(rtype: u16, rdata: &[u8]) -> bool
    ensures { result ≡ fits_type rtype rdata.now }
{
    match rtype {
        A => rdata.len() == 4,
        AAAA => rdata.len() == 16,
        TXT => strings_fill(rdata),
        _ => {
            let form = form_of(rtype);
            form.named
                && form.before <= rdata.len()
                && is_name(part(rdata, form.before, rdata.len()))
        }
    }
}

// Whether a record is well formed and of the five types.
fn is_whole(owner: &[u8], rtype: u16, rdata: &[u8]) -> bool
    ensures { result ≡ is_whole owner.now rtype rdata.now }
{
    is_name(owner) && fits_type(rtype, rdata)
}

// A name under "local" under one of the domains instead, that of hosts or that of rich text, where it fits a name.
#[tactic(auto, unfolding(crate::specs::records::Records::outward))]
pub fn from_local(rich: &[u8], ldh: &[u8], host: bool, name: &[u8]) -> Option<Moved>
    ensures { result ≡ moved_of (outward (domains rich.now ldh.now) host name.now) }
{
    let domain = if host { ldh } else { rich };
    move_name(b"\x05local\x00", domain, name)
}

// Rdata with the name in it mapped, where that fits a name; rdata that holds none stays as it lies.
#[tactic(auto, unfolding(crate::specs::records::Records::target_out))]
fn content_of(rich: &[u8], ldh: &[u8], rtype: u16, rdata: &[u8]) -> Option<Content>
    requires { fits_type rtype rdata.now ≡ true }
    ensures { result ≡ content_of (domains rich.now ldh.now) rtype rdata.now }
{
    let form = form_of(rtype);
    let mut bytes = [0u8; 261];
    if !form.named {
        return Some(Content {
            len: rdata.len(),
            bytes,
        });
    }
    let target = part(rdata, form.before, rdata.len());
    let moved = from_local(rich, ldh, rtype == SRV, target)?;
    put(&mut bytes, 0, &rdata[..form.before]);
    put(&mut bytes, form.before, &moved.bytes[..moved.len]);
    Some(Content {
        len: form.before + moved.len,
        bytes,
    })
}

// The lesser of a TTL and 10.
fn capped(ttl: u32) -> u32
    ensures { result ≡ capped ttl }
{
    ttl.min(MOST_TTL)
}

// A record of a mapped owner and mapped rdata.
fn pass(owner: Moved, rtype: u16, class: u16, ttl: u32, rdata: Content) -> Passed
    ensures { result ≡ passed_with owner rtype class ttl rdata }
{
    let name = owner.bytes;
    let bytes = rdata.bytes;
    Passed {
        fields: Fields {
            owner: owner.len,
            rtype,
            class: class % 32768,
            ttl: capped(ttl),
            rdata: rdata.len,
        },
        owner: name,
        rdata: bytes,
    }
}

// A record whose names are uncompressed, its TTL as it counts: as it is passed on, none where it is left out.
#[tactic(auto, unfolding(crate::specs::records::Records::record_out, crate::specs::records::Records::record_refusal, crate::specs::records::Records::mapped, crate::specs::records::Records::rdata_out))]
pub fn record(
    rich: &[u8],
    ldh: &[u8],
    owner: &[u8],
    rtype: u16,
    class: u16,
    ttl: u32,
    rdata: &[u8],
) -> Result<Option<Passed>, Refusal>
    ensures answer { result ≡ record_out (domains rich.now ldh.now)
        (record_of owner.now rtype class ttl rdata.now) }
    ensures number { number_in result ≡ record_refusal (domains rich.now ldh.now)
        (record_of owner.now rtype class ttl rdata.now) }
{
    setup_refusal(rich, ldh)?;
    if !is_whole(owner, rtype, rdata) {
        return Ok(None);
    }
    let name = from_local(rich, ldh, is_address(rtype), owner).ok_or(Refusal::TooLong)?;
    let content = content_of(rich, ldh, rtype, rdata).ok_or(Refusal::TooLong)?;
    Ok(Some(pass(name, rtype, class, ttl, content)))
}

// No record: it is left out, if the domains are as they have to be.
#[tactic(auto, unfolding(crate::specs::records::Records::none_out))]
fn none(rich: &[u8], ldh: &[u8]) -> Result<Option<Passed>, Refusal>
    ensures answer { result ≡ none_out (domains rich.now ldh.now) }
    ensures number { number_in result ≡ setup_refusal (domains rich.now ldh.now) }
{
    setup_refusal(rich, ldh)?;
    Ok(None)
}

// The record at an offset of a message, its names expanded.
pub fn record_at(
    rich: &[u8],
    ldh: &[u8],
    message: &[u8],
    at: usize,
) -> Result<Option<Passed>, Refusal>
    ensures answer { result ≡ item_out (domains rich.now ldh.now) (record_at message.now at) }
    ensures number { number_in result ≡ item_refusal (domains rich.now ldh.now) (record_at message.now at) }
{
    let Some(f) = wire::message::whole_record(message, at) else {
        return none(rich, ldh);
    };
    let owner = wire::names::expand(message, f.owner).bytes;
    let opened = wire::expansion::open(message, f);
    let rdata = wire::expansion::view(message, &opened.bytes, opened.len, f);
    let n = f.span.len;
    record(rich, ldh, &owner[..n], f.rtype, f.class, f.ttl, rdata)
}

// What is left of a cached record, in whole seconds rounded down, and at most 10.
fn seconds_left(time: u64, expiry: u64) -> u32
    ensures { result ≡ capped (left_of time expiry) }
{
    let left = expiry.saturating_sub(time) / 1000;
    left.min(MOST_TTL as u64) as u32
}

// Whether an entry and its slot are refused, as 1 or 8.
#[tactic(auto, unfolding(crate::specs::records::Held::held_refusal))]
fn check_held(time: u64, e: Entry, slot: &[u8]) -> Result<(), Refusal>
    ensures answer { result ≡ refused_by (held_tests time e slot.now) }
    ensures number { number_in result ≡ held_refusal time e slot.now }
{
    if cache::lookup::LATEST < time || is_ahead(e, time) {
        return Err(Refusal::Time);
    }
    if is_too_long(e) || slot.len() != cache::lookup::SLOT {
        return Err(Refusal::Table);
    }
    Ok(())
}

// The record of an entry of the cache and its slot, where it is live.
#[tactic(auto, unfolding(crate::specs::records::Held::held_out, crate::specs::records::Held::held_refusal, crate::specs::records::Held::cached_refusal))]
pub fn cached(
    rich: &[u8],
    ldh: &[u8],
    time: u64,
    e: Entry,
    slot: &[u8],
) -> Result<Option<Passed>, Refusal>
    ensures answer { result ≡ held_out (domains rich.now ldh.now) time e slot.now }
    ensures number { number_in result ≡ cached_refusal (domains rich.now ldh.now) time e slot.now }
{
    check_held(time, e, slot)?;
    if !is_live(e, time) {
        return none(rich, ldh);
    }
    let owner = part(slot, 0, e.owner as usize);
    let rdata = part(slot, 256, e.rdata as usize);
    record(
        rich,
        ldh,
        owner,
        e.rtype,
        1,
        seconds_left(time, e.expiry),
        rdata,
    )
}
