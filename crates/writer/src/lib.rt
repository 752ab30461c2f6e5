// The general writer (specification, 'Writing a packet': "Every name, SRV and PTR rdata too, is cut at its longest suffix of whole labels that stands
// earlier"): puts a question or a record of any names behind the packet in a lent buffer, or answers that there is no room for it or that no message has it.
#![tactic(auto)]

pub mod compression;
pub mod own_packets;

ghost use Rattle.std.specs.Prelude.{◌≡◌, ◌+◌, ◌≤◌, ◌<◌, length, take};
ghost use Rattle.std.proofs.lemmas.List.Edits.{sets};
ghost use Rattle.writer.specs.compression.Compression.{name_bytes, name_places};
ghost use Rattle.wire.specs.labels.Counted.{starts, labels_in};
ghost use Rattle.writer.specs.Items.{u16, fields, data_bytes, data_places, tried_for, put_question, put_record};
ghost use Rattle.wire.specs.message.Message.{Record, record_of};
ghost use Rattle.wire.specs.names.Names.{is_name};
ghost use Rattle.writer.specs.Fit.{form_for, is_shaped, fit_record};
ghost use Rattle.writer.specs.Writer.{held_in, room_in, question_of, labels_for, name_fits, question_fits, record_fits};
ghost use Rattle.writer.specs.Writer.{Placing, Wrote, Grown, NameReady, DataReady, RecordReady, QuestionReady};

use wire::rdata::Form;

// A pointer has 14 bits: no name is written that would end behind this offset.
pub const MOST_POINTED: usize = 16384;

// Where what was written ends, and how many places of labels are noted.
#[derive(Clone, Copy)]
pub struct Spot {
    pub end: usize,
    pub count: usize,
}

// What is left of a lent buffer of `len` bytes, of which `at` are written, and of its table of `slots` places, of which `count` are noted.
#[derive(Clone, Copy)]
pub struct Room {
    pub at: usize,
    pub len: usize,
    pub count: usize,
    pub slots: usize,
}

// Why a question or a record was not put into the packet: there is no room for it, or it is none that a reader takes.
#[derive(Clone, Copy)]
pub enum Misfit {
    Full,
    Unfit,
}

// A TTL from here on has its top bit set and is read as 0.
pub const TOP_TTL: u32 = 2147483648;

// The most bytes of rdata: its length is written in two.
pub const MOST_RDATA: usize = 65535;

// Writes a number of two bytes, most significant first.
fn put_u16(out: &mut [u8], at: usize, v: usize)
    requires { (at + 2 ≤ length out.old) × (v < 65536) }
    ensures { out.new ≡ sets out.old at (u16 v) }
{
    out[at] = (v / 256) as u8;
    out[at + 1] = (v % 256) as u8;
}

// Notes where the labels of `s`, written at `at`, start; answers how many places are noted then.
fn note_starts(places: &mut [usize], count: usize, at: usize, s: &[u8]) -> usize
    requires { (count + length (starts at 0 s.now) ≤ length places.old) × (at + length s.now < 9223372036854775808) }
    ensures value { result ≡ count + length (starts at 0 s.now) }
    ensures places_after { places.new ≡ sets places.old count (starts at 0 s.now) }
{
    let mut next = count;
    // by strides of a label each, so that no `for` fits
    let mut i = 0;
    while i < s.len() {
        let n = s[i] as usize;
        if n == 0 {
            return next;
        }
        places[next] = at + i;
        next += 1;
        i = i + 1 + n;
    }
    next
}

// Writes a name at `at`, cut by what stands in the packet `out[..known]` at the offsets `places[..tried]`; its labels are noted from `count` on.
fn put_name(
    out: &mut [u8],
    known: usize,
    at: usize,
    places: &mut [usize],
    count: usize,
    tried: usize,
    name: &[u8],
) -> Spot
    requires { NameReady known at count tried name.now out.old places.old }
    ensures { Wrote (name_bytes (take known out.old) (take tried places.old) name.now)
        (name_places (take known out.old) (take tried places.old) at name.now)
        at count out.old places.old result out.new places.new }
{
    let cut = crate::compression::cut_of(&out[..known], &places[..tried], name);
    let front = &name[..cut.kept];
    wire::buffer::put(out, at, front);
    let noted = note_starts(places, count, at, front);
    let end = at + cut.kept;
    match cut.place {
        Some(o) => {
            put_u16(out, end, 49152 + o);
            Spot {
                end: end + 2,
                count: noted,
            }
        }
        None => {
            out[end] = 0;
            Spot {
                end: end + 1,
                count: noted,
            }
        }
    }
}

// The form of rdata that is given with its name expanded, for the owner of the record.
#[tactic(auto, using(wire::proofs::nsec::Blocks::nsec_long), unfolding(crate::specs::Fit::form_for))]
fn form_for(owner: &[u8], rtype: u16, d: &[u8]) -> Form
    ensures { result ≡ form_for owner.now rtype d.now }
{
    if rtype != wire::rdata::NSEC || !wire::nsec::is_nsec(owner, d) {
        return wire::rdata::form_of(rtype);
    }
    Form {
        named: true,
        before: 0,
        behind: d.len() - owner.len(),
    }
}

// Writes rdata of a form at `at`, the name in it cut by what stands in the packet `out[..known]` at the offsets `places[..tried]`.
fn put_data(
    out: &mut [u8],
    known: usize,
    at: usize,
    places: &mut [usize],
    count: usize,
    tried: usize,
    held: Form,
    d: &[u8],
) -> Spot
    requires { DataReady known at count tried held d.now out.old places.old }
    ensures { Wrote (data_bytes (take known out.old) (take tried places.old) held d.now)
        (data_places (take known out.old) (take tried places.old) at held d.now)
        at count out.old places.old result out.new places.new }
{
    if held.named {
        let head = held.before;
        let tail = d.len() - held.behind;
        wire::buffer::put(out, at, &d[..head]);
        let named = put_name(out, known, at + head, places, count, tried, &d[head..tail]);
        let end = named.end;
        wire::buffer::put(out, end, &d[tail..]);
        return Spot {
            end: end + held.behind,
            count: named.count,
        };
    }
    wire::buffer::put(out, at, d);
    Spot {
        end: at + d.len(),
        count,
    }
}

// Writes type, class, TTL and the length of the rdata.
fn put_fields(out: &mut [u8], at: usize, rtype: u16, class: u16, ttl: u32, len: usize)
    requires { (at + 10 ≤ length out.old) × (len < 65536) }
    ensures { out.new ≡ sets out.old at (fields rtype class ttl len) }
{
    put_u16(out, at, rtype as usize);
    put_u16(out, at + 2, class as usize);
    put_u16(out, at + 4, (ttl / 65536) as usize);
    put_u16(out, at + 6, (ttl % 65536) as usize);
    put_u16(out, at + 8, len);
}

// How many of the noted places are tried for the name in rdata: none where the target of an SRV is written whole.
fn tried_for(whole: bool, rtype: u16, count: usize) -> usize
    ensures { result ≡ tried_for whole rtype count }
{
    if whole && rtype == wire::rdata::SRV {
        0
    } else {
        count
    }
}

// Writes a record behind the packet `out[..at]`: the owner, the rdata ten bytes further, and then the ten bytes, when the length is known.
fn write_record(
    out: &mut [u8],
    at: usize,
    places: &mut [usize],
    count: usize,
    whole: bool,
    owner: &[u8],
    rtype: u16,
    class: u16,
    ttl: u32,
    d: &[u8],
) -> Spot
    requires { RecordReady (room_in out.old places.old at count) owner.now rtype ttl d.now }
    ensures { (let x : Record = record_of owner.now rtype class ttl d.now in
        Grown (put_record whole (held_in out.old places.old at count) x)
        out.old places.old result out.new places.new) }
{
    let a = put_name(out, at, at, places, count, count, owner);
    let body = a.end + 10;
    let tried = tried_for(whole, rtype, a.count);
    let held = form_for(owner, rtype, d);
    let b = put_data(out, a.end, body, places, a.count, tried, held, d);
    put_fields(out, a.end, rtype, class, ttl, b.end - body);
    b
}

// Writes a question behind the packet `out[..at]`.
fn write_question(
    out: &mut [u8],
    at: usize,
    places: &mut [usize],
    count: usize,
    name: &[u8],
    rtype: u16,
    class: u16,
) -> Spot
    requires { QuestionReady (room_in out.old places.old at count) name.now }
    ensures { Grown (put_question (held_in out.old places.old at count) (question_of name.now rtype class))
        out.old places.old result out.new places.new }
{
    let a = put_name(out, at, at, places, count, count, name);
    put_u16(out, a.end, rtype as usize);
    put_u16(out, a.end + 2, class as usize);
    Spot {
        end: a.end + 4,
        count: a.count,
    }
}

// Whether there is room for a name, with `more` bytes behind it and `also` places besides those of its labels.
#[tactic(auto, unfolding(crate::specs::Writer::name_fits))]
fn name_fits(room: Room, name: &[u8], more: usize, also: usize) -> bool
    ensures { result ≡ name_fits room name.now more also }
{
    let Room {
        at,
        len,
        count,
        slots,
    } = room;
    if len < at || len - at < name.len() || len - at - name.len() < more {
        return false;
    }
    if MOST_POINTED < at || MOST_POINTED - at < name.len() {
        return false;
    }
    let labels = wire::labels::labels_in(name);
    count <= slots && labels <= slots - count && also <= slots - count - labels
}

// How many labels the name in rdata of a form has.
#[tactic(auto, using(crate::proofs::Fitting::none_there), unfolding(crate::specs::Writer::labels_for))]
fn labels_for(held: Form, d: &[u8]) -> usize
    ensures { result ≡ labels_for held d.now }
{
    if !held.named || d.len() < held.behind || d.len() - held.behind < held.before {
        return 0;
    }
    wire::labels::labels_in(&d[held.before..d.len() - held.behind])
}

// Whether there is room for a record.
#[tactic(auto, unfolding(crate::specs::Writer::record_fits))]
fn record_fits(room: Room, owner: &[u8], rtype: u16, d: &[u8]) -> bool
    requires { length d.now ≤ 65535 }
    ensures { result ≡ record_fits room owner.now rtype d.now }
{
    let held = form_for(owner, rtype, d);
    let also = labels_for(held, d);
    name_fits(room, owner, 10 + d.len(), also)
}

// Whether rdata is as its type asks, the name in it expanded.
#[tactic(auto, unfolding(crate::specs::Fit::is_shaped))]
fn is_shaped(owner: &[u8], rtype: u16, d: &[u8]) -> bool
    ensures { result ≡ is_shaped owner.now rtype d.now }
{
    let n = d.len();
    let held = form_for(owner, rtype, d);
    if held.named {
        return held.behind <= n
            && held.before <= n - held.behind
            && wire::names::is_name(&d[held.before..n - held.behind]);
    }
    match rtype {
        wire::rdata::A => n == 4,
        wire::rdata::TXT => wire::rdata::strings_fill(d),
        wire::rdata::AAAA => n == 16,
        wire::rdata::NSEC => wire::names::name_at(d, 0).is_some(),
        _ => true,
    }
}

// Whether a record is one that a reader takes as it is written.
#[tactic(auto, unfolding(crate::specs::Fit::fit_record))]
fn fit_record(owner: &[u8], rtype: u16, ttl: u32, d: &[u8]) -> bool
    ensures { result ≡ fit_record owner.now rtype ttl d.now }
{
    wire::names::is_name(owner)
        && is_shaped(owner, rtype, d)
        && d.len() <= MOST_RDATA
        && ttl < TOP_TTL
}

// Puts a question behind the packet `out[..at]`, whose names have labels at the offsets `places[..count]`. Where it is not put every byte is kept.
pub fn put_question(
    out: &mut [u8],
    at: usize,
    places: &mut [usize],
    count: usize,
    name: &[u8],
    rtype: u16,
    class: u16,
) -> Result<Spot, Misfit>
    ensures { Placing (is_name name.now)
        (question_fits (room_in out.old places.old at count) name.now)
        (put_question (held_in out.old places.old at count) (question_of name.now rtype class))
        out.old places.old result out.new places.new }
{
    if !wire::names::is_name(name) {
        return Err(Misfit::Unfit);
    }
    let room = Room {
        at,
        len: out.len(),
        count,
        slots: places.len(),
    };
    if !name_fits(room, name, 4, 0) {
        return Err(Misfit::Full);
    }
    Ok(write_question(out, at, places, count, name, rtype, class))
}

// Puts a record, its rdata given with names expanded, behind the packet `out[..at]`; every name in it is cut, or with `whole` every name but the target
// of an SRV. Where it is not put every byte is kept.
#[tactic(auto, using(crate::proofs::Fitting::fit_short))]
pub fn put_record(
    out: &mut [u8],
    at: usize,
    places: &mut [usize],
    count: usize,
    whole: bool,
    owner: &[u8],
    rtype: u16,
    class: u16,
    ttl: u32,
    d: &[u8],
) -> Result<Spot, Misfit>
    ensures { Placing (fit_record owner.now rtype ttl d.now)
        (record_fits (room_in out.old places.old at count) owner.now rtype d.now)
        (put_record whole (held_in out.old places.old at count) (record_of owner.now rtype class ttl d.now))
        out.old places.old result out.new places.new }
{
    if !fit_record(owner, rtype, ttl, d) {
        return Err(Misfit::Unfit);
    }
    let room = Room {
        at,
        len: out.len(),
        count,
        slots: places.len(),
    };
    if !record_fits(room, owner, rtype, d) {
        return Err(Misfit::Full);
    }
    Ok(write_record(out, at, places, count, whole, owner, rtype, class, ttl, d))
}
