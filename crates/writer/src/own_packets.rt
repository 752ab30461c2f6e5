// Writes the own packets (specification, 'Writing a packet': "ID 0. Responses have flags 0x8400, probes 0. .. by rising type, class 1."; "Unicast answers
// carry the query's ID"; "Our own probes now set the bit"): a response of any of the own records, a claim's probe, and a reply to a plain resolver. Questions
// and records are put by `writer`.
ghost use Rattle.std.specs.Prelude.{◌≡◌, map, ◌+◌, ◌≤◌, ◌<◌, length};
ghost use Rattle.claims.specs.records.Own.{records};
ghost use Rattle.std.proofs.lemmas.List.Edits.{sets};
ghost use Rattle.writer.specs.Items.{put_question, put_record};
ghost use Rattle.wire.specs.message.Message.{Question};
ghost use Rattle.wire.specs.refusals.Numbers.{refused_by};
ghost use Rattle.writer.specs.Writer.{question_of, held_in, Grown};
ghost use Rattle.writer.specs.own_packets.Packets.{put_all, header_bytes};
ghost use Rattle.writer.specs.own_packets.Ready.{HeaderReady, spot_after, OwnReady, Picks, listed, AnswerStyle, ListReady, AskReady, PacketReady};
ghost use Rattle.writer.specs.own_packets.Styles.{response_style, probe_style, plain_style, class_in, ttl_in, asked, own_record, packet_in};
ghost use Rattle.writer.specs.own_packets.Own.{refusal_of, length_of, response_records, probe_records, response_packet, probe_packet, plain_packet};
ghost use Rattle.writer.specs.own_packets.Own.{write_tests, refusal, unless_refused, answer_to, chosen_packet, laid_over};
ghost use Rattle.writer.specs.own_packets.Goodbye.{goodbye_style, goodbye_packet};

use crate::{Misfit, Spot};
use claims::records::{Claim, Own, RECORDS, Set};
use own::records::Setup;
use wire::refusals::Refusal;

// The least buffer that a packet is written into.
pub const LEAST_OUT: usize = 1452;

// How many offsets of labels are noted in a packet at most: a question's name has at most 127, the own records that a plain reply may have 21 with their names
// whole, and all own records 33.
const MOST_PLACES: usize = 148;

// The flags of a response: the QR and the AA bit.
const RESPONSE_FLAGS: u16 = 0x8400;

// The class of a probe's question: 1, with the top bit for an answer by unicast.
const PROBE_CLASS: u16 = 0x8001;

// The TTL of records in a reply to a plain resolver.
const PLAIN_TTL: u32 = 10;

// The type and the class of a question.
#[derive(Clone, Copy)]
pub struct Asked {
    pub qtype: u16,
    pub qclass: u16,
}

// How a packet of own records is written: its header, the type and the class of the question in front, if there is one, the section of the records
// (Authority, else Answers), the TTL of all of them (none: each has its own), whether those that are not shared have the class's top bit, and whether the
// target of the SRV is written whole.
// The flags choose what is written: no value stands or falls with them.
#[derive(Clone, Copy)]
pub struct Style {
    pub id: u16,
    pub flags: u16,
    pub asks: Option<Asked>,
    pub authority: bool,
    pub ttl: Option<u32>,
    pub flush: bool,
    pub whole: bool,
}

// Own records to write, in this order: those of the first `n` indices.
#[derive(Clone, Copy)]
pub struct Picked {
    pub order: [usize; RECORDS],
    pub n: usize,
}

// The tests of a call that writes a packet into a buffer of so many bytes.
fn check_call(s: Setup, room: usize) -> Result<(), Refusal>
    ensures { result ≡ refused_by (write_tests s room) }
{
    if room < LEAST_OUT {
        return Err(Refusal::Buffer);
    }
    if !own::setups::check_setup(s) {
        return Err(Refusal::Setup);
    }
    Ok(())
}

// "Responses have flags 0x8400", and of the own records all but PTR have class 0x8001. The ID is 0 to all, and the query's to one that wants unicast.
fn response_style(id: u16) -> Style
    ensures { result ≡ response_style id }
{
    Style {
        id,
        flags: RESPONSE_FLAGS,
        asks: None,
        authority: false,
        ttl: None,
        flush: true,
        whole: false,
    }
}

// "A probe is one question (type 255, ..) with the claim's records in Authority, .. class 1."; it wants unicast: "00 ff 80 01".
fn probe_style() -> Style
    ensures { result ≡ probe_style }
{
    Style {
        id: 0,
        flags: 0,
        asks: Some(Asked {
            qtype: 255,
            qclass: PROBE_CLASS,
        }),
        authority: true,
        ttl: None,
        flush: false,
        whole: false,
    }
}

// A reply to a plain resolver repeats the ID and the question of its query, and says nothing that is for caches of mDNS alone.
fn plain_style(id: u16, qtype: u16, qclass: u16) -> Style
    ensures { result ≡ plain_style id qtype qclass }
{
    Style {
        id,
        flags: RESPONSE_FLAGS,
        asks: Some(Asked { qtype, qclass }),
        authority: false,
        ttl: Some(PLAIN_TTL),
        flush: false,
        whole: true,
    }
}

// Writes a header; there are no additional records.
fn put_header(
    out: &mut [u8],
    id: usize,
    flags: usize,
    questions: usize,
    answers: usize,
    authorities: usize,
)
    requires { HeaderReady id flags questions answers authorities out.old }
    ensures { out.new ≡ sets out.old 0 (header_bytes id flags questions answers authorities 0) }
{
    crate::put_u16(out, 0, id);
    crate::put_u16(out, 2, flags);
    crate::put_u16(out, 4, questions);
    crate::put_u16(out, 6, answers);
    crate::put_u16(out, 8, authorities);
    crate::put_u16(out, 10, 0);
}

// Where the packet ends after `writer` was to put something behind it. What is own is fit and has room, so that only `Ok` is ever answered here.
fn spot_after(placed: Result<Spot, Misfit>, at: usize, count: usize) -> Spot
    ensures { result ≡ spot_after placed at count }
{
    placed.unwrap_or(Spot { end: at, count })
}

// The class of an own record.
fn class_in(style: Style, o: Own) -> u16
    ensures { result ≡ class_in style o }
{
    if style.flush {
        claims::records::own_class(o)
    } else {
        1
    }
}

// The TTL of an own record.
fn ttl_in(rule: Option<u32>, o: Own) -> u32
    ensures { result ≡ ttl_in rule o }
{
    rule.unwrap_or(claims::records::own_ttl(o))
}

// Writes an own record behind the packet `out[..at]`.
fn write_own(
    s: Setup,
    o: Own,
    style: Style,
    out: &mut [u8],
    at: usize,
    places: &mut [usize],
    count: usize,
) -> Spot
    requires { OwnReady s style o at count out.old places.old }
    ensures { Grown (put_record style.whole (held_in out.old places.old at count) (own_record s style o))
        out.old places.old result out.new places.new }
{
    let owner = own::records::own_name(s, o);
    let own = own::records::own_rdata(s, o);
    let placed = crate::put_record(
        out,
        at,
        places,
        count,
        style.whole,
        &owner.bytes[..owner.len],
        claims::records::own_type(o),
        class_in(style, o),
        ttl_in(style.ttl, o),
        &own.bytes[..own.len],
    );
    spot_after(placed, at, count)
}

// The records that are chosen and that the set-up has.
fn pick(s: Setup, chosen: Set) -> Picked
    ensures { Picks (response_records s chosen) result }
{
    let mut order = [0usize; RECORDS];
    let mut n = 0;
    for i in 0..RECORDS {
        let o = claims::records::record_at(i);
        if claims::records::is_in(o, chosen) && own::records::has_record(s, o) {
            order[n] = i;
            n += 1;
        }
    }
    Picked { order, n }
}

// A claim's records, by rising type.
fn pick_claim(s: Setup, claim: Claim) -> Picked
    ensures { Picks (probe_records s claim) result }
{
    let second = claims::records::second_of(claim);
    let mut order = [0usize; RECORDS];
    order[0] = claims::records::index_of(claims::records::first_of(claim));
    if !own::records::has_record(s, second) {
        return Picked { order, n: 1 };
    }
    order[1] = claims::records::index_of(second);
    Picked { order, n: 2 }
}

// Writes own records one after the other behind the packet `out[..at]`.
fn write_list(
    s: Setup,
    list: Picked,
    style: Style,
    out: &mut [u8],
    at: usize,
    places: &mut [usize],
    count: usize,
) -> Spot
    requires list_ready { ListReady s style (listed list) at count out.old places.old }
    requires n_le_records { (list.n ≤ records) × (length list.order ≡ records) }
    ensures { Grown
        (put_all (put_record style.whole) (held_in out.old places.old at count) (map (own_record s style) (listed list)))
        out.old places.old result out.new places.new }
{
    let mut end = at;
    let mut noted = count;
    for &i in &list.order[..list.n] {
        let o = claims::records::record_at(i);
        let r = write_own(s, o, style, out, end, places, noted);
        end = r.end;
        noted = r.count;
    }
    Spot { end, count: noted }
}

// Writes the question for a name behind the header, where the style asks one.
fn write_asked(style: Style, name: &[u8], out: &mut [u8], places: &mut [usize]) -> Spot
    requires { AskReady style name.now out.old places.old }
    ensures { Grown (put_all put_question (held_in out.old places.old 12 0) (asked style name.now))
        out.old places.old result out.new places.new }
{
    let Some(asked) = style.asks else {
        return Spot { end: 12, count: 0 };
    };
    let placed = crate::put_question(out, 12, places, 0, name, asked.qtype, asked.qclass);
    spot_after(placed, 12, 0)
}

// Writes a packet of own records in a style, and answers its length.
fn write_packet(s: Setup, style: Style, name: &[u8], list: Picked, out: &mut [u8]) -> usize
    requires packet_ready { PacketReady s style name.now (listed list) out.old }
    requires n_le_records { (list.n ≤ records) × (length list.order ≡ records) }
    ensures value { result ≡ length (packet_in s style name.now (listed list)) }
    ensures out_after { out.new ≡ laid_over (packet_in s style name.now (listed list)) out.old }
{
    let questions = if style.asks.is_some() { 1 } else { 0 };
    let (answers, authorities) = if style.authority {
        (0, list.n)
    } else {
        (list.n, 0)
    };
    put_header(
        out,
        style.id as usize,
        style.flags as usize,
        questions,
        answers,
        authorities,
    );
    let mut places = [0usize; MOST_PLACES];
    let q = write_asked(style, name, out, &mut places);
    let r = write_list(s, list, style, out, q.end, &mut places, q.count);
    r.end
}

// Writes the chosen ones of the own records that the set-up has, in a style that asks nothing.
fn write_chosen(
    s: Setup,
    style: Style,
    chosen: Set,
    out: &mut [u8],
) -> Result<Option<usize>, Refusal>
    requires { AnswerStyle style }
    ensures answer { result ≡ answer_to s out.old (chosen_packet s style chosen) }
    ensures out { out.new ≡ laid_over (unless_refused (refusal s out.old) (chosen_packet s style chosen)) out.old }
    ensures number { refusal_of result ≡ refusal s out.old }
    ensures sent { length_of result ≡ length (unless_refused (refusal s out.old) (chosen_packet s style chosen)) }
{
    check_call(s, out.len())?;
    let list = pick(s, chosen);
    if list.n == 0 {
        return Ok(None);
    }
    Ok(Some(write_packet(s, style, b"", list, out)))
}

// Writes a response with this ID of the chosen ones of the own records that the set-up has: PTR, SRV, TXT, A, AAAA, and the two NSEC.
#[tactic(auto, unfolding(crate::specs::own_packets::Own::response_packet))]
pub fn respond(s: Setup, id: u16, chosen: Set, out: &mut [u8]) -> Result<Option<usize>, Refusal>
    ensures answer { result ≡ answer_to s out.old (response_packet s id chosen) }
    ensures out { out.new ≡ laid_over (unless_refused (refusal s out.old) (response_packet s id chosen)) out.old }
    ensures number { refusal_of result ≡ refusal s out.old }
    ensures sent { length_of result ≡ length (unless_refused (refusal s out.old) (response_packet s id chosen)) }
{
    write_chosen(s, response_style(id), chosen, out)
}

// Writes a claim's probe.
pub fn probe(s: Setup, claim: Claim, out: &mut [u8]) -> Result<Option<usize>, Refusal>
    ensures answer { result ≡ answer_to s out.old (probe_packet s claim) }
    ensures out { out.new ≡ laid_over (unless_refused (refusal s out.old) (probe_packet s claim)) out.old }
    ensures number { refusal_of result ≡ refusal s out.old }
    ensures sent { length_of result ≡ length (unless_refused (refusal s out.old) (probe_packet s claim)) }
{
    check_call(s, out.len())?;
    let list = pick_claim(s, claim);
    let owner = own::records::own_name(s, claims::records::first_of(claim));
    Ok(Some(write_packet(s, probe_style(), &owner.bytes[..owner.len], list, out)))
}

// Writes a reply to the question of a plain resolver, with the ID of its query: the chosen ones of the own records that carry data and that the set-up has.
pub fn plain_reply(
    s: Setup,
    chosen: Set,
    id: u16,
    name: &[u8],
    qtype: u16,
    qclass: u16,
    out: &mut [u8],
) -> Result<Option<usize>, Refusal>
    ensures answer { (let q : Question = question_of name.now qtype qclass in
        result ≡ answer_to s out.old (plain_packet s chosen id q)) }
    ensures out { (let q : Question = question_of name.now qtype qclass in
        out.new ≡ laid_over (unless_refused (refusal s out.old) (plain_packet s chosen id q)) out.old) }
    ensures number { refusal_of result ≡ refusal s out.old }
    ensures sent { (let q : Question = question_of name.now qtype qclass in
        length_of result ≡ length (unless_refused (refusal s out.old) (plain_packet s chosen id q))) }
{
    check_call(s, out.len())?;
    if !wire::names::is_name(name) {
        return Ok(None);
    }
    let records = pick(s, claims::records::with_data(chosen));
    if records.n == 0 {
        return Ok(None);
    }
    let style = plain_style(id, qtype, qclass);
    Ok(Some(write_packet(s, style, name, records, out)))
}

// A goodbye is a response whose records have TTL 0.
fn goodbye_style() -> Style
    ensures { result ≡ goodbye_style }
{
    Style {
        ttl: Some(0),
        ..response_style(0)
    }
}

// Writes a goodbye to the chosen ones of the own records that the set-up has.
#[tactic(auto, unfolding(crate::specs::own_packets::Goodbye::goodbye_packet))]
pub fn goodbye(s: Setup, chosen: Set, out: &mut [u8]) -> Result<Option<usize>, Refusal>
    ensures answer { result ≡ answer_to s out.old (goodbye_packet s chosen) }
    ensures out { out.new ≡ laid_over (unless_refused (refusal s out.old) (goodbye_packet s chosen)) out.old }
    ensures number { refusal_of result ≡ refusal s out.old }
    ensures sent { length_of result ≡ length (unless_refused (refusal s out.old) (goodbye_packet s chosen)) }
{
    write_chosen(s, goodbye_style(), chosen, out)
}
