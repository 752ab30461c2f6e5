// The responder (specification, 'Refusal numbers', 'A claim's life', 'Which answers go out'): start, packet received and tick, each on a state by value; stops
// and updates are in `changes`.
// A call tests its refusals in the specification's order, has the parts below read, judge and write, and answers with the state after it.
#![tactic(auto)]

pub mod address;
pub mod changes;

ghost use Rattle.std.specs.Prelude.{◌≡◌, List, ℕ, length, ◌||◌};
ghost use Rattle.wire.specs.refusals.Numbers.{refused_by};
ghost use Rattle.wire.specs.message.Message.{Message};
ghost use Rattle.wire.specs.message.Layout.{read, message_at, read_of};
ghost use Rattle.wire.specs.message.Readable.{message_in};
ghost use Rattle.writer.specs.own_packets.Own.{length_of, refusal, laid_over};
ghost use Rattle.responder.specs.Handed.{Arrival, Tick};
ghost use Rattle.responder.specs.Refusals.{small_buffer, wrong_state, start_tests, start_refusal, tick_tests, admitted};
ghost use Rattle.responder.specs.Calls.{refusal_of, answer_with, blank, packet_for, plain_for, reply_to, heard_by, start_of, Receives, Ticks};

use claims::answers::{self, Coming, Facts};
use claims::holds::Address;
use claims::records::Set;
use claims::steps::Output;
use claims::{ClaimState, Progress, refusal_tests};
use own::records::{Label, Service, Setup, Strings};
use own::setups::check_setup;
use wire::message::{Layout, MDNS_PORT, question_at, read_from};
use wire::names::expand;
use wire::rdata::part;
use wire::refusals::Refusal;
use writer::own_packets::{self, LEAST_OUT};

// A responder: what it was set up with, and all that changes in it.
#[derive(Clone, Copy)]
pub struct State {
    pub setup: Setup,
    pub progress: Progress,
}

// What a call answers: its refusal, that it sends nothing, or the lengths of the packets that it wrote: of the one to all on the link, of the
// one to where the message came from that it answers, or of both.
#[derive(Clone, Copy)]
pub enum Answer {
    Refused(Refusal),
    Quiet,
    Sent(usize),
    Unicast(usize),
    Both(usize, usize),
}

#[derive(Clone, Copy)]
pub struct Started {
    pub answer: Answer,
    pub state: State,
}

#[derive(Clone, Copy)]
pub struct Received {
    pub answer: Answer,
    pub state: State,
}

// A tick also says whether more is due.
#[derive(Clone, Copy)]
pub struct Ticked {
    pub answer: Answer,
    pub more: bool,
    pub state: State,
}

// The state of a refused start: no names, no records, both claims lost. Every call refuses it.
pub fn blank_state() -> State
    ensures { result ≡ blank }
{
    State {
        setup: Setup {
            instance: Label {
                bytes: [0; 63],
                len: 0,
            },
            service: Service {
                bytes: [0; 16],
                len: 0,
            },
            protocol: [0; 4],
            host: Label {
                bytes: [0; 63],
                len: 0,
            },
            domain: [0; 5],
            port: 0,
            txt: Strings {
                bytes: [0; 400],
                len: 0,
            },
            a: [0; 4],
            hasaaaa: false,
            aaaa: [0; 16],
        },
        progress: Progress {
            instance: ClaimState::Lost,
            host: ClaimState::Lost,
            sent: claims::never_sent(),
            reply: None,
            holds: claims::holds::no_holds(),
            updated: None,
            draw: 0,
            last: 0,
        },
    }
}

// The refusal of a start, if it is refused.
fn admit_start(setup: Setup, time: u64, draw: u64) -> Result<(), Refusal>
    ensures { result ≡ refused_by (start_tests setup time draw) }
{
    if refusal_tests::start_time_refused(time) {
        return Err(Refusal::Time);
    }
    if refusal_tests::start_draw_refused(draw) {
        return Err(Refusal::Draw);
    }
    if !check_setup(setup) {
        return Err(Refusal::Setup);
    }
    Ok(())
}

// Begins a responder, whose first probes wait for the draw.
pub fn start(setup: Setup, time: u64, draw: u64) -> Started
    ensures answer { result ≡ start_of setup time draw }
    ensures number { refusal_of result.answer ≡ start_refusal setup time draw }
{
    match admit_start(setup, time, draw) {
        Ok(()) => Started {
            answer: Answer::Quiet,
            state: State {
                setup,
                progress: claims::start(time, draw),
            },
        },
        Err(refusal) => Started {
            answer: Answer::Refused(refusal),
            state: blank_state(),
        },
    }
}

// Refusal 7: the set-up breaks the rules, or the kept start draw is too great.
fn state_refused(state: State) -> bool
    ensures { result ≡ wrong_state state }
{
    let progress = state.progress;
    !check_setup(state.setup) || refusal_tests::start_draw_refused(progress.draw)
}

// The answer for packets of these lengths, to all and to the asker.
fn answer_with(sent: usize, replied: usize) -> Answer
    ensures { result ≡ answer_with sent replied }
{
    match (sent, replied) {
        (0, 0) => Answer::Quiet,
        (0, _) => Answer::Unicast(replied),
        (_, 0) => Answer::Sent(sent),
        (_, _) => Answer::Both(sent, replied),
    }
}

// The length of what was written.
fn length_of(written: Result<Option<usize>, Refusal>) -> usize
    ensures { result ≡ length_of written }
{
    match written {
        Ok(Some(n)) => n,
        Ok(None) | Err(_) => 0,
    }
}

// Writes what a call sends to all, if anything, and gives its length.
fn send(setup: Setup, output: Output, out: &mut [u8]) -> usize
    requires { refusal setup out.old ≡ 0 }
    ensures value { result ≡ length (packet_for setup output) }
    ensures out_after { out.new ≡ laid_over (packet_for setup output) out.old }
{
    match output {
        Output::Nothing => 0,
        Output::Probe(k) => length_of(own_packets::probe(setup, k, out)),
        Output::Response(set) => length_of(own_packets::respond(setup, 0, set, out)),
    }
}

// Writes the reply to the question of a plain resolver, where its query has just one and there is a record to send, and gives its length.
fn plain_reply(setup: Setup, set: Set, packet: &[u8], l: Layout, out: &mut [u8]) -> usize
    requires out_value { refusal setup out.old ≡ 0 }
    requires packet_value { (says : Message) × (message_at packet.now ≡ read l says) }
    ensures result_value { let m = message_in packet.now l in result ≡ length (plain_for setup set m.id m.questions) }
    ensures out_after { let m = message_in packet.now l in
        out.new ≡ laid_over (plain_for setup set m.id m.questions) out.old }
{
    let questions = l.questions;
    if questions.count != 1 {
        return 0;
    }
    let Some(q) = question_at(packet, questions.at) else {
        return 0;
    };
    let name = expand(packet, q.name);
    let span = q.span;
    length_of(own_packets::plain_reply(
        setup,
        set,
        l.id,
        part(&name.bytes, 0, span.len),
        q.rtype,
        q.class,
        out,
    ))
}

// Writes what goes to where a message came from, if anything, and gives its length.
fn reply(setup: Setup, set: Set, port: u16, packet: &[u8], l: Layout, out: &mut [u8]) -> usize
    requires out_value { refusal setup out.old ≡ 0 }
    requires packet_value { (says : Message) × (message_at packet.now ≡ read l says) }
    ensures value { result ≡ length (reply_to setup port set (message_in packet.now l)) }
    ensures out_after { out.new ≡ laid_over (reply_to setup port set (message_in packet.now l)) out.old }
{
    if port == MDNS_PORT {
        length_of(own_packets::respond(setup, l.id, set, out))
    } else {
        plain_reply(setup, set, packet, l, out)
    }
}

// Refusal 3 of a packet received: either out buffer is too small.
fn rooms_refused(room: usize, unicastroom: usize) -> bool
    ensures { result ≡ small_buffer room || small_buffer unicastroom }
{
    room < LEAST_OUT || unicastroom < LEAST_OUT
}

// Where the sections of a packet received lie, or the call's refusal.
fn admit(
    state: State,
    time: u64,
    from: Address,
    port: u16,
    draw: u64,
    hold: u64,
    packet: &[u8],
    room: usize,
    unicastroom: usize,
) -> Result<Layout, Refusal>
    ensures { (let p : List ℕ = packet.now in
        let a : Arrival =
        record { time = time; from = from; port = port; draw = draw; hold = hold; packet = p; room = room; unicastroom = unicastroom } in
        result ≡ read_of (admitted state a)) }
{
    if refusal_tests::time_refused(state.progress, time) {
        return Err(Refusal::Time);
    }
    if refusal_tests::draws_refused(draw, hold) {
        return Err(Refusal::Draw);
    }
    if rooms_refused(room, unicastroom) {
        return Err(Refusal::Buffer);
    }
    let l = read_from(packet, port)?;
    if state_refused(state) {
        return Err(Refusal::Setup);
    }
    Ok(l)
}

// What a message that came by a port does to the claims, and which records go out for it.
fn hear(
    progress: Progress,
    port: u16,
    coming: Coming,
    facts: Facts,
    aaaa: bool,
) -> answers::Received
    ensures { result ≡ heard_by progress port coming facts aaaa }
{
    if port == MDNS_PORT {
        answers::receive(progress, coming, facts, aaaa)
    } else {
        answers::plain(progress, coming.now, facts, aaaa)
    }
}

// Takes a packet that came from an address and port, with the draws for a PTR reply and for a hold, and writes the answers that go out at once: to all into
// the first buffer; into the second to where the packet came from, a plain resolver, which asks from another port than 5353, or one that wants unicast.
pub fn receive(
    state: State,
    time: u64,
    from: Address,
    port: u16,
    draw: u64,
    hold: u64,
    packet: &[u8],
    out: &mut [u8],
    unicast: &mut [u8],
) -> Received
    ensures { (let room = length out.old in
        let unicastroom = length unicast.old in
        let p : List ℕ = packet.now in
        let a : Arrival =
        record { time = time; from = from; port = port; draw = draw; hold = hold; packet = p; room = room; unicastroom = unicastroom } in
        Receives state a out.old unicast.old result out.new unicast.new) }
{
    match admit(
        state,
        time,
        from,
        port,
        draw,
        hold,
        packet,
        out.len(),
        unicast.len(),
    ) {
        Ok(l) => {
            let setup = state.setup;
            let facts = facts::facts(packet, l, setup);
            let coming = Coming {
                now: time,
                from,
                draw,
                hold,
            };
            let heard = hear(state.progress, port, coming, facts, setup.hasaaaa);
            let sent = send(setup, Output::Response(heard.answers), out);
            let replied = reply(setup, heard.unicast, port, packet, l, unicast);
            Received {
                answer: answer_with(sent, replied),
                state: State {
                    setup,
                    progress: heard.progress,
                },
            }
        }
        Err(refusal) => Received {
            answer: Answer::Refused(refusal),
            state,
        },
    }
}

// The refusal of a tick, if it is refused.
fn admit_tick(state: State, time: u64, room: usize) -> Result<(), Refusal>
    ensures { (let t : Tick = record { time = time; room = room } in result ≡ refused_by (tick_tests state t)) }
{
    if refusal_tests::time_refused(state.progress, time) {
        return Err(Refusal::Time);
    }
    if room < LEAST_OUT {
        return Err(Refusal::Buffer);
    }
    if state_refused(state) {
        return Err(Refusal::Setup);
    }
    Ok(())
}

// Walks the due steps, and writes the packet of the first that sends.
pub fn tick(state: State, time: u64, out: &mut [u8]) -> Ticked
    ensures { (let t : Tick = record { time = time; room = length out.old } in
        Ticks state t out.old result out.new) }
{
    if let Err(refusal) = admit_tick(state, time, out.len()) {
        return Ticked {
            answer: Answer::Refused(refusal),
            more: false,
            state,
        };
    }
    let setup = state.setup;
    let walked = claims::steps::tick(state.progress, time, setup.hasaaaa);
    let sent = send(setup, walked.output, out);
    Ticked {
        answer: answer_with(sent, 0),
        more: walked.more,
        state: State {
            setup,
            progress: walked.progress,
        },
    }
}
