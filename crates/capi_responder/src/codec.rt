// A responder's state in bytes, for callers in other languages: those of its set-up, then those of what changes (module `layout`). Every buffer of a
// state's length reads as a state; one of another length reads as the blank state, which every call refuses. Writing is in the module `encoder`.
ghost use Rattle.std.specs.Prelude.{◌≡◌, ◌+◌, ◌≤◌, ◌<◌, length};
ghost use Rattle.capi_responder.specs.codec.Numbers.{word64};
ghost use Rattle.claims.specs.records.Own.{index_of};
ghost use Rattle.capi_responder.specs.codec.Layout.{most_label, most_service, most_txt, hold_size, setup_size, state_size};
ghost use Rattle.capi_responder.specs.codec.Parts.{part_at, flag_at, label_at, service_at, strings_at, setup_at};
ghost use Rattle.capi_responder.specs.codec.Parts.{claim_of, claim_at, when_at, sent_at, multicasts_at, set_at, hold_at, holds_at, progress_at};
ghost use Rattle.capi_responder.specs.codec.Codec.{setup_of, decode};

use crate::layout;
use claims::holds::{Address, Hold, Holds};
use claims::records::{Own, RECORDS, Set, index_of, record_at, set_of};
use claims::{ClaimState, Multicast, Multicasts, Progress};
use own::records::{Label, MOST_LABEL, MOST_SERVICE, MOST_TXT, Service, Setup, Strings};
use responder::{State, blank_state};
use wire::buffer::put;
use wire::octets::{be16, be32, byte};

// The 64-bit number at an offset.
fn be64(b: &[u8], at: usize) -> u64
    requires { at < state_size }
    ensures { result ≡ word64 b.now at }
{
    let high = be32(b, at) as u64;
    let low = be32(b, at + 4) as u64;
    high * 4294967296 + low
}

// A flag, by its low bit.
fn flag(b: &[u8], at: usize) -> bool
    ensures { result ≡ flag_at b.now at }
{
    byte(b, at) % 2 == 1
}

// Fills `out` with the bytes from an offset on.
fn fill(out: &mut [u8], b: &[u8], at: usize)
    requires { at + length out.old ≤ length b.now }
    ensures { out.new ≡ part_at b.now at (length out.old) }
{
    let end = at + out.len();
    put(out, 0, &b[at..end]);
}

// ---- the set-up

// A label of an instance or a host.
fn label_at(b: &[u8], at: usize) -> Label
    requires { at + most_label ≤ length b.now }
    ensures { result ≡ label_at b.now at }
{
    let mut bytes = [0u8; MOST_LABEL];
    fill(&mut bytes, b, at);
    Label {
        bytes,
        len: byte(b, at + MOST_LABEL) as usize,
    }
}

fn service_at(b: &[u8], at: usize) -> Service
    requires { at + most_service ≤ length b.now }
    ensures { result ≡ service_at b.now at }
{
    let mut bytes = [0u8; MOST_SERVICE];
    fill(&mut bytes, b, at);
    Service {
        bytes,
        len: byte(b, at + MOST_SERVICE) as usize,
    }
}

fn strings_at(b: &[u8], at: usize) -> Strings
    requires { at + most_txt ≤ length b.now }
    ensures { result ≡ strings_at b.now at }
{
    let mut bytes = [0u8; MOST_TXT];
    fill(&mut bytes, b, at);
    Strings {
        bytes,
        len: be16(b, at + MOST_TXT) as usize,
    }
}

fn setup_at(b: &[u8]) -> Setup
    requires { setup_size ≤ length b.now }
    ensures { result ≡ setup_at b.now }
{
    let mut protocol = [0u8; layout::PROTOCOL_SIZE];
    fill(&mut protocol, b, layout::PROTOCOL);
    let mut domain = [0u8; layout::DOMAIN_SIZE];
    fill(&mut domain, b, layout::DOMAIN);
    let mut a = [0u8; layout::A_SIZE];
    fill(&mut a, b, layout::A);
    let mut aaaa = [0u8; layout::AAAA_SIZE];
    fill(&mut aaaa, b, layout::AAAA);
    Setup {
        instance: label_at(b, layout::INSTANCE),
        service: service_at(b, layout::SERVICE),
        protocol,
        host: label_at(b, layout::HOST),
        domain,
        port: be16(b, layout::PORT),
        txt: strings_at(b, layout::TXT),
        a,
        hasaaaa: flag(b, layout::HAS_AAAA),
        aaaa,
    }
}

// ---- what changes

// A claim by its case, and when its next step is due.
// By a number: the bytes of a state, which C keeps.
fn claim_of(tag: u8, due: u64) -> ClaimState
    ensures { result ≡ claim_of tag due }
{
    match tag {
        0 => ClaimState::Waiting(due),
        1 => ClaimState::Probing1(due),
        2 => ClaimState::Probing2(due),
        3 => ClaimState::Probing3(due),
        4 => ClaimState::Deferred(due),
        5 => ClaimState::Announced(due),
        6 => ClaimState::Held,
        _ => ClaimState::Lost,
    }
}

fn claim_at(b: &[u8], at: usize) -> ClaimState
    requires { at + 1 < state_size }
    ensures { result ≡ claim_at b.now at }
{
    claim_of(byte(b, at), be64(b, at + 1))
}

// A time that is set or not: a flag, and the time behind it.
fn when_at(b: &[u8], at: usize) -> Option<u64>
    requires { at + 1 < state_size }
    ensures { result ≡ when_at b.now at }
{
    if flag(b, at) {
        Some(be64(b, at + 1))
    } else {
        None
    }
}

// When an own record was last multicast.
fn sent_at(b: &[u8], o: Own) -> Option<u64>
    ensures { result ≡ sent_at b.now o }
{
    when_at(b, layout::MULTICASTS + index_of(o) * layout::CASE_SIZE)
}

fn multicasts_at(b: &[u8]) -> Multicasts
    ensures { result ≡ multicasts_at b.now }
{
    let never = Multicast { last: None };
    let mut of = [never; RECORDS];
    for i in 0..RECORDS {
        let last = sent_at(b, record_at(i));
        of[i] = Multicast { last };
    }
    Multicasts { of }
}

// Whether an own record is in a set.
fn set_flag(b: &[u8], at: usize, o: Own) -> bool
    requires { at < state_size }
    ensures { result ≡ flag_at b.now (at + index_of o) }
{
    flag(b, at + index_of(o))
}

// By an array of flags: Set::of, which calls a closure, has a `requires`, and so is no public function.
fn set_at(b: &[u8], at: usize) -> Set
    requires { at < state_size }
    ensures { result ≡ set_at b.now at }
{
    let mut flags = [false; RECORDS];
    for i in 0..RECORDS {
        flags[i] = set_flag(b, at, record_at(i));
    }
    set_of(flags)
}

// A held query.
fn hold_at(b: &[u8], at: usize) -> Hold
    requires { at + hold_size ≤ state_size }
    ensures { result ≡ hold_at b.now at }
{
    let low = at + layout::NUMBER_SIZE;
    let due = low + layout::NUMBER_SIZE;
    let asked = due + layout::CASE_SIZE;
    let known = asked + layout::SET_SIZE;
    Hold {
        from: Address {
            high: be64(b, at),
            low: be64(b, low),
        },
        due: when_at(b, due),
        asked: set_at(b, asked),
        known: set_at(b, known),
    }
}

fn holds_at(b: &[u8]) -> Holds
    ensures { result ≡ holds_at b.now }
{
    Holds {
        first: hold_at(b, layout::HOLDS),
        second: hold_at(b, layout::HOLDS + layout::HOLD_SIZE),
        third: hold_at(b, layout::HOLDS + 2 * layout::HOLD_SIZE),
        fourth: hold_at(b, layout::HOLDS + 3 * layout::HOLD_SIZE),
    }
}

fn progress_at(b: &[u8]) -> Progress
    ensures { result ≡ progress_at b.now }
{
    Progress {
        instance: claim_at(b, layout::INSTANCE_CLAIM),
        host: claim_at(b, layout::HOST_CLAIM),
        sent: multicasts_at(b),
        reply: when_at(b, layout::REPLY),
        holds: holds_at(b),
        updated: when_at(b, layout::UPDATED),
        draw: be64(b, layout::DRAW),
        last: be64(b, layout::LAST),
    }
}

// ---- from bytes

// The set-up that a buffer holds.
pub fn read_setup(b: &[u8]) -> Setup
    ensures { result ≡ setup_of b.now }
{
    if b.len() == layout::SETUP_SIZE {
        setup_at(b)
    } else {
        blank_state().setup
    }
}

// What changes of the state that a buffer holds; its set-up stays unread.
pub fn read_progress(b: &[u8]) -> Progress
    ensures { result ≡ (decode b.now).progress }
{
    let size = b.len();
    if size == layout::STATE_SIZE {
        progress_at(b)
    } else {
        blank_state().progress
    }
}

// The state that a buffer holds.
pub fn read_state(b: &[u8]) -> State
    ensures { result ≡ decode b.now }
{
    if b.len() == layout::STATE_SIZE {
        State {
            setup: setup_at(b),
            progress: progress_at(b),
        }
    } else {
        blank_state()
    }
}
