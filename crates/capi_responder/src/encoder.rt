// A responder's state into bytes, for callers in other languages: what changes is written behind the set-up, and a set-up is laid over the front
// (module `codec`). A buffer of another length keeps every byte.
ghost use Rattle.std.specs.Prelude.{◌≡◌, ◌+◌, ◌≤◌, ◌<◌, length};
ghost use Rattle.capi_responder.specs.codec.Numbers.{bytes64, Fits64};
ghost use Rattle.capi_responder.specs.codec.Layout as layout;
ghost use Rattle.capi_responder.specs.codec.Codec.{claim_tag, claim_due, when_flag, when_time};
ghost use Rattle.claims.specs.records.Own.{has};
ghost use Rattle.capi_responder.specs.codec.Codec.{case_bytes, claim_bytes, when_bytes, multicasts_bytes, progress_bytes};
ghost use Rattle.capi_responder.specs.codec.Codec.{flag_byte, set_bytes, hold_bytes, holds_bytes, HoldFits, HoldsFit};
ghost use Rattle.capi_responder.specs.codec.Codec.{decode, MulticastsFit, ProgressFits, with_progress, with_time, state_with, with_setup};
ghost use Rattle.capi_responder.specs.encoder.Laid.{Laid};

use crate::layout;
use claims::holds::{Hold, Holds};
use claims::records::{Own, RECORDS, Set, is_in, record_at};
use claims::{ClaimState, Multicasts, Progress, due_of, sent_of};

// Lays `s` over `out` from index `at` on.
fn put(out: &mut [u8], at: usize, s: &[u8])
    ensures { Laid out.old at s.now out.new }
{
    wire::buffer::put(out, at, s);
}

// The eight bytes of a number.
fn put_number(out: &mut [u8], at: usize, n: u64)
    requires { at + layout.number_size ≤ length out.old }
    ensures { Laid out.old at (bytes64 n) out.new × Fits64 n }
{
    put(out, at, &n.to_be_bytes());
}

// A case byte and its number.
// Two lines, as put_headed of trace: their clauses differ.
fn put_case(out: &mut [u8], at: usize, tag: u8, n: u64)
    requires { at + layout.case_size ≤ length out.old }
    ensures { Laid out.old at (case_bytes tag n) out.new × Fits64 n }
{
    put(out, at, &[tag]);
    put_number(out, at + 1, n);
}

// By a number: the bytes of a state, which C keeps.
fn claim_tag(c: ClaimState) -> u8
    ensures { result ≡ claim_tag c }
{
    match c {
        ClaimState::Waiting(_) => 0,
        ClaimState::Probing1(_) => 1,
        ClaimState::Probing2(_) => 2,
        ClaimState::Probing3(_) => 3,
        ClaimState::Deferred(_) => 4,
        ClaimState::Announced(_) => 5,
        ClaimState::Held => 6,
        ClaimState::Lost => 7,
    }
}

fn claim_due(c: ClaimState) -> u64
    ensures { result ≡ claim_due c }
{
    due_of(c).unwrap_or(0)
}

fn when_flag(w: Option<u64>) -> u8
    ensures { result ≡ when_flag w }
{
    u8::from(w.is_some())
}

fn when_time(w: Option<u64>) -> u64
    ensures { result ≡ when_time w }
{
    w.unwrap_or(0)
}

fn put_claim(out: &mut [u8], at: usize, c: ClaimState)
    requires { at + layout.case_size ≤ length out.old }
    ensures { Laid out.old at (claim_bytes c) out.new × Fits64 (claim_due c) }
{
    put_case(out, at, claim_tag(c), claim_due(c));
}

fn put_when(out: &mut [u8], at: usize, w: Option<u64>)
    requires { at + layout.case_size ≤ length out.old }
    ensures { Laid out.old at (when_bytes w) out.new × Fits64 (when_time w) }
{
    put_case(out, at, when_flag(w), when_time(w));
}

// The last multicasts, one behind the other.
fn put_multicasts(out: &mut [u8], sent: Multicasts)
    requires { layout.state_size ≤ length out.old }
    ensures { Laid out.old layout.multicasts (multicasts_bytes sent) out.new × MulticastsFit sent }
{
    for i in 0..RECORDS {
        let last = sent_of(record_at(i), sent);
        put_when(out, layout::MULTICASTS + i * layout::CASE_SIZE, last);
    }
}

// The flag of an own record.
fn flag_byte(o: Own, set: Set) -> u8
    ensures { result ≡ flag_byte (has o set) }
{
    u8::from(is_in(o, set))
}

// The flags of a set of own records.
fn set_bytes(set: Set) -> [u8; layout::SET_SIZE]
    ensures { result ≡ set_bytes set }
{
    let mut flags = [0u8; layout::SET_SIZE];
    for i in 0..RECORDS {
        flags[i] = flag_byte(record_at(i), set);
    }
    flags
}

fn put_set(out: &mut [u8], at: usize, set: Set)
    requires { at + layout.set_size ≤ length out.old }
    ensures { Laid out.old at (set_bytes set) out.new }
{
    put(out, at, &set_bytes(set));
}

// A held query.
fn put_hold(out: &mut [u8], at: usize, h: Hold)
    requires { at + layout.hold_size ≤ length out.old }
    ensures { Laid out.old at (hold_bytes h) out.new × HoldFits h }
{
    let from = h.from;
    let low = at + layout::NUMBER_SIZE;
    let due = low + layout::NUMBER_SIZE;
    let asked = due + layout::CASE_SIZE;
    put_number(out, at, from.high);
    put_number(out, low, from.low);
    put_when(out, due, h.due);
    put_set(out, asked, h.asked);
    put_set(out, asked + layout::SET_SIZE, h.known);
}

// The held queries, one behind the other.
fn put_holds(out: &mut [u8], holds: Holds)
    requires { layout.state_size ≤ length out.old }
    ensures { Laid out.old layout.holds (holds_bytes holds) out.new × HoldsFit holds }
{
    put_hold(out, layout::HOLDS, holds.first);
    put_hold(out, layout::HOLDS + layout::HOLD_SIZE, holds.second);
    put_hold(out, layout::HOLDS + 2 * layout::HOLD_SIZE, holds.third);
    put_hold(out, layout::HOLDS + 3 * layout::HOLD_SIZE, holds.fourth);
}

// Writes what changes, behind the set-up.
fn lay_progress(out: &mut [u8], progress: Progress)
    requires { length out.old ≡ layout.state_size }
    ensures { Laid out.old layout.setup_size (progress_bytes progress) out.new × ProgressFits progress }
{
    put_claim(out, layout::INSTANCE_CLAIM, progress.instance);
    put_claim(out, layout::HOST_CLAIM, progress.host);
    put_multicasts(out, progress.sent);
    put_when(out, layout::REPLY, progress.reply);
    put_when(out, layout::UPDATED, progress.updated);
    put_holds(out, progress.holds);
    put_number(out, layout::DRAW, progress.draw);
    put_number(out, layout::LAST, progress.last);
}

// Writes what changes into a state's bytes; those of its set-up stay, and so does a buffer of another length.
pub fn put_progress(state: &mut [u8], progress: Progress)
    ensures { (state.new ≡ with_progress state.old progress)
        × (decode state.new ≡ state_with state.old progress) }
{
    if state.len() == layout::STATE_SIZE {
        lay_progress(state, progress);
    }
}

// Writes the time of the last call into a state's bytes; the others stay, and so does a buffer of another length.
pub fn put_time(state: &mut [u8], time: u64)
    ensures { state.new ≡ with_time state.old time }
{
    let size = state.len();
    if size == layout::STATE_SIZE {
        put_number(state, layout::LAST, time);
    }
}

// Lays a set-up over the front of a state's bytes; where either has another length, nothing changes.
pub fn put_setup(state: &mut [u8], setup: &[u8])
    ensures { state.new ≡ with_setup state.old setup.now }
{
    if state.len() == layout::STATE_SIZE && setup.len() == layout::SETUP_SIZE {
        put(state, 0, setup);
    }
}
