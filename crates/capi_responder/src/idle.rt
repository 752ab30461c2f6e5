// A tick with nothing due, told from a state's bytes as they lie: such a call reads neither the set-up nor the last multicasts into values, and writes only its
// time.
ghost use Rattle.std.specs.Prelude.{◌≡◌, ◌+◌, ◌≤◌, ◌<◌, length};
ghost use Rattle.wire.specs.octets.Octets.{word32};
ghost use Rattle.capi_responder.specs.codec.Numbers.{word64};
ghost use Rattle.capi_responder.specs.codec.Layout as layout;
ghost use Rattle.capi_responder.specs.idle.Idle.{to_come, claim_rests, reply_rests, when_kept, multicasts_kept, none_held, nothing_due, is_idle};

use crate::layout;
use crate::setup_test::keeps_rules;
use claims::records::RECORDS;
use claims::refusal_tests::{LAST_KEPT, LAST_TIME};
use writer::own_packets::LEAST_OUT;

// A byte, of the width of a number.
fn wide(b: u8) -> u64
    ensures { (result ≡ b) × (result < 256) }
{
    b as u64
}

// The number of 32 bits at an offset. Nothing is tested and all is of one width, so that the compiler makes one load of two such numbers.
fn half_at(b: &[u8], at: usize) -> u64
    requires { at + 4 ≤ length b.now }
    ensures { (result ≡ word32 b.now at) × (result < 4294967296) }
{
    wide(b[at]) * 16777216 + wide(b[at + 1]) * 65536 + wide(b[at + 2]) * 256 + wide(b[at + 3])
}

// The number of 64 bits at an offset.
fn number_at(b: &[u8], at: usize) -> u64
    requires { at + layout.number_size ≤ length b.now }
    ensures { result ≡ word64 b.now at }
{
    half_at(b, at) * 4294967296 + half_at(b, at + 4)
}

// A due time that is still to come, and that a state may keep.
fn is_to_come(due: u64, time: u64) -> bool
    ensures { result ≡ to_come due time }
{
    time < due && due <= LAST_KEPT
}

// No step of the claim is due, its time is one that a state may keep, and its bytes are those that would be written.
fn claim_rests(b: &[u8], at: usize, time: u64) -> bool
    requires { (at + layout.case_size ≤ length b.now) × (length b.now ≡ layout.state_size) }
    ensures { result ≡ claim_rests b.now at time }
{
    let tag = b[at];
    if tag < 6 {
        is_to_come(number_at(b, at + 1), time)
    } else {
        tag <= 7 && number_at(b, at + 1) == 0
    }
}

// The same of the PTR reply.
fn reply_rests(b: &[u8], at: usize, time: u64) -> bool
    requires { (at + layout.case_size ≤ length b.now) × (length b.now ≡ layout.state_size) }
    ensures { result ≡ reply_rests b.now at time }
{
    let flag = b[at];
    if flag == 0 {
        number_at(b, at + 1) == 0
    } else {
        flag == 1 && is_to_come(number_at(b, at + 1), time)
    }
}

// A last multicast or the last update, if there was one, is a time that a state may keep, and its bytes are those that would be written.
fn when_kept(b: &[u8], at: usize) -> bool
    requires { (at + layout.case_size ≤ length b.now) × (length b.now ≡ layout.state_size) }
    ensures { result ≡ when_kept b.now at }
{
    let flag = b[at];
    if flag == 0 {
        number_at(b, at + 1) == 0
    } else {
        flag == 1 && number_at(b, at + 1) <= LAST_KEPT
    }
}

// The same of each.
fn multicasts_kept(b: &[u8]) -> bool
    requires { length b.now ≡ layout.state_size }
    ensures { result ≡ multicasts_kept b.now }
{
    for i in 0..RECORDS {
        if !when_kept(b, layout::MULTICASTS + i * layout::CASE_SIZE) {
            return false;
        }
    }
    true
}

// No query is held: the bytes of all four places are zeros, as those of a start are, and so are the first four of the draw, in every state that is not
// refused. It looks at all of them, since a loop that may stop early takes several times as long.
fn none_held(b: &[u8]) -> bool
    requires { length b.now ≡ layout.state_size }
    ensures { result ≡ none_held b.now }
{
    let mut clear = true;
    for x in &b[layout::HOLDS..layout::DRAW + 4] {
        if *x != 0 {
            clear = false;
        }
    }
    clear
}

// The claims and the reply rest, no query is held, and what else changes is in order.
fn nothing_due(b: &[u8], time: u64) -> bool
    requires { length b.now ≡ layout.state_size }
    ensures { result ≡ nothing_due b.now time }
{
    claim_rests(b, layout::INSTANCE_CLAIM, time)
        && claim_rests(b, layout::HOST_CLAIM, time)
        && reply_rests(b, layout::REPLY, time)
        && when_kept(b, layout::UPDATED)
        && none_held(b)
        && number_at(b, layout::DRAW) <= 250
        && number_at(b, layout::LAST) <= time
        && multicasts_kept(b)
}

// Whether a tick at `time`, with an out buffer of `room` bytes, is accepted and has nothing to do but to keep its time.
pub fn is_idle(b: &[u8], time: u64, room: usize) -> bool
    ensures { result ≡ is_idle b.now time room }
{
    time <= LAST_TIME
        && LEAST_OUT <= room
        && b.len() == layout::STATE_SIZE
        && nothing_due(b, time)
        && keeps_rules(b)
}
