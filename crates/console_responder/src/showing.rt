// What calls show: what they send; and the calls that only show what is held: `claims`, the times and states of the responder; `holds`, its held queries; and
// `out AT LEN` and `unicast AT LEN`, a part of an out buffer.
use claims::holds::{Address, Hold, Holds, is_taken};
use claims::{ClaimState, due_of};
use console_calls::output::{self, bad_line, bytes, finish, first, only, refused, word};
use console_text::fields::{has_arguments, is_number, number};
use console_text::lines::front;
use itoa::Buffer;
use responder::{Answer, State};

// Shows the packet that goes to where the message came from.
fn replied(packet: &[u8], rt: &impl Print, text: &mut [u8; 4096]) {
    let used = first(rt, text, b"unicast");
    let used = bytes(rt, text, used, packet);
    finish(rt, text, used);
}

// Shows the packet that was sent, and whether more is due.
fn sent(packet: &[u8], more: bool, rt: &impl Print, text: &mut [u8; 4096]) {
    let used = first(rt, text, b"sent");
    let used = bytes(rt, text, used, packet);
    let used = if more {
        word(rt, text, used, b"more")
    } else {
        used
    };
    finish(rt, text, used);
}

// Shows both packets: the one that goes to all, and the one that goes to where the message came from.
fn sent_and_replied(to_all: &[u8], to_asker: &[u8], rt: &impl Print, text: &mut [u8; 4096]) {
    let used = first(rt, text, b"sent");
    let used = bytes(rt, text, used, to_all);
    let used = word(rt, text, used, b"unicast");
    let used = bytes(rt, text, used, to_asker);
    finish(rt, text, used);
}

// The answer of a call that may send what stands at the start of the out buffers.
pub fn shown(
    answer: Answer,
    more: bool,
    out: &[u8],
    unicast: &[u8],
    rt: &impl Print,
    text: &mut [u8; 4096],
) {
    match answer {
        Answer::Refused(refusal) => refused(rt, text, refusal.number() as u64),
        Answer::Quiet => only(rt, text, b"quiet"),
        Answer::Sent(n) => sent(front(out, n), more, rt, text),
        Answer::Unicast(m) => replied(front(unicast, m), rt, text),
        Answer::Both(n, m) => sent_and_replied(front(out, n), front(unicast, m), rt, text),
    }
}

// Begins an answer with a number.
fn first_number(rt: &impl Print, text: &mut [u8; 4096], n: u64) -> usize {
    let mut digits = Buffer::new();
    first(rt, text, digits.format(n).as_bytes())
}

// Adds a word and the time that goes with it, such as a state and when its next step is due; `-` where there is none.
fn timed(
    rt: &impl Print,
    text: &mut [u8; 4096],
    used: usize,
    name: &[u8],
    due: Option<u64>,
) -> usize {
    let used = word(rt, text, used, name);
    match due {
        Some(time) => output::number(rt, text, used, time),
        None => word(rt, text, used, b"-"),
    }
}

// Adds a claim: ` STATE DUE`.
fn claim(rt: &impl Print, text: &mut [u8; 4096], used: usize, c: ClaimState) -> usize {
    let state: &[u8] = match c {
        ClaimState::Waiting(_) => b"waiting",
        ClaimState::Probing1(_) | ClaimState::Probing2(_) | ClaimState::Probing3(_) => b"probing",
        ClaimState::Deferred(_) => b"deferred",
        ClaimState::Announced(_) | ClaimState::Held => b"held",
        ClaimState::Lost => b"lost",
    };
    timed(rt, text, used, state, due_of(c))
}

// `claims`: `LAST instance STATE DUE host STATE DUE reply DUE updated TIME`
pub fn claims(line: &[u8], held: State, rt: &impl Print, text: &mut [u8; 4096]) {
    if !has_arguments(line, 0) {
        return bad_line(rt, text);
    }
    let progress = held.progress;
    let used = first_number(rt, text, progress.last);
    let used = word(rt, text, used, b"instance");
    let used = claim(rt, text, used, progress.instance);
    let used = word(rt, text, used, b"host");
    let used = claim(rt, text, used, progress.host);
    let used = timed(rt, text, used, b"reply", progress.reply);
    let used = timed(rt, text, used, b"updated", progress.updated);
    finish(rt, text, used);
}

// The sixteen bytes of an address.
fn address_bytes(a: Address) -> [u8; 16] {
    let mut all = [0u8; 16];
    all[..8].copy_from_slice(&a.high.to_be_bytes());
    all[8..].copy_from_slice(&a.low.to_be_bytes());
    all
}

// Adds a held query: ` FROM DUE`; a free place adds nothing.
fn hold(rt: &impl Print, text: &mut [u8; 4096], used: usize, h: Hold) -> usize {
    let Some(time) = h.due else {
        return used;
    };
    let used = bytes(rt, text, used, &address_bytes(h.from));
    output::number(rt, text, used, time)
}

// Whether no query is held.
fn none_held(holds: Holds) -> bool {
    !is_taken(holds.first)
        && !is_taken(holds.second)
        && !is_taken(holds.third)
        && !is_taken(holds.fourth)
}

// `holds`: `holds FROM DUE ..` in order of arrival, or `holds -`
pub fn holds(line: &[u8], held: State, rt: &impl Print, text: &mut [u8; 4096]) {
    if !has_arguments(line, 0) {
        return bad_line(rt, text);
    }
    let holds = held.progress.holds;
    if none_held(holds) {
        return only(rt, text, b"holds -");
    }
    let mut used = first(rt, text, b"holds");
    for h in [holds.first, holds.second, holds.third, holds.fourth] {
        used = hold(rt, text, used, h);
    }
    finish(rt, text, used);
}

// The answer `WORD BYTES`, of bytes of an out buffer from an offset on.
fn bytes_from(
    word: &[u8],
    out: &[u8],
    at: usize,
    n: usize,
    rt: &impl Print,
    text: &mut [u8; 4096],
) {
    if out.len() < at || out.len() - at < n {
        return bad_line(rt, text);
    }
    let used = first(rt, text, word);
    let used = bytes(rt, text, used, &out[at..at + n]);
    finish(rt, text, used);
}

// Whether a line is of the form `WORD AT LEN`.
fn is_part(line: &[u8]) -> bool {
    has_arguments(line, 2) && is_number(line, 1) && is_number(line, 2)
}

// `out AT LEN` or `unicast AT LEN`, by the word of the line
pub fn part(line: &[u8], word: &[u8], out: &[u8], rt: &impl Print, text: &mut [u8; 4096]) {
    if !is_part(line) {
        return bad_line(rt, text);
    }
    bytes_from(
        word,
        out,
        number(line, 1) as usize,
        number(line, 2) as usize,
        rt,
        text,
    )
}
