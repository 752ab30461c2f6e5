// The console's calls on the responder: `start`, `recv`, `tick`, `stop`, `update`, `claims`, `holds`, `out` and `unicast`. The responder's state goes by
// value, the out buffers are lent: one for what goes to all, one for what goes to the asker. What they are after a line is promised; what is written no
// contract can say.
#![tactic(auto)]

mod changing;
pub mod sending;
pub mod setup;
mod showing;

ghost use Rattle.std.specs.Prelude.{◌≡◌};
ghost use Rattle.console_responder.specs.Forms.{is_responder_call};
ghost use Rattle.console_responder.specs.Lines.{unstarted, having, responder_after};

use console_calls::output::bad_line;
use console_text::lines::field;
use responder::State;
use wire::expansion::same_bytes;

// The state before the first start.
pub fn at_first() -> State
    ensures { result ≡ unstarted }
{
    setup::unset()
}

// Whether a word is one of these calls.
// by same_bytes: of a pattern of bytes the proof knows their number alone
#[tactic(auto, unfolding(crate::specs::Forms::is_responder_call))]
pub fn is_call(word: &[u8]) -> bool
    ensures { result ≡ is_responder_call word.now }
{
    same_bytes(word, b"start")
        || same_bytes(word, b"recv")
        || same_bytes(word, b"tick")
        || same_bytes(word, b"stop")
        || same_bytes(word, b"update")
        || same_bytes(word, b"claims")
        || same_bytes(word, b"holds")
        || same_bytes(word, b"out")
        || same_bytes(word, b"unicast")
}

// Answers one of these calls, and tells the state after it. Any other line is a bad one.
#[tactic(auto, unfolding(crate::specs::Lines::responder_after))]
pub fn call(
    line: &[u8],
    held: State,
    out: &mut [u8; 4096],
    unicast: &mut [u8; 4096],
    rt: &impl Print,
    text: &mut [u8; 4096],
) -> State
    ensures state { result ≡ (responder_after line.now (having held out.old unicast.old)).state }
    ensures out { out.new ≡ (responder_after line.now (having held out.old unicast.old)).out }
    ensures unicast { unicast.new
        ≡ (responder_after line.now (having held out.old unicast.old)).unicast }
{
    let word = field(line, 0);
    if same_bytes(word, b"start") {
        return setup::start(line, held, rt, text);
    }
    if same_bytes(word, b"recv") {
        return sending::recv(line, held, out, unicast, rt, text);
    }
    if same_bytes(word, b"tick") {
        return sending::tick(line, held, out, rt, text);
    }
    if same_bytes(word, b"stop") {
        return changing::stop(line, held, out, rt, text);
    }
    if same_bytes(word, b"update") {
        return changing::update(line, held, out, rt, text);
    }
    if same_bytes(word, b"claims") {
        showing::claims(line, held, rt, text);
    } else if same_bytes(word, b"holds") {
        showing::holds(line, held, rt, text);
    } else if same_bytes(word, b"out") {
        showing::part(line, word, out, rt, text);
    } else if same_bytes(word, b"unicast") {
        showing::part(line, word, unicast, rt, text);
    } else {
        bad_line(rt, text);
    }
    held
}
