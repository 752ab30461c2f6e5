// The console's calls on traces, which hold nothing: `trace`, the events of a trace, and `record`, the trace of events.
// What is written no contract can say: the functions that answer are proved safe and ending.
#![tactic(auto)]

mod recording;
mod showing;
mod telling;

ghost use Rattle.std.specs.Prelude.{◌≡◌};
ghost use Rattle.console_trace.specs.Forms.{is_trace_call};

use console_calls::output::bad_line;
use wire::expansion::same_bytes;

// Whether a word is one of these calls.
// by same_bytes: of a pattern of bytes the proof knows their number alone
pub fn is_call(word: &[u8]) -> bool
    ensures { result ≡ is_trace_call word.now }
{
    same_bytes(word, b"trace") || same_bytes(word, b"record")
}

// Answers one of these calls. Any other line is a bad one.
pub fn call(line: &[u8], rt: &impl Print, text: &mut [u8; 4096]) {
    match console_text::lines::field(line, 0) {
        b"trace" => showing::trace(line, rt, text),
        b"record" => recording::record(line, rt, text),
        _ => bad_line(rt, text),
    }
}
