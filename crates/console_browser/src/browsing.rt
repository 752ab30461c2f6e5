// The call `browse NOW DRAW REFRESH SERVICE PROTOCOL DOMAIN`: a browser in the place of the one before.
ghost use Rattle.std.specs.Prelude.{◌≡◌};
ghost use Rattle.console_browser.specs.Forms.{is_browse};
ghost use Rattle.console_browser.specs.Lines.{start_told, after_browse};

use capi_browser::{BrowserNumbers, StartedNumbers};
use console_calls::output::{bad_line, only, refused};
use console_text::fields::{are_bytes, has_arguments, is_number, number};
use console_text::hex::fill;
use console_text::lines::{field, front};

// Whether a line is of the form of `browse`.
#[tactic(auto, unfolding(crate::specs::Forms::is_browse))]
fn is_browse(line: &[u8]) -> bool
    ensures { result ≡ is_browse line.now }
{
    has_arguments(line, 6)
        && is_number(line, 1)
        && is_number(line, 2)
        && is_number(line, 3)
        && are_bytes(line, 4)
        && are_bytes(line, 5)
        && are_bytes(line, 6)
}

// What a line of `browse` starts.
fn begin(line: &[u8]) -> StartedNumbers
    ensures { result ≡ start_told line.now }
{
    let time = number(line, 1);
    let draw = number(line, 2);
    let refresh = number(line, 3);
    let mut service = [0u8; 20000];
    let s = fill(field(line, 4), &mut service);
    let mut protocol = [0u8; 20000];
    let p = fill(field(line, 5), &mut protocol);
    let mut domain = [0u8; 20000];
    let d = fill(field(line, 6), &mut domain);
    capi_browser::kurgashel_browse_start(
        front(&service, s),
        front(&protocol, p),
        front(&domain, d),
        time,
        draw,
        refresh,
    )
}

// `browse NOW DRAW REFRESH SERVICE PROTOCOL DOMAIN`: the browser after it.
#[tactic(auto, unfolding(crate::specs::Lines::after_browse))]
pub fn browse(
    line: &[u8],
    held: BrowserNumbers,
    rt: &impl Print,
    text: &mut [u8; 4096],
) -> BrowserNumbers
    ensures { result ≡ after_browse line.now held }
{
    if !is_browse(line) {
        bad_line(rt, text);
        return held;
    }
    let started = begin(line);
    if started.refusal != 0 {
        refused(rt, text, started.refusal as u64);
        return held;
    }
    only(rt, text, b"browsing");
    started.browser
}
