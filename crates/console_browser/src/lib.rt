// The console's calls on the browser: `browse`, `ask` and `list`. The browser goes by value in numbers, the table of the cache by value and its store lent,
// and the out buffer is lent. What the browser and the out buffer are after a line is promised; what is written no contract can say.
#![tactic(auto)]

mod asking;
mod browsing;
mod lending;
mod listing;

ghost use Rattle.std.specs.Prelude.{◌≡◌};
ghost use Rattle.console_browser.specs.Forms.{is_browser_call};
ghost use Rattle.console_browser.specs.Lines.{unbrowsed, browsing, browser_after};

use capi_browser::BrowserNumbers;
use console_calls::output::bad_line;
use console_table::Table;
use wire::expansion::same_bytes;

// The browser before the first `browse`: a blank one.
pub fn at_first() -> BrowserNumbers
    ensures { result ≡ unbrowsed }
{
    BrowserNumbers {
        service: [0; 16],
        protocol: [0; 4],
        domain: [0; 5],
        len: 0,
        draw: 0,
        refresh: 0,
        series: 0,
        count: 0,
        query: 0,
        owed: 0,
        last: 0,
    }
}

// Whether a word is one of these calls.
// by same_bytes: of a pattern of bytes the proof knows their number alone
#[tactic(auto, unfolding(crate::specs::Forms::is_browser_call))]
pub fn is_call(word: &[u8]) -> bool
    ensures { result ≡ is_browser_call word.now }
{
    same_bytes(word, b"browse") || same_bytes(word, b"ask") || same_bytes(word, b"list")
}

// Answers one of these calls, and tells the browser after it. Any other line is a bad one.
// by same_bytes: of a pattern of bytes the proof knows their number alone
#[tactic(auto, unfolding(crate::specs::Lines::browser_after))]
pub fn call(
    line: &[u8],
    held: BrowserNumbers,
    table: Table,
    store: &[u8],
    out: &mut [u8; 4096],
    rt: &impl Print,
    text: &mut [u8; 4096],
) -> BrowserNumbers
    ensures browser { result ≡ (browser_after line.now table store.now (browsing held out.old)).browser }
    ensures out { out.new ≡ (browser_after line.now table store.now (browsing held out.old)).out }
{
    let word = console_text::lines::field(line, 0);
    if same_bytes(word, b"browse") {
        return browsing::browse(line, held, rt, text);
    }
    if same_bytes(word, b"ask") {
        return asking::ask(line, held, table, store, out, rt, text);
    }
    if same_bytes(word, b"list") {
        listing::list(line, held, table, store, rt, text);
        return held;
    }
    bad_line(rt, text);
    held
}
