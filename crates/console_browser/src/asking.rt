// The call `ask NOW`, with OUT, the length of the part of the out buffer that is lent, or without: the browser ticks, and what it sends is shown.
ghost use Rattle.std.specs.Prelude.{◌≡◌, ◌≤◌, length};
ghost use Rattle.console_browser.specs.Lines.{Browsing, browsing, asked, after_ask};

use capi_browser::{BrowserNumbers, TickedNumbers};
use console_calls::output::{bad_line, bytes, finish, first, only, refused, word};
use console_responder::sending::{is_tick, lent};
use console_table::Table;
use console_text::fields::number;
use console_text::lines::front;

// Shows a packet, and whether more is due.
fn sent(packet: &[u8], more: bool, rt: &impl Print, text: &mut [u8; 4096]) {
    let used = first(rt, text, b"sent");
    let mut used = bytes(rt, text, used, packet);
    if more {
        used = word(rt, text, used, b"more");
    }
    finish(rt, text, used);
}

// The answer of a tick that may send what stands at the start of the out buffer.
// The refusal is a number: the console goes by the exported browser.
fn shown(
    refusal: u8,
    length: usize,
    more: bool,
    out: &[u8],
    rt: &impl Print,
    text: &mut [u8; 4096],
) {
    if refusal != 0 {
        return refused(rt, text, refusal as u64);
    }
    if length == 0 {
        only(rt, text, b"quiet")
    } else {
        sent(front(out, length), more, rt, text)
    }
}

// Ticks over the first bytes of the out buffer, `n` of them.
#[tactic(auto, unfolding(crate::specs::Lines::asked))]
fn step(
    table: Table,
    store: &[u8],
    held: BrowserNumbers,
    time: u64,
    out: &mut [u8],
    n: usize,
) -> TickedNumbers
    requires { n ≤ length out.old }
    ensures { (let after : Browsing = asked table store.now time n (browsing held out.old) in
        (result.browser ≡ after.browser) × (out.new ≡ after.out)) }
{
    crate::lending::tick(table, store, held, time, &mut out[..n])
}

// `ask NOW` or `ask NOW OUT`: the browser after it.
#[tactic(auto, unfolding(crate::specs::Lines::after_ask))]
pub fn ask(
    line: &[u8],
    held: BrowserNumbers,
    table: Table,
    store: &[u8],
    out: &mut [u8],
    rt: &impl Print,
    text: &mut [u8; 4096],
) -> BrowserNumbers
    ensures browser { result ≡ (after_ask line.now table store.now (browsing held out.old)).browser }
    ensures out { out.new ≡ (after_ask line.now table store.now (browsing held out.old)).out }
{
    if !is_tick(line) {
        bad_line(rt, text);
        return held;
    }
    let time = number(line, 1);
    let n = lent(line, 2);
    if out.len() < n {
        bad_line(rt, text);
        return held;
    }
    let ticked = step(table, store, held, time, out, n);
    shown(ticked.refusal, ticked.length, ticked.more, out, rt, text);
    ticked.browser
}
