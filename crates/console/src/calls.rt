// A call by its first word, answered by the function that has it. What is held after it is promised; what is written no contract can say.
ghost use Rattle.std.specs.Prelude.{◌≡◌};
ghost use Rattle.console.specs.Lines.{Console, held_at_first, after_call};

use capi_browser::BrowserNumbers;
use console_calls::{cache_calls, reader_calls};
use console_proxy::Domains;
use console_table::Table;
use console_text::lines::field;
use responder::State;

// What the console holds between calls, beside the out buffers and the cache's byte store: a responder, the table of the cache with its sizes, a browser, and
// the domains of the proxy.
#[derive(Clone, Copy)]
pub struct Held {
    state: State,
    table: Table,
    browser: BrowserNumbers,
    domains: Domains,
}

// What is held before the first call.
#[tactic(auto, unfolding(crate::specs::Lines::held_at_first))]
pub fn at_first() -> Held
    ensures { result ≡ held_at_first }
{
    Held {
        state: console_responder::at_first(),
        table: cache_calls::at_first(),
        browser: console_browser::at_first(),
        domains: console_proxy::at_first(),
    }
}

// Answers the call of a line, and tells what is held after it.
#[tactic(auto, unfolding(crate::specs::Lines::after_call))]
pub fn call(
    line: &[u8],
    held: Held,
    store: &mut [u8; 525312],
    out: &mut [u8; 4096],
    unicast: &mut [u8; 4096],
    rt: &impl Print,
    text: &mut [u8; 4096],
) -> Held
    ensures held { (let c : Console = record { held = held; store = store.old; out = out.old; unicast = unicast.old } in
        result ≡ (after_call line.now c).held) }
    ensures store { (let c : Console = record { held = held; store = store.old; out = out.old; unicast = unicast.old } in
        store.new ≡ (after_call line.now c).store) }
    ensures out { (let c : Console = record { held = held; store = store.old; out = out.old; unicast = unicast.old } in
        out.new ≡ (after_call line.now c).out) }
    ensures unicast { (let c : Console = record { held = held; store = store.old; out = out.old; unicast = unicast.old } in
        unicast.new ≡ (after_call line.now c).unicast) }
{
    let word = field(line, 0);
    if console_responder::is_call(word) {
        return Held {
            state: console_responder::call(line, held.state, out, unicast, rt, text),
            ..held
        };
    }
    if cache_calls::is_call(word) {
        return Held {
            table: cache_calls::call(line, held.table, store, rt, text),
            ..held
        };
    }
    if console_browser::is_call(word) {
        return Held {
            browser: console_browser::call(line, held.browser, held.table, store, out, rt, text),
            ..held
        };
    }
    if console_proxy::is_call(word) {
        return Held {
            domains: console_proxy::call(line, held.domains, held.table, store, rt, text),
            ..held
        };
    }
    if console_trace::is_call(word) {
        console_trace::call(line, rt, text);
    } else {
        reader_calls::call(line, rt, text);
    }
    held
}
