// The console's calls on the proxy: `proxy`, `question`, `answer` and `cached`. The two domains go by value: what they are after a line is promised. What is
// written no contract can say.
#![tactic(auto)]

mod mapping;
mod setup;

ghost use Rattle.std.specs.Prelude.{◌≡◌};
ghost use Rattle.console_proxy.specs.Lines.{is_proxy_call, no_domains, domains_after};

use console_table::Table;
use console_text::lines::{field, front};
use wire::expansion::same_bytes;

// A domain: its length, and its bytes, zeros after them.
#[derive(Clone, Copy)]
pub struct Domain {
    pub len: usize,
    pub bytes: [u8; 255],
}

impl Domain {
    // The name without the zeros after it.
    fn name(&self) -> &[u8] {
        front(&self.bytes, self.len)
    }
}

// The two domains of the proxy: that of rich text, and that of letters, digits and hyphens.
#[derive(Clone, Copy)]
pub struct Domains {
    pub rich: Domain,
    pub ldh: Domain,
}

// The domains before the first set-up: no bytes, which are no domain, so that every call is refused.
pub fn at_first() -> Domains
    ensures { result ≡ no_domains }
{
    setup::unset()
}

// Whether a word is one of these calls.
// by same_bytes: of a pattern of bytes the proof knows their number alone
#[tactic(auto, unfolding(crate::specs::Lines::is_proxy_call))]
pub fn is_call(word: &[u8]) -> bool
    ensures { result ≡ is_proxy_call word.now }
{
    same_bytes(word, b"proxy")
        || same_bytes(word, b"question")
        || same_bytes(word, b"answer")
        || same_bytes(word, b"cached")
}

// Answers one of these calls, and tells the domains after it. The table and its store are those of the console's cache, which stay.
#[tactic(auto, unfolding(crate::specs::Lines::domains_after))]
pub fn call(
    line: &[u8],
    held: Domains,
    table: Table,
    store: &[u8],
    rt: &impl Print,
    text: &mut [u8; 4096],
) -> Domains
    ensures { result ≡ domains_after line.now held }
{
    let word = field(line, 0);
    if same_bytes(word, b"proxy") {
        return setup::proxy(line, held, rt, text);
    }
    mapping::call(line, held, table, store, rt, text);
    held
}
