// `proxy RICH LDH`, with the domains after it.
ghost use Rattle.std.specs.Prelude.{◌≡◌};
ghost use Rattle.proxy.specs.domains.Domains.{domains, setup_refusal};
ghost use Rattle.console_proxy.specs.Lines.{no_domains, is_proxy, domain_of, domains_of, after_proxy};

use crate::{Domain, Domains};
use console_calls::output::{bad_line, only, refused};
use console_text::fields::{are_bytes, has_arguments};
use console_text::hex::fill;
use console_text::lines::{field, front};

// The domain of no bytes, twice.
#[tactic(auto, unfolding(crate::specs::Lines::no_domains))]
pub fn unset() -> Domains
    ensures { result ≡ no_domains }
{
    Domains {
        rich: domain(b""),
        ldh: domain(b""),
    }
}

// Bytes as a domain; what does not fit is left out.
fn domain(bytes: &[u8]) -> Domain
    ensures { result ≡ domain_of bytes.now }
{
    let mut room = [0u8; 255];
    wire::buffer::put(&mut room, 0, bytes);
    Domain {
        len: bytes.len(),
        bytes: room,
    }
}

// Whether a line is of the form `proxy RICH LDH`.
#[tactic(auto, unfolding(crate::specs::Lines::is_proxy))]
fn is_proxy(line: &[u8]) -> bool
    ensures { result ≡ is_proxy line.now }
{
    has_arguments(line, 2) && are_bytes(line, 1) && are_bytes(line, 2)
}

// The set-up of two domains, or what is held where it is refused.
#[tactic(auto, unfolding(crate::specs::Lines::domains_of))]
fn set_up(rich: &[u8], ldh: &[u8], held: Domains, rt: &impl Print, text: &mut [u8; 4096]) -> Domains
    ensures { result ≡ domains_of rich.now ldh.now held }
{
    if let Err(refusal) = proxy::domains::setup_refusal(rich, ldh) {
        refused(rt, text, refusal.number() as u64);
        return held;
    }
    only(rt, text, b"proxied");
    Domains {
        rich: domain(rich),
        ldh: domain(ldh),
    }
}

// `proxy RICH LDH`: the domains after it.
#[tactic(auto, unfolding(crate::specs::Lines::after_proxy))]
pub fn proxy(line: &[u8], held: Domains, rt: &impl Print, text: &mut [u8; 4096]) -> Domains
    ensures { result ≡ after_proxy line.now held }
{
    if !is_proxy(line) {
        bad_line(rt, text);
        return held;
    }
    let mut rich = [0u8; 20000];
    let mut ldh = [0u8; 20000];
    let n = fill(field(line, 1), &mut rich);
    let m = fill(field(line, 2), &mut ldh);
    set_up(front(&rich, n), front(&ldh, m), held, rt, text)
}
