// The two domains of a proxy, names that lie under a domain, and the same name under another domain (specification, 'The proxy'; RFC 8766, 5.5). A domain is
// an uncompressed name; "under" is strict, by whole labels, ASCII letters folded.
ghost use Rattle.std.specs.Prelude.{◌≡◌, ◌≤◌, length, take, ◌++◌};
ghost use Rattle.wire.specs.refusals.Numbers.{number_in, refused_by};
ghost use Rattle.proxy.specs.domains.Under.{is_under, starts_at, moved, moved_of};
ghost use Rattle.proxy.specs.domains.Domains.{domains, are_domains, setup_tests, setup_refusal};

use wire::buffer::put;
use wire::case_folding::same_name;
use wire::names::is_name;
use wire::refusals::Refusal;

// The most bytes of a name.
pub const MOST_NAME: usize = 255;

// A name that was put under another domain: its length, and its bytes, zeros after them.
#[derive(Clone, Copy)]
pub struct Moved {
    pub len: usize,
    pub bytes: [u8; 255],
}

// Whether a label, or the zero byte, starts at an offset of a name.
fn starts_at(name: &[u8], at: usize) -> bool
    requires { at ≤ length name.now }
    ensures { result ≡ starts_at 0 at name.now }
{
    // by strides of a label each, so that no `for` fits
    let mut i = 0;
    while i < at {
        i = i + 1 + name[i] as usize;
    }
    i == at
}

// Whether a name lies under a domain.
#[tactic(auto, unfolding(crate::specs::domains::Under::is_under))]
pub fn is_under(domain: &[u8], name: &[u8]) -> bool
    ensures { result ≡ is_under domain.now name.now }
{
    if name.len() <= domain.len() {
        return false;
    }
    let front = name.len() - domain.len();
    starts_at(name, front) && same_name(&name[front..], domain)
}

// The first bytes of a name and a domain behind them, where they fit a name.
fn joined(name: &[u8], front: usize, domain: &[u8]) -> Option<Moved>
    requires { front ≤ length name.now }
    ensures { result ≡ moved_of (take front name.now ++ domain.now) }
{
    if MOST_NAME < front || MOST_NAME - front < domain.len() {
        return None;
    }
    let mut bytes = [0u8; 255];
    put(&mut bytes, 0, &name[..front]);
    put(&mut bytes, front, domain);
    Some(Moved {
        len: front + domain.len(),
        bytes,
    })
}

// The name under another domain in place of one that it lies under, where it fits a name; a name that does not lie under it stays as it is.
#[tactic(auto, unfolding(crate::specs::domains::Under::moved))]
pub fn move_name(from: &[u8], to: &[u8], name: &[u8]) -> Option<Moved>
    ensures { result ≡ moved_of (moved from.now to.now name.now) }
{
    if is_under(from, name) {
        joined(name, name.len() - from.len(), to)
    } else {
        joined(name, name.len(), b"")
    }
}

// Whether two names are the domains of a proxy: well formed, not equal, and neither under the other.
#[tactic(auto, unfolding(crate::specs::domains::Domains::are_domains))]
pub fn are_domains(rich: &[u8], ldh: &[u8]) -> bool
    ensures { result ≡ are_domains (domains rich.now ldh.now) }
{
    is_name(rich)
        && is_name(ldh)
        && !same_name(rich, ldh)
        && !is_under(rich, ldh)
        && !is_under(ldh, rich)
}

// Whether a set-up is refused.
#[tactic(auto, unfolding(crate::specs::domains::Domains::setup_refusal))]
pub fn setup_refusal(rich: &[u8], ldh: &[u8]) -> Result<(), Refusal>
    ensures answer { result ≡ refused_by (setup_tests (domains rich.now ldh.now)) }
    ensures number { number_in result ≡ setup_refusal (domains rich.now ldh.now) }
{
    if are_domains(rich, ldh) {
        Ok(())
    } else {
        Err(Refusal::Setup)
    }
}
