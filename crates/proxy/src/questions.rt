// A unicast question at the proxy (specification, 'The proxy'; RFC 8766, 5.5.1 and 5.4): its name mapped to "local", a negative answer at once, or a refusal.
ghost use Rattle.std.specs.Prelude.{◌≡◌};
ghost use Rattle.wire.specs.refusals.Numbers.{number_in};
ghost use Rattle.proxy.specs.domains.Domains.{domains};
ghost use Rattle.proxy.specs.domains.Under.{moved_of};
ghost use Rattle.proxy.specs.questions.Questions.{is_below, is_apex_type, is_negative, inward, question_of, question_refusal};

use crate::domains::{Moved, is_under, move_name, setup_refusal};
use wire::names::is_name;
use wire::refusals::Refusal;

// The types that are a zone's own, found at an apex alone (RFC 1035, RFC 4034).
// Numbers, and no enum: a question may have any of 65,536 types, and each is handed on.
pub const NS: u16 = 2;

pub const SOA: u16 = 6;

pub const DS: u16 = 43;

// Whether records of a type stand at an apex alone.
#[tactic(auto, unfolding(crate::specs::questions::Questions::is_apex_type))]
fn is_apex_type(rtype: u16) -> bool
    ensures { result ≡ is_apex_type rtype }
{
    rtype == SOA || rtype == NS || rtype == DS
}

// Whether a name lies under either domain.
#[tactic(auto, unfolding(crate::specs::questions::Questions::is_below))]
pub fn is_below(rich: &[u8], ldh: &[u8], name: &[u8]) -> bool
    ensures { result ≡ is_below (domains rich.now ldh.now) name.now }
{
    is_under(rich, name) || is_under(ldh, name)
}

// The name with "local" in place of the domain that it lies under, where it fits a name.
#[tactic(auto, unfolding(crate::specs::questions::Questions::inward))]
pub fn to_local(rich: &[u8], ldh: &[u8], name: &[u8]) -> Option<Moved>
    ensures { result ≡ moved_of (inward (domains rich.now ldh.now) name.now) }
{
    let domain = if is_under(rich, name) { rich } else { ldh };
    move_name(domain, b"\x05local\x00", name)
}

// Whether a question is answered negatively at once.
#[tactic(auto, unfolding(crate::specs::questions::Questions::is_negative))]
pub fn is_negative(rich: &[u8], ldh: &[u8], name: &[u8], rtype: u16) -> bool
    ensures { result ≡ is_negative (domains rich.now ldh.now) name.now rtype }
{
    is_apex_type(rtype) && is_below(rich, ldh, name)
}

// A question for a name, which is handed in uncompressed, and a type: the name by which it is asked on the link, none where it is answered negatively at once.
#[tactic(auto, unfolding(crate::specs::questions::Questions::question_of, crate::specs::questions::Questions::question_refusal))]
pub fn ask(rich: &[u8], ldh: &[u8], name: &[u8], rtype: u16) -> Result<Option<Moved>, Refusal>
    ensures answer { result ≡ question_of (domains rich.now ldh.now) name.now rtype }
    ensures number { number_in result ≡ question_refusal (domains rich.now ldh.now) name.now rtype }
{
    if !is_name(name) {
        return Err(Refusal::Malformed);
    }
    setup_refusal(rich, ldh)?;
    if is_negative(rich, ldh, name, rtype) {
        return Ok(None);
    }
    let moved = to_local(rich, ldh, name).ok_or(Refusal::TooLong)?;
    Ok(Some(moved))
}
