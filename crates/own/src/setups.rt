// Whether a set-up keeps the rules (specification, 'Own records'; RFC 6335, 5.1): its labels, its service, its fixed strings and its TXT.
ghost use Rattle.std.specs.Prelude.{◌≡◌, true};
ghost use Rattle.own.specs.records.Setups.{local, is_letter, is_name_byte, all_name_bytes, some_letter, hyphens_apart};
ghost use Rattle.own.specs.records.Setups.{service_rule, label_fits, instance_fits, service_fits, protocol_fits, domain_fits, txt_fits, valid_setup};

use crate::records::{Label, MOST_LABEL, MOST_SERVICE, MOST_TXT, Service, Setup, Strings};

// An ASCII letter.
#[tactic(auto, unfolding(crate::specs::records::Setups::is_letter))]
fn letter(b: u8) -> bool
    ensures { result ≡ is_letter b }
{
    b.is_ascii_alphabetic()
}

// A letter, a digit or a hyphen.
#[tactic(auto, unfolding(crate::specs::records::Setups::is_name_byte))]
fn name_byte(b: u8) -> bool
    ensures { result ≡ is_name_byte b }
{
    letter(b) || b == b'-' || b.is_ascii_digit()
}

// Only letters, digits and hyphens.
#[tactic(auto, unfolding(crate::specs::records::Setups::all_name_bytes))]
fn all_name_bytes(s: &[u8]) -> bool
    ensures { result ≡ all_name_bytes s.now }
{
    s.iter().all(|b| name_byte(*b))
}

// At least one letter.
#[tactic(auto, unfolding(crate::specs::records::Setups::some_letter))]
fn some_letter(s: &[u8]) -> bool
    ensures { result ≡ some_letter s.now }
{
    s.iter().any(|b| letter(*b))
}

// No hyphen first, last or after another.
fn hyphens_apart(s: &[u8]) -> bool
    ensures { result ≡ hyphens_apart true s.now }
{
    // whether a hyphen may not stand here: at the start, and behind a hyphen
    let mut barred = true;
    for &b in s {
        let hyphen = b == b'-';
        if barred && hyphen {
            return false;
        }
        barred = hyphen;
    }
    !barred
}

// The rule for a service label: "_" and a name by RFC 6335.
#[tactic(auto, using(crate::proofs::setups::Rules::rule_empty, crate::proofs::setups::Rules::rule_rest))]
pub fn service_rule(s: &[u8]) -> bool
    ensures { result ≡ service_rule s.now }
{
    let [first, name @ ..] = s else {
        return false;
    };
    *first == b'_' && all_name_bytes(name) && some_letter(name) && hyphens_apart(name)
}

#[tactic(auto, unfolding(crate::specs::records::Setups::label_fits))]
fn label_fits(l: Label) -> bool
    ensures { result ≡ label_fits l }
{
    0 < l.len && l.len <= MOST_LABEL
}

// The rule for an instance label: one that a screen can show.
#[tactic(auto, unfolding(crate::specs::records::Setups::instance_fits, crate::specs::records::Setups::label_fits))]
fn instance_fits(l: Label) -> bool
    ensures { result ≡ instance_fits l }
{
    label_fits(l) && crate::utf8::is_shown(&l.bytes[..l.len])
}

// The rule for a service label with its length.
#[tactic(auto, unfolding(crate::specs::records::Setups::service_fits))]
pub fn service_fits(l: Service) -> bool
    ensures { result ≡ service_fits l }
{
    2 <= l.len && l.len <= MOST_SERVICE && service_rule(&l.bytes[..l.len])
}

// The rule for a protocol: one of the two fixed strings.
#[tactic(auto, unfolding(crate::specs::records::Setups::protocol_fits))]
pub fn protocol_fits(p: [u8; 4]) -> bool
    ensures { result ≡ protocol_fits p }
{
    wire::expansion::same_bytes(&p, b"_tcp") || wire::expansion::same_bytes(&p, b"_udp")
}

// The rule for a domain: the fixed string.
pub fn domain_fits(d: [u8; 5]) -> bool
    ensures { result ≡ domain_fits d }
{
    wire::expansion::same_bytes(&d, b"local")
}

#[tactic(auto, unfolding(crate::specs::records::Setups::txt_fits))]
fn txt_fits(t: Strings) -> bool
    ensures { result ≡ txt_fits t }
{
    0 < t.len && t.len <= MOST_TXT && wire::rdata::strings_fill(&t.bytes[..t.len])
}

// Whether a set-up keeps the rules; refusal 7 is for one that does not.
#[tactic(auto, unfolding(crate::specs::records::Setups::valid_setup))]
pub fn check_setup(s: Setup) -> bool
    ensures { result ≡ valid_setup s }
{
    instance_fits(s.instance)
        && service_fits(s.service)
        && protocol_fits(s.protocol)
        && label_fits(s.host)
        && domain_fits(s.domain)
        && txt_fits(s.txt)
}
