// The call `start NOW DRAW INSTANCE SERVICE PROTOCOL HOST DOMAIN PORT TXT A AAAA`: a responder in the place of the one before. What has no room in a
// set-up is handed on in a way that its rules refuse.
ghost use Rattle.std.specs.Prelude.{◌≡◌, length};
ghost use Rattle.console_text.specs.hex.Bytes.{bytes_of};
ghost use Rattle.console_responder.specs.Forms.{filled_with, label_told, service_told, strings_told, exactly, setup_told};
ghost use Rattle.console_responder.specs.Forms.{is_bytes_of, is_aaaa, are_names, is_start};
ghost use Rattle.console_responder.specs.Lines.{unstarted, after_start};

use console_calls::output::{bad_line, only, refused};
use console_text::fields::{MOST_16, are_bytes, has_arguments, is_number, number, number_of_16};
use console_text::hex::{fill, is_bytes};
use console_text::lines::field;
use own::records::{Label, Service, Setup, Strings};
use responder::{Answer, State};

// The bytes of a field over the start of zeros, as many as fit, and how many the field has.
fn filled<const N: usize>(field: &[u8]) -> ([u8; N], usize)
    ensures bytes { result.0 ≡ filled_with N field.now }
    ensures len { result.1 ≡ length (bytes_of field.now) }
{
    let mut bytes = [0u8; N];
    let len = fill(field, &mut bytes);
    (bytes, len)
}

// A label: where it is too long, its whole length with the bytes that fit.
#[tactic(auto, unfolding(crate::specs::Forms::label_told))]
fn label(field: &[u8]) -> Label
    ensures { result ≡ label_told field.now }
{
    let (bytes, len) = filled(field);
    Label { bytes, len }
}

#[tactic(auto, unfolding(crate::specs::Forms::service_told))]
fn service(field: &[u8]) -> Service
    ensures { result ≡ service_told field.now }
{
    let (bytes, len) = filled(field);
    Service { bytes, len }
}

#[tactic(auto, unfolding(crate::specs::Forms::strings_told))]
fn strings(field: &[u8]) -> Strings
    ensures { result ≡ strings_told field.now }
{
    let (bytes, len) = filled(field);
    Strings { bytes, len }
}

// A label that has one length, such as the one after the service and the last: zeros, which are no such label, where its length is another.
#[tactic(auto, unfolding(crate::specs::Forms::exactly))]
fn exactly<const N: usize>(field: &[u8]) -> [u8; N]
    ensures { result ≡ exactly N field.now }
{
    let (bytes, len) = filled(field);
    if len == N { bytes } else { [0u8; N] }
}

// The set-up that a line tells.
#[tactic(auto, unfolding(crate::specs::Forms::setup_told))]
pub fn told(line: &[u8]) -> Setup
    ensures { result ≡ setup_told line.now }
{
    let (a, _) = filled(field(line, 10));
    let (aaaa, n) = filled(field(line, 11));
    Setup {
        instance: label(field(line, 3)),
        service: service(field(line, 4)),
        protocol: exactly(field(line, 5)),
        host: label(field(line, 6)),
        domain: exactly(field(line, 7)),
        port: number_of_16(line, 8),
        txt: strings(field(line, 9)),
        a,
        hasaaaa: n == 16,
        aaaa,
    }
}

// The state before the first start: that of a start which is refused, as one from an empty line is.
#[tactic(auto, unfolding(crate::specs::Lines::unstarted))]
pub fn unset() -> State
    ensures { result ≡ unstarted }
{
    responder::start(told(b""), 0, 0).state
}

// Whether the fields of a line that hold labels and strings are bytes.
#[tactic(auto, unfolding(crate::specs::Forms::are_names))]
fn are_names(line: &[u8]) -> bool
    ensures { result ≡ are_names line.now }
{
    are_bytes(line, 3)
        && are_bytes(line, 4)
        && are_bytes(line, 5)
        && are_bytes(line, 6)
        && are_bytes(line, 7)
        && are_bytes(line, 9)
}

// Whether a field is bytes, so many of them.
#[tactic(auto, unfolding(crate::specs::Forms::is_bytes_of))]
pub fn is_bytes_of(field: &[u8], n: usize) -> bool
    ensures { result ≡ is_bytes_of field.now n }
{
    let mut first = [0u8; 1];
    is_bytes(field) && fill(field, &mut first) == n
}

// Whether a field is an IPv6 address or `-` for none.
#[tactic(auto, unfolding(crate::specs::Forms::is_aaaa))]
fn is_aaaa(field: &[u8]) -> bool
    ensures { result ≡ is_aaaa field.now }
{
    is_bytes_of(field, 16) || is_bytes_of(field, 0)
}

// Whether a line is of the form of `start`.
#[tactic(auto, unfolding(crate::specs::Forms::is_start))]
pub fn is_start(line: &[u8]) -> bool
    ensures { result ≡ is_start line.now }
{
    has_arguments(line, 11)
        && is_number(line, 1)
        && is_number(line, 2)
        && are_names(line)
        && is_number(line, 8)
        && number(line, 8) <= MOST_16
        && is_bytes_of(field(line, 10), 4)
        && is_aaaa(field(line, 11))
}

// `start NOW DRAW INSTANCE SERVICE PROTOCOL HOST DOMAIN PORT TXT A AAAA`: the state after it.
#[tactic(auto, unfolding(crate::specs::Lines::after_start))]
pub fn start(line: &[u8], held: State, rt: &impl Print, text: &mut [u8; 4096]) -> State
    ensures { result ≡ after_start line.now held }
{
    if !is_start(line) {
        bad_line(rt, text);
        return held;
    }
    let started = responder::start(told(line), number(line, 1), number(line, 2));
    if let Answer::Refused(refusal) = started.answer {
        refused(rt, text, refusal.number() as u64);
        return held;
    }
    only(rt, text, b"started");
    started.state
}
