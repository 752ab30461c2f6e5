// Whether the set-up in a state's bytes keeps the rules (specification, 'Own records'), tested on the bytes as they lie: a call that sends nothing need not
// read the set-up.
ghost use Rattle.std.specs.Prelude.{◌≡◌, ◌&&◌, eqb, length};
ghost use Rattle.own.specs.records.Setups.{label_fits, instance_fits, service_fits, protocol_fits, domain_fits, txt_fits, valid_setup};
ghost use Rattle.capi_responder.specs.codec.Layout as layout;
ghost use Rattle.capi_responder.specs.codec.Parts.{setup_at};
ghost use Rattle.capi_responder.specs.setup_test.Held.{label_of, service_of, strings_of};

use crate::layout;
use own::records::{MOST_LABEL, MOST_SERVICE, MOST_TXT};
use own::setups::service_rule;
use own::utf8::is_shown;
use wire::expansion::same_bytes;
use wire::octets::be16;
use wire::rdata::strings_fill;

// Where the length of a label, of the service label and of the TXT strings stands: behind their bytes.
const INSTANCE_LENGTH: usize = layout::INSTANCE + MOST_LABEL;

const SERVICE_LENGTH: usize = layout::SERVICE + MOST_SERVICE;

const HOST_LENGTH: usize = layout::HOST + MOST_LABEL;

const TXT_LENGTH: usize = layout::TXT + MOST_TXT;

fn label_fits(bytes: &[u8], len: usize) -> bool
    requires { length bytes.now ≡ layout.most_label }
    ensures { result ≡ label_fits (label_of bytes.now len) }
{
    len != 0 && len <= MOST_LABEL
}

fn instance_fits(bytes: &[u8], len: usize) -> bool
    requires { length bytes.now ≡ layout.most_label }
    ensures { result ≡ instance_fits (label_of bytes.now len) }
{
    label_fits(bytes, len) && is_shown(&bytes[..len])
}

fn service_fits(bytes: &[u8], len: usize) -> bool
    requires { length bytes.now ≡ layout.most_service }
    ensures { result ≡ service_fits (service_of bytes.now len) }
{
    2 <= len && len <= MOST_SERVICE && service_rule(&bytes[..len])
}

fn protocol_fits(p: &[u8]) -> bool
    ensures { result ≡ protocol_fits p.now }
{
    same_bytes(p, b"_tcp") || same_bytes(p, b"_udp")
}

fn txt_fits(bytes: &[u8], len: usize) -> bool
    requires { length bytes.now ≡ layout.most_txt }
    ensures { result ≡ txt_fits (strings_of bytes.now len) }
{
    len != 0 && len <= MOST_TXT && strings_fill(&bytes[..len])
}

// Whether bytes have a state's length, and the set-up in them keeps the rules.
pub fn keeps_rules(b: &[u8]) -> bool
    ensures { result ≡ eqb (length b.now) layout.state_size && valid_setup (setup_at b.now) }
{
    b.len() == layout::STATE_SIZE
        && instance_fits(
            &b[layout::INSTANCE..INSTANCE_LENGTH],
            b[INSTANCE_LENGTH] as usize,
        )
        && service_fits(
            &b[layout::SERVICE..SERVICE_LENGTH],
            b[SERVICE_LENGTH] as usize,
        )
        && protocol_fits(&b[layout::PROTOCOL..layout::HOST])
        && label_fits(&b[layout::HOST..HOST_LENGTH], b[HOST_LENGTH] as usize)
        && same_bytes(&b[layout::DOMAIN..layout::PORT], b"local")
        && txt_fits(&b[layout::TXT..TXT_LENGTH], be16(b, TXT_LENGTH) as usize)
}
