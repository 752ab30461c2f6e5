// The service name that a browser asks for: its labels are tested as in a set-up, and its bytes made of them.
ghost use Rattle.std.specs.Prelude.{◌≡◌, [], ◌∷◌};
ghost use Rattle.wire.specs.labels.Labels.{encode};
ghost use Rattle.own.specs.records.Setups.{local, protocol_label};
ghost use Rattle.cache.specs.entries.Entries.{lesser};
ghost use Rattle.browser.specs.service.Service.{right_labels, service_name, name_of};

use crate::Browser;
use own::records::{MOST_SERVICE, Service};
use own::setups::{domain_fits, protocol_fits, service_fits};

// A service name: the first `len` of the bytes, zeros after them. The longest has a service label of 16 bytes.
#[derive(Clone, Copy)]
pub struct ServiceName {
    pub bytes: [u8; 29],
    pub len: usize,
}

// Whether the labels keep the rules; refusal 7 is for those that do not.
pub(crate) fn labels_right(service: Service, protocol: [u8; 4], domain: [u8; 5]) -> bool
    ensures { result ≡ right_labels service protocol domain }
{
    service_fits(service) && protocol_fits(protocol) && domain_fits(domain)
}

// The labels behind the service's, and the zero byte.
fn ending(protocol: [u8; 4]) -> [u8; 12]
    ensures { result ≡ encode (protocol_label protocol ∷ local ∷ []) }
{
    if wire::expansion::same_bytes(&protocol, b"_udp") {
        return [
            4, b'_', b'u', b'd', b'p', 5, b'l', b'o', b'c', b'a', b'l', 0,
        ];
    }
    [
        4, b'_', b't', b'c', b'p', 5, b'l', b'o', b'c', b'a', b'l', 0,
    ]
}

// The name's bytes.
pub(crate) fn service_name(b: Browser) -> ServiceName
    ensures { result ≡ name_of (service_name b) }
{
    let service = b.service;
    let protocol = b.protocol;
    let label = service.bytes;
    // at most all bytes of a label count
    let len = service.len.min(MOST_SERVICE);
    let behind = ending(protocol);
    let mut bytes = [0u8; 29];
    bytes[0] = len as u8;
    wire::buffer::put(&mut bytes, 1, &label[..len]);
    wire::buffer::put(&mut bytes, 1 + len, &behind);
    ServiceName {
        bytes,
        len: 13 + len,
    }
}
