// Own records (specification, 'Own records'): the set-up, and of each own record whether it is there, its name and its rdata. Its type, class and TTL are in
// `claims::records`, and whether a set-up keeps the rules in `setups`.
ghost use Rattle.std.specs.Prelude.{◌≡◌, true, ◌∷◌, [], ◌++◌, ◌+◌, ◌≤◌, ◌<◌, length, take};
ghost use Rattle.std.proofs.lemmas.List.Edits.{sets};
ghost use Rattle.wire.specs.labels.Labels.{encode};
ghost use Rattle.own.specs.records.Setups.{local, protocol_label, service_labels, instance_labels, host_labels};
ghost use Rattle.own.specs.records.Records.{label_bytes, Laid, own_of, has_record, own_name, own_rdata, srv_rdata, instance_types, host_types};

use claims::records::Own;

// The most bytes of a label, of a service label with its "_", and of a TXT record.
pub const MOST_LABEL: usize = 63;

pub const MOST_SERVICE: usize = 16;

pub const MOST_TXT: usize = 400;

// An instance or host label: the first `len` of the bytes.
#[derive(Clone, Copy)]
pub struct Label {
    pub bytes: [u8; 63],
    pub len: usize,
}

// A service label, its "_" with it: the first `len` of the bytes.
#[derive(Clone, Copy)]
pub struct Service {
    pub bytes: [u8; 16],
    pub len: usize,
}

// TXT strings: the first `len` of the bytes.
#[derive(Clone, Copy)]
pub struct Strings {
    pub bytes: [u8; 400],
    pub len: usize,
}

// What a responder is set up with: five labels and the data of its records. Bytes past a length, and `aaaa` without `hasaaaa`, say nothing.
#[derive(Clone, Copy)]
pub struct Setup {
    pub instance: Label,
    pub service: Service,
    pub protocol: [u8; 4],
    pub host: Label,
    pub domain: [u8; 5],
    pub port: u16,
    pub txt: Strings,
    pub a: [u8; 4],
    pub hasaaaa: bool,
    pub aaaa: [u8; 16],
}

// The most bytes that an own name or own rdata has.
pub const MOST_OWN: usize = 400;

// An own name or own rdata: the first `len` of the bytes, zeros after them.
#[derive(Clone, Copy)]
pub struct OwnBytes {
    pub bytes: [u8; 400],
    pub len: usize,
}

// Writes a label after its length byte, and answers the offset past it.
fn put_label(out: &mut [u8; 400], at: usize, label: &[u8]) -> usize
    requires { (at + 1 + length label.now ≤ 400) × (length label.now < 256) }
    ensures { Laid at (label_bytes label.now) (1 + length label.now) out.old result out.new }
{
    let n = label.len();
    out[at] = n as u8;
    wire::buffer::put(out, at + 1, label);
    at + 1 + n
}

// A label that an array holds: the first `len` of its bytes, all of them where it has no more.
fn put_held(out: &mut [u8; 400], at: usize, bytes: &[u8], len: usize) -> usize
    requires { (at + 1 + length bytes.now ≤ 400) × (length bytes.now < 256) }
    ensures { Laid at (label_bytes (take len bytes.now)) (1 + length bytes.now) out.old result out.new }
{
    put_label(out, at, &bytes[..len.min(bytes.len())])
}

// The label of a protocol: one of the two fixed strings.
fn put_protocol(out: &mut [u8; 400], at: usize, p: [u8; 4]) -> usize
    requires { at + 5 ≤ 400 }
    ensures { Laid at (label_bytes (protocol_label p)) 5 out.old result out.new }
{
    if wire::expansion::same_bytes(&p, b"_udp") {
        put_label(out, at, b"_udp")
    } else {
        put_label(out, at, b"_tcp")
    }
}

// The label "local" and the zero byte, with which every own name ends.
fn put_local(out: &mut [u8; 400], at: usize) -> usize
    requires { at + 7 ≤ 400 }
    ensures { Laid at (encode (local ∷ [])) 7 out.old result out.new }
{
    let end = put_label(out, at, b"local");
    out[end] = 0;
    end + 1
}

// The service's name.
fn put_service_name(out: &mut [u8; 400], at: usize, s: Setup) -> usize
    requires { at + 29 ≤ 400 }
    ensures { Laid at (encode (service_labels s)) 29 out.old result out.new }
{
    let a = put_held(out, at, &s.service.bytes, s.service.len);
    let b = put_protocol(out, a, s.protocol);
    put_local(out, b)
}

// The instance's name.
fn put_instance_name(out: &mut [u8; 400], at: usize, s: Setup) -> usize
    requires { at + 93 ≤ 400 }
    ensures { Laid at (encode (instance_labels s)) 93 out.old result out.new }
{
    let a = put_held(out, at, &s.instance.bytes, s.instance.len);
    put_service_name(out, a, s)
}

// The host's name.
fn put_host_name(out: &mut [u8; 400], at: usize, s: Setup) -> usize
    requires { at + 71 ≤ 400 }
    ensures { Laid at (encode (host_labels s)) 71 out.old result out.new }
{
    let a = put_held(out, at, &s.host.bytes, s.host.len);
    put_local(out, a)
}

// Whether a set-up has the record.
#[tactic(auto, unfolding(crate::specs::records::Records::has_record))]
pub fn has_record(s: Setup, o: Own) -> bool
    ensures { result ≡ has_record s o }
{
    claims::records::is_present(o, s.hasaaaa)
}

fn service_name(s: Setup) -> OwnBytes
    ensures { result ≡ own_of (encode (service_labels s)) }
{
    let mut bytes = [0u8; 400];
    let len = put_service_name(&mut bytes, 0, s);
    OwnBytes { bytes, len }
}

fn instance_name(s: Setup) -> OwnBytes
    ensures { result ≡ own_of (encode (instance_labels s)) }
{
    let mut bytes = [0u8; 400];
    let len = put_instance_name(&mut bytes, 0, s);
    OwnBytes { bytes, len }
}

fn host_name(s: Setup) -> OwnBytes
    ensures { result ≡ own_of (encode (host_labels s)) }
{
    let mut bytes = [0u8; 400];
    let len = put_host_name(&mut bytes, 0, s);
    OwnBytes { bytes, len }
}

// The owner of an own record.
#[tactic(auto, unfolding(crate::specs::records::Records::own_name, crate::specs::records::Records::own_labels))]
pub fn own_name(s: Setup, o: Own) -> OwnBytes
    ensures { result ≡ own_of (own_name s o) }
{
    match o {
        Own::Ptr => service_name(s),
        Own::Srv | Own::Txt | Own::InstanceNsec => instance_name(s),
        Own::A | Own::Aaaa | Own::HostNsec => host_name(s),
    }
}

// Priority 0, weight 0, the port, and the host's name.
fn srv_rdata(s: Setup) -> OwnBytes
    ensures { result ≡ own_of (srv_rdata s) }
{
    let mut bytes = [0u8; 400];
    wire::buffer::put(&mut bytes, 4, &s.port.to_be_bytes());
    let len = put_host_name(&mut bytes, 6, s);
    OwnBytes { bytes, len }
}

// The TXT strings.
fn txt_rdata(t: Strings) -> OwnBytes
    ensures { result ≡ own_of (take t.len t.bytes) }
{
    let held = t.bytes;
    let len = t.len.min(MOST_TXT);
    let mut bytes = [0u8; 400];
    wire::buffer::put(&mut bytes, 0, &held[..len]);
    OwnBytes { bytes, len }
}

// The two addresses.
fn a_rdata(a: [u8; 4]) -> OwnBytes
    ensures { result ≡ own_of a }
{
    let mut bytes = [0u8; 400];
    wire::buffer::put(&mut bytes, 0, &a);
    OwnBytes { bytes, len: 4 }
}

fn aaaa_rdata(a: [u8; 16]) -> OwnBytes
    ensures { result ≡ own_of a }
{
    let mut bytes = [0u8; 400];
    wire::buffer::put(&mut bytes, 0, &a);
    OwnBytes { bytes, len: 16 }
}

// Writes the types that a name has behind it, and answers the offset past them.
fn put_types(out: &mut [u8; 400], at: usize, types: &[u8]) -> usize
    requires { at + length types.now ≤ 400 }
    ensures { Laid at types.now (length types.now) out.old result out.new }
{
    wire::buffer::put(out, at, types);
    at + types.len()
}

// The types of the host's name: A, and AAAA where there is one. Window 0, how many bytes, and a bit for each type.
fn put_host_types(out: &mut [u8; 400], at: usize, aaaa: bool) -> usize
    requires { at + 6 ≤ 400 }
    ensures { Laid at (host_types aaaa) 6 out.old result out.new }
{
    if aaaa {
        put_types(out, at, &[0, 4, 0x40, 0, 0, 0x08])
    } else {
        put_types(out, at, &[0, 1, 0x40])
    }
}

// The instance's name, and that it has TXT and SRV.
fn instance_nsec(s: Setup) -> OwnBytes
    ensures { result ≡ own_of (encode (instance_labels s) ++ instance_types) }
{
    let mut bytes = [0u8; 400];
    let types = [0u8, 5, 0, 0, 0x80, 0, 0x40];
    let end = put_instance_name(&mut bytes, 0, s);
    let len = put_types(&mut bytes, end, &types);
    OwnBytes { bytes, len }
}

// The host's name, and that it has A, and AAAA where there is one.
fn host_nsec(s: Setup) -> OwnBytes
    ensures { result ≡ own_of (encode (host_labels s) ++ host_types s.hasaaaa) }
{
    let mut bytes = [0u8; 400];
    let end = put_host_name(&mut bytes, 0, s);
    let len = put_host_types(&mut bytes, end, s.hasaaaa);
    OwnBytes { bytes, len }
}

// The rdata of an own record, names expanded.
#[tactic(auto, unfolding(crate::specs::records::Records::own_rdata))]
pub fn own_rdata(s: Setup, o: Own) -> OwnBytes
    ensures { result ≡ own_of (own_rdata s o) }
{
    match o {
        Own::Ptr => instance_name(s),
        Own::Srv => srv_rdata(s),
        Own::Txt => txt_rdata(s.txt),
        Own::A => a_rdata(s.a),
        Own::Aaaa => aaaa_rdata(s.aaaa),
        Own::InstanceNsec => instance_nsec(s),
        Own::HostNsec => host_nsec(s),
    }
}
