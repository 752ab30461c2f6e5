// Rdata with the name in PTR, SRV and NSEC expanded, and its equality (specification, 'Reading a message'): "Rdata is equal when the bytes are, after names
// in PTR and SRV are expanded into a buffer of 255 zeros; case counts there."
ghost use Rattle.std.specs.Prelude.{◌≡◌, ◌+◌, ◌-◌, ◌≤◌, length, take, drop};
ghost use Rattle.wire.specs.names.Names.{name_at};
ghost use Rattle.wire.specs.rdata.Rdata.{rdata_at};
ghost use Rattle.wire.specs.expansion.Equal.{same_bytes, rdata_is};
ghost use Rattle.wire.specs.expansion.Opened.{opened_name, opened_at, view_of, view_start};

use crate::buffer::put;
use crate::bytes::same_front;
use crate::message::RecordAt;
use crate::rdata::{form_at, part, rdata_fits};

// Rdata with its name expanded: a name of 255 bytes at the most and 34 others (6 before it in an SRV, a window block behind it in an NSEC), zeros after them.
#[derive(Clone, Copy)]
pub struct Opened {
    pub len: usize,
    pub bytes: [u8; 289],
}

// Whether two lists of bytes are the same. The lengths are compared before any byte is; those that differ in eight bytes are not the same, and what is left of
// fewer than eight is compared one by one.
pub fn same_bytes(a: &[u8], b: &[u8]) -> bool
    ensures { result ≡ same_bytes a.now b.now }
{
    if a.len() != b.len() {
        return false;
    }
    let same = same_front(a, b);
    if 8 <= a.len() - same {
        return false;
    }
    for i in same..a.len() {
        if a[i] != b[i] {
            return false;
        }
    }
    true
}

// Rdata of `len` bytes at `at` that is a name between `before` and `behind` bytes, the name expanded.
fn open_name(p: &[u8], at: usize, len: usize, before: usize, behind: usize) -> Opened
    requires { (before + behind ≤ 34) × (before + behind ≤ len) × (at + len ≤ length p.now) }
    ensures { result ≡ opened_name (take before (drop at p.now)) (take behind (drop (at + (len - behind)) p.now))
        (name_at p.now (at + before)) }
{
    let from = at + before;
    let to = at + (len - behind);
    let end = to + behind;
    let e = crate::names::expand(p, from);
    let name = e.name;
    let b = e.bytes;
    let mut out = [0u8; 289];
    match name {
        Some(span) => {
            let n = span.len;
            put(&mut out, 0, &p[at..from]);
            put(&mut out, before, &b[..n]);
            put(&mut out, before + n, &p[to..end]);
            Opened {
                len: before + n + behind,
                bytes: out,
            }
        }
        None => Opened {
            len: 0,
            bytes: [0u8; 289],
        },
    }
}

// Rdata that holds a name, the name expanded from a buffer of zeros. Other rdata is not copied: it lies in the packet as it is.
pub fn open(p: &[u8], f: RecordAt) -> Opened
    ensures { result ≡ opened_at p.now f }
{
    if !rdata_fits(p, f) {
        return Opened {
            len: 0,
            bytes: [0u8; 289],
        };
    }
    let held = form_at(p, f);
    if held.named {
        return open_name(p, f.rdata, f.rdlength, held.before, held.behind);
    }
    Opened {
        len: 0,
        bytes: [0u8; 289],
    }
}

// The bytes of rdata, names expanded: a part of what `open` gave where it holds a name, else the part of the packet itself.
pub fn view<'a>(p: &'a [u8], opened: &'a [u8], n: usize, f: RecordAt) -> &'a [u8]
    ensures bytes { result.now ≡ view_of p.now opened.now n f }
    ensures start { result.ref_ptr ≡ view_start p.now p.entry.ref_ptr opened.now opened.entry.ref_ptr f }
{
    let held = form_at(p, f);
    if held.named {
        return part(opened, 0, n);
    }
    part(p, f.rdata, f.rdlength)
}

// Whether the rdata of a record equals expanded bytes. Rdata that is not as its type asks equals nothing; what holds no name is compared as it lies.
pub fn rdata_is(p: &[u8], f: RecordAt, other: &[u8]) -> bool
    ensures { result ≡ rdata_is (rdata_at p.now f) other.now }
{
    if !rdata_fits(p, f) {
        return false;
    }
    let held = form_at(p, f);
    if !held.named {
        return same_bytes(part(p, f.rdata, f.rdlength), other);
    }
    let o = open(p, f);
    let b = o.bytes;
    let n = o.len;
    same_bytes(view(p, &b, n, f), other)
}
