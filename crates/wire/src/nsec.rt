// The NSEC record of the restricted kind (RFC 6762, 6.1), which says which types a name has: its rdata is the owner's name again and one window block, of a
// number (0), a length (1 to 32) and so many bytes of bits.
ghost use Rattle.std.specs.Prelude.{◌≡◌};
ghost use Rattle.wire.specs.nsec.Nsec.{names, is_block, is_nsec};

use crate::case_folding::same_name;
use crate::octets::byte;
use crate::rdata::NSEC;

// The most bytes of bits in a window block.
pub const MOST_BITS: usize = 32;

// Whether a window block says that a type is present.
pub fn names_type(block: &[u8], rtype: u16) -> bool
    ensures { result ≡ names rtype block.now }
{
    let bits = byte(block, (rtype / 8) as usize + 2);
    (bits >> (7 - rtype % 8)) % 2 == 1
}

// Whether bytes are one window block of the restricted kind: number 0, a length of 1 to 32, so many bytes to the end, and the bit of NSEC itself clear.
pub fn is_block(b: &[u8]) -> bool
    ensures { result ≡ is_block b.now }
{
    if byte(b, 0) != 0 {
        return false;
    }
    let n = byte(b, 1) as usize;
    if n < 1 {
        return false;
    }
    if MOST_BITS < n {
        return false;
    }
    if b.len() != n + 2 {
        return false;
    }
    !names_type(b, NSEC)
}

// Whether rdata with its name expanded is that of an NSEC of the restricted kind, for an owner.
pub fn is_nsec(owner: &[u8], d: &[u8]) -> bool
    ensures { result ≡ is_nsec owner.now d.now }
{
    let n = owner.len();
    if d.len() < n {
        return false;
    }
    if !same_name(owner, &d[..n]) {
        return false;
    }
    is_block(&d[n..])
}
