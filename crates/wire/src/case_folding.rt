// Equality of uncompressed names: ASCII letters folded, and nothing else (specification, 'Reading a message'; RFC 6762, 16).
ghost use Rattle.std.specs.Prelude.{◌≡◌, eqb};
ghost use Rattle.wire.specs.case_folding.Fold.{lower, same_name};

use crate::bytes::same_front;

// A byte with an ASCII capital letter made small.
pub fn lowered(b: u8) -> u8
    ensures { result ≡ lower b }
{
    b.to_ascii_lowercase()
}

// Whether two bytes are the same, ASCII letters folded. Most are the same unfolded, and that is tested first.
fn same_letter(x: u8, y: u8) -> bool
    ensures { result ≡ eqb (lower x) (lower y) }
{
    x == y || lowered(x) == lowered(y)
}

// Whether two uncompressed names are equal. The lengths are compared before any byte is, and a byte is folded from the first eight on that are not the same.
pub fn same_name(a: &[u8], b: &[u8]) -> bool
    ensures { result ≡ same_name a.now b.now }
{
    if a.len() != b.len() {
        return false;
    }
    for i in same_front(a, b)..a.len() {
        if !same_letter(a[i], b[i]) {
            return false;
        }
    }
    true
}
