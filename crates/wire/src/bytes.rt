// Bytes of two lists, compared eight at a time. What is compared a byte at a time, folded or not, begins where these end.
ghost use Rattle.std.specs.Prelude.{◌≡◌, ℕ, ◌+◌, ◌<◌, ◌≤◌, length, get_or, take};
ghost use Rattle.wire.specs.bytes.Eight.{eight_at};

// Eight bytes as one number. Nothing is tested, the first byte counts least and all is of one width, so that the compiler makes one load of it.
fn eight(s: &[u8], i: usize) -> u64
    requires { i + 8 ≤ length s.now }
    ensures { (result ≡ eight_at s.now i) × ((k : ℕ) → get_or s.now k 0 < 256) }
{
    let b0 = s[i] as u64;
    let b1 = s[i + 1] as u64;
    let b2 = s[i + 2] as u64;
    let b3 = s[i + 3] as u64;
    let b4 = s[i + 4] as u64;
    let b5 = s[i + 5] as u64;
    let b6 = s[i + 6] as u64;
    let b7 = s[i + 7] as u64;
    let low = b0 + b1 * 256 + b2 * 65536 + b3 * 16777216;
    low + b4 * 4294967296 + b5 * 1099511627776 + b6 * 281474976710656 + b7 * 72057594037927936
}

// So many first bytes are the same in two lists of one length. They are passed over eight at a time: where eight or more are left the lists differ in the next
// eight, of which some may be the same too.
pub(crate) fn same_front(a: &[u8], b: &[u8]) -> usize
    requires { length a.now ≡ length b.now }
    ensures within { result ≤ length a.now }
    ensures same { take result a.now ≡ take result b.now }
    ensures next { result + 8 ≤ length a.now → a.now ≡ b.now → ⊥ }
{
    // eight at a time: `==` on parts is slower for the few bytes that names and rdata have
    let mut i = 0;
    while 8 <= a.len() - i {
        if eight(a, i) != eight(b, i) {
            return i;
        }
        i += 8;
    }
    i
}
