// Bytes that a screen can show (specification, 'Own records'; RFC 3629, 4; RFC 6763, 4.1.1): whole characters of UTF-8, none of them a control character
// of ASCII.
ghost use Rattle.std.specs.Prelude.{◌≡◌, ◌&&◌, ◌+◌, ◌<◌, ◌≤◌, ltb, length, drop};
ghost use Rattle.own.specs.utf8.Utf8.{owing, within, shown_from, all_plain, is_shown};

// What a character still owes: so many continuation bytes, of which the next lies between the two bounds. Where it owes none, a character starts.
#[derive(Clone, Copy)]
pub struct Next {
    pub owed: u8,
    pub low: u8,
    pub high: u8,
}

fn owes(owed: u8, low: u8, high: u8) -> Next
    ensures { result ≡ owing owed low high }
{
    Next { owed, low, high }
}

// A byte between two bounds.
#[tactic(auto, unfolding(crate::specs::utf8::Utf8::within))]
fn is_within(low: u8, high: u8, b: u8) -> bool
    ensures { result ≡ within low high b }
{
    low <= b && b <= high
}

// Only characters of one byte. It looks at all of them, since a loop that may stop early takes several times as long.
fn all_plain(s: &[u8]) -> bool
    ensures { result ≡ all_plain s.now }
{
    let mut plain = true;
    for &b in s {
        if !is_within(0x20, 0x7E, b) {
            plain = false;
        }
    }
    plain
}

// The length of the character at `i`, whose first byte leaves `next` owed; 0 where the bytes end within it, or one of them may not stand there.
fn with_owed(s: &[u8], i: usize, next: Next) -> usize
    requires { (i < length s.now) × (0 < next.owed) × (next.owed < 4) }
    ensures { (i + result ≤ length s.now)
        × (shown_from next (drop (i + 1) s.now) ≡ (ltb 0 result && is_shown (drop (i + result) s.now))) }
{
    let owed = next.owed;
    if s.len() - i <= owed as usize {
        return 0;
    }
    if !is_within(next.low, next.high, s[i + 1]) {
        return 0;
    }
    if owed == 1 {
        return 2;
    }
    if !is_within(0x80, 0xBF, s[i + 2]) {
        return 0;
    }
    if owed == 2 {
        return 3;
    }
    if !is_within(0x80, 0xBF, s[i + 3]) {
        return 0;
    }
    4
}

// The length of the character at `i` if a screen can show it, else 0. Most of three bytes have no further bound, and are known by their first byte at once.
fn character(s: &[u8], i: usize) -> usize
    requires { i < length s.now }
    ensures { (i + result ≤ length s.now)
        × (is_shown (drop i s.now) ≡ (ltb 0 result && is_shown (drop (i + result) s.now))) }
{
    let b = s[i];
    if is_within(0xE1, 0xEC, b) {
        return with_owed(s, i, owes(2, 0x80, 0xBF));
    }
    if is_within(0x20, 0x7E, b) {
        return 1;
    }
    if !is_within(0xC2, 0xF4, b) {
        return 0;
    }
    if b < 0xE0 {
        return with_owed(s, i, owes(1, 0x80, 0xBF));
    }
    if b == 0xE0 {
        return with_owed(s, i, owes(2, 0xA0, 0xBF));
    }
    if b == 0xED {
        return with_owed(s, i, owes(2, 0x80, 0x9F));
    }
    if b < 0xF0 {
        return with_owed(s, i, owes(2, 0x80, 0xBF));
    }
    if b == 0xF0 {
        return with_owed(s, i, owes(3, 0x90, 0xBF));
    }
    if b == 0xF4 {
        return with_owed(s, i, owes(3, 0x80, 0x8F));
    }
    with_owed(s, i, owes(3, 0x80, 0xBF))
}

// Whether bytes are whole characters of UTF-8 with none of the bytes 00 to 1F and 7F.
pub fn is_shown(s: &[u8]) -> bool
    ensures { result ≡ is_shown s.now }
{
    if all_plain(s) {
        return true;
    }
    // by strides of a character each, so that no `for` fits
    let mut i = 0;
    while i < s.len() {
        let len = character(s, i);
        if len == 0 {
            return false;
        }
        i += len;
    }
    true
}
