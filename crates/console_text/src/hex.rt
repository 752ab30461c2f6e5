// Bytes in hex digits, as a console reads and writes them: two digits a byte, `-` for none. No rule of the specification is here.
ghost use Rattle.std.specs.Prelude.{◌≡◌, ◌%◌, ◌<◌, length};
ghost use Rattle.std.proofs.lemmas.List.Edits.{sets};
ghost use Rattle.console_text.specs.hex.Bytes.{hex_value, bytes_of, is_bytes, glyph, text_in};

// The value of a hex digit, either case; 0 for a byte that is none.
fn value(b: u8) -> u8
    ensures { result ≡ hex_value b % 16 }
{
    (b as char).to_digit(16).unwrap_or(0) as u8
}

// Whether a field is bytes: `-`, or one or more pairs of hex digits.
pub fn is_bytes(s: &[u8]) -> bool
    ensures { result ≡ is_bytes s.now }
{
    match s {
        [] => false,
        [b] => *b == b'-',
        _ => s.len() % 2 == 0 && s.iter().all(|b| b.is_ascii_hexdigit()),
    }
}

// Writes the bytes of a field to the start of a buffer, as many as fit, and tells how many the field has.
pub fn fill(s: &[u8], out: &mut [u8]) -> usize
    ensures value { result ≡ length (bytes_of s.now) }
    ensures out_after { out.new ≡ sets out.old 0 (bytes_of s.now) }
{
    let n = s.len() / 2;
    for i in 0..n.min(out.len()) {
        out[i] = value(s[2 * i]) * 16 + value(s[2 * i + 1]);
    }
    n
}

// The hex digit of a number below 16, in lower case.
fn digit(d: u8) -> u8
    requires { d < 16 }
    ensures { result ≡ glyph d }
{
    if d < 10 { b'0' + d } else { b'a' - 10 + d }
}

// Writes bytes as hex digits, or `-` for none, to the start of a buffer, and tells how many characters that is; nothing where they do not fit.
// By digits of our own: text_in says what is spelled, which fmt's methods do not.
pub fn spell(s: &[u8], out: &mut [u8]) -> usize
    ensures value { result ≡ length (text_in (length out.old) s.now) }
    ensures out_after { out.new ≡ sets out.old 0 (text_in (length out.old) s.now) }
{
    if s.is_empty() {
        if out.is_empty() {
            return 0;
        }
        out[0] = b'-';
        return 1;
    }
    if out.len() / 2 < s.len() {
        return 0;
    }
    for (i, b) in s.iter().enumerate() {
        out[2 * i] = digit(b / 16);
        out[2 * i + 1] = digit(b % 16);
    }
    2 * s.len()
}
