// Lines of text, as a console reads them: fields between single spaces, numbers in decimal digits.
// No rule of the specification is here.
ghost use Rattle.std.specs.Prelude.{◌≡◌, [], ◌+◌, length, get_or, take};
ghost use Rattle.console_text.specs.lines.Fields.{fields_of};
ghost use Rattle.console_text.specs.lines.Numbers.{number_of};

// How many fields follow the first: one for each space.
pub fn arguments(line: &[u8]) -> usize
    ensures { result + 1 ≡ length (fields_of line.now) }
{
    line.iter().filter(|b| **b == b' ').count()
}

// The field with an index, 0 for the first; no bytes where there is none.
// No Option: the console's definitions rest on fields_of with the empty field past the last.
pub fn field(line: &[u8], index: usize) -> &[u8]
    ensures { result.now ≡ get_or (fields_of line.now) index [] }
{
    line.split(|b| *b == b' ').nth(index).unwrap_or(b"")
}

// The first bytes of a slice: so many, or all where there are fewer.
pub fn front(s: &[u8], n: usize) -> &[u8]
    ensures { result.now ≡ take n s.now }
{
    &s[..n.min(s.len())]
}

// A field as a number: one or more decimal digits, below 2^64.
pub fn number(s: &[u8]) -> Option<u64>
    ensures { result ≡ number_of s.now }
{
    if s.len() == 0 {
        return None;
    }
    // digit by digit, so that it ends at the first byte that is none, or where the value is too great: `all`, `from_utf8` and `parse` each go over the field
    let mut value: u64 = 0;
    for i in 0..s.len() {
        let b = s[i];
        if b < b'0' {
            return None;
        }
        if b'9' < b {
            return None;
        }
        let digit = (b - b'0') as u64;
        if u64::MAX / 10 < value {
            return None;
        }
        if u64::MAX - value * 10 < digit {
            return None;
        }
        value = value * 10 + digit;
    }
    Some(value)
}
