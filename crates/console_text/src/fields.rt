// The form of a console line: how many fields it has, which of them are numbers or bytes, and the numbers. A field that there is not is no bytes, and no
// number.
ghost use Rattle.std.specs.Prelude.{◌≡◌};
ghost use Rattle.console_text.specs.fields.Numbers.{is_number_at, number_at, number16_at};
ghost use Rattle.console_text.specs.fields.Forms.{has_arguments, are_bytes_at};

use crate::hex::is_bytes;
use crate::lines::{self, field};

// The greatest number of 16 bits.
pub const MOST_16: u64 = 65535;

// Whether a field of a line is a number.
pub fn is_number(line: &[u8], index: usize) -> bool
    ensures { result ≡ is_number_at line.now index }
{
    lines::number(field(line, index)).is_some()
}

// A field of a line as a number, 0 where it is none.
// No Option: the console's definitions rest on number_at, which has a number for every field.
pub fn number(line: &[u8], index: usize) -> u64
    ensures { result ≡ number_at line.now index }
{
    lines::number(field(line, index)).unwrap_or(0)
}

// A field of a line as a number of 16 bits, such as a port or a type; 0 where it is too great for one.
pub fn number_of_16(line: &[u8], index: usize) -> u16
    ensures { result ≡ number16_at line.now index }
{
    u16::try_from(number(line, index)).unwrap_or(0)
}

// Whether so many fields follow the first of a line.
pub fn has_arguments(line: &[u8], n: usize) -> bool
    ensures { result ≡ has_arguments line.now n }
{
    lines::arguments(line) == n
}

// Whether a field of a line is bytes.
pub fn are_bytes(line: &[u8], index: usize) -> bool
    ensures { result ≡ are_bytes_at line.now index }
{
    is_bytes(field(line, index))
}
