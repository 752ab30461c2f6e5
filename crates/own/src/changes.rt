// A set-up with other data (specification, 'Stops and updates': "an update of SRV port or TXT"): the same names and records but for the one that is updated.
ghost use Rattle.std.specs.Prelude.{◌≡◌};
ghost use Rattle.own.specs.changes.Changes.{strings_of, with_port, with_txt};

use crate::records::{MOST_TXT, Setup, Strings};

// TXT strings of some bytes. More than there is room for keep their length, by which no set-up has them.
fn strings_of(txt: &[u8]) -> Strings
    ensures { result ≡ strings_of txt.now }
{
    let mut bytes = [0u8; MOST_TXT];
    wire::buffer::put(&mut bytes, 0, txt);
    Strings {
        bytes,
        len: txt.len(),
    }
}

// The set-up with another port.
pub fn with_port(s: Setup, port: u16) -> Setup
    ensures { result ≡ with_port s port }
{
    Setup { port, ..s }
}

// The set-up with other TXT strings.
pub fn with_txt(s: Setup, txt: &[u8]) -> Setup
    ensures { result ≡ with_txt s txt.now }
{
    Setup {
        txt: strings_of(txt),
        ..s
    }
}
