// The TXT lookup for C and Rust, on byte slices, with the answer in numbers. A crate of its own, so that a program that only looks TXT pairs up links
// nothing else. c/include/kurgashel.h declares the function.
#![tactic(auto)]

ghost use Rattle.std.specs.Prelude.{◌≡◌};
ghost use Rattle.txt.specs.Lookup.{lookup_of};
ghost use Rattle.capi_txt.specs.Numbers.{buffer_number, pair_of};

use txt::{Answer, Buffer};

// What a key says: the specification's refusal number, or 0; 0 absent, 1 present without value, 2 empty value, 3 the value itself; and the part shown, by its
// buffer (0 received, 1 factory), its place there and its length: the empty part at the received TXT's start where no value is shown.
#[repr(C)]
#[derive(Clone, Copy, Default)]
pub struct Pair {
    pub refusal: u8,
    pub answer: u8,
    pub buffer: u8,
    pub at: usize,
    pub length: usize,
}

// By a number: it goes into a struct that C reads.
fn buffer_number(buffer: Buffer) -> u8
    ensures { result ≡ buffer_number buffer }
{
    match buffer {
        Buffer::Received => 0,
        Buffer::Factory => 1,
    }
}

impl From<Answer> for Pair {
    ghost from_gives = { λ answer pair. pair ≡ pair_of answer };

    fn from(answer: Answer) -> Pair {
        match answer {
            Answer::Refused(refusal) => Pair {
                refusal,
                ..Pair::default()
            },
            Answer::Absent => Pair::default(),
            Answer::Present => Pair {
                answer: 1,
                ..Pair::default()
            },
            Answer::Empty => Pair {
                answer: 2,
                ..Pair::default()
            },
            Answer::Value(held) => Pair {
                refusal: 0,
                answer: 3,
                buffer: buffer_number(held.buffer),
                at: held.at,
                length: held.len,
            },
        }
    }
}

// Looks a key up in the TXT that was received and, when it is absent there, in the factory TXT.
pub fn kurgashel_txt_lookup<'k, 'a>(key: &'k [u8], received: &'a [u8], factory: &'a [u8]) -> Pair
    ensures { result ≡ pair_of (lookup_of key.now received.now factory.now) }
{
    let answer = txt::answer_for(key, received, factory);
    Pair::from(answer)
}
