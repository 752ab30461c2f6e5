// The refusals (specification, 'Refusal numbers'): a call that is refused answers the first of its tests that holds, in the order
// 1, 2, 3, 8, 4, 5, 6, 7, 9, 10, 11, 12, 13.
ghost use Rattle.std.specs.Prelude.{◌≡◌};
ghost use Rattle.wire.specs.refusals.Numbers.{number_of};

// Why a call is refused; its number is what C, the console and the specification say of it.
#[derive(Clone, Copy, Debug, PartialEq, Eq)]
pub enum Refusal {
    // 1: a time above 2^62 ms, or before one that was handed in before.
    Time,
    // 2: a draw out of range.
    Draw,
    // 3: a buffer under 1,452 bytes.
    Buffer,
    // 4: a message under 12 or over 8,972 bytes.
    Length,
    // 5: an opcode or RCODE that is not zero, or a source port other than 5353.
    Header,
    // 6: a malformed message, TXT or looked-up name.
    Malformed,
    // 7: names or data that break the rules of a set-up.
    Setup,
    // 8: a cache table or byte store of another size, or an entry with a length that no slot has.
    Table,
    // 9: a TXT key that is empty or has a byte that no key has.
    Key,
    // 10: an update of a claim that is lost.
    Lost,
    // 11: an update less than 6,000 ms after the last.
    TooSoon,
    // 12: a trace that breaks the rules, or an event that cannot be written.
    Trace,
    // 13: a mapped name of more than 255 bytes.
    TooLong,
}

impl Refusal {
    // Its number, by which the specification, C and the console know it.
    pub fn number(self) -> u8
        ensures { result ≡ number_of self }
    {
        match self {
            Refusal::Time => TIME,
            Refusal::Draw => DRAW,
            Refusal::Buffer => BUFFER,
            Refusal::Length => LENGTH,
            Refusal::Header => HEADER,
            Refusal::Malformed => MALFORMED,
            Refusal::Setup => SETUP,
            Refusal::Table => TABLE,
            Refusal::Key => KEY,
            Refusal::Lost => LOST,
            Refusal::TooSoon => TOO_SOON,
            Refusal::Trace => TRACE,
            Refusal::TooLong => TOO_LONG,
        }
    }
}

impl From<Refusal> for u8 {
    ghost from_gives = { λ refusal n. n ≡ number_of refusal };

    fn from(refusal: Refusal) -> u8 {
        refusal.number()
    }
}

// 1: a time above 2^62 ms, or before one that was handed in before.
pub const TIME: u8 = 1;

// 2: a draw out of range.
pub const DRAW: u8 = 2;

// 3: a buffer under 1,452 bytes.
pub const BUFFER: u8 = 3;

// 4: a message under 12 or over 8,972 bytes.
pub const LENGTH: u8 = 4;

// 5: an opcode or RCODE that is not zero, or a source port other than 5353.
pub const HEADER: u8 = 5;

// 6: a malformed message, TXT or looked-up name.
pub const MALFORMED: u8 = 6;

// 7: names or data that break the rules of a set-up.
pub const SETUP: u8 = 7;

// 8: a cache table or byte store of another size, or an entry with a length that no slot has.
pub const TABLE: u8 = 8;

// 9: a TXT key that is empty or has a byte that no key has.
pub const KEY: u8 = 9;

// 10: an update of a claim that is lost.
pub const LOST: u8 = 10;

// 11: an update less than 6,000 ms after the last.
pub const TOO_SOON: u8 = 11;

// 12: a trace that breaks the rules, or an event that cannot be written.
pub const TRACE: u8 = 12;

// 13: a mapped name of more than 255 bytes.
pub const TOO_LONG: u8 = 13;
