// The answers of the console. An answer is gathered in a buffer of the caller, of which `used` bytes are taken, and written to what the caller prints to
// where the buffer is full and at the answer's end. What is written no contract can say: these functions are proved safe and ending. A write that fails
// changes nothing: the console goes on.
use console_text::hex::spell;
use console_text::lines::front;
use itoa::Buffer;

const TEXT: usize = 4096;

// The bytes that are spelled at a time.
const PIECE: usize = 128;

// Adds a byte, and tells how many bytes are taken then.
fn byte(rt: &impl Print, text: &mut [u8; 4096], used: usize, b: u8) -> usize {
    if TEXT <= used {
        let _ = rt.write_all(text);
        text[0] = b;
        return 1;
    }
    text[used] = b;
    used + 1
}

// Adds bytes as they are.
fn plain(rt: &impl Print, text: &mut [u8; 4096], used: usize, s: &[u8]) -> usize {
    let mut taken = used;
    for b in s {
        taken = byte(rt, text, taken, *b);
    }
    taken
}

// Begins an answer with its first word.
pub fn first(rt: &impl Print, text: &mut [u8; 4096], word: &[u8]) -> usize {
    plain(rt, text, 0, word)
}

// Adds a space and a word.
pub fn word(rt: &impl Print, text: &mut [u8; 4096], used: usize, s: &[u8]) -> usize {
    let taken = byte(rt, text, used, b' ');
    plain(rt, text, taken, s)
}

// Adds a space and a number in decimal digits.
pub fn number(rt: &impl Print, text: &mut [u8; 4096], used: usize, n: u64) -> usize {
    let mut digits = Buffer::new();
    word(rt, text, used, digits.format(n).as_bytes())
}

// Adds a piece of bytes in hex digits, or `-` for none.
fn spelled(rt: &impl Print, text: &mut [u8; 4096], used: usize, s: &[u8]) -> usize {
    let mut digits = [0u8; 256];
    let k = spell(s, &mut digits);
    plain(rt, text, used, front(&digits, k))
}

// Adds a space and bytes in hex digits, or `-` for none.
pub fn bytes(rt: &impl Print, text: &mut [u8; 4096], used: usize, s: &[u8]) -> usize {
    let mut taken = byte(rt, text, used, b' ');
    if s.is_empty() {
        return spelled(rt, text, taken, s);
    }
    for piece in s.chunks(PIECE) {
        taken = spelled(rt, text, taken, piece);
    }
    taken
}

// Ends the answer and writes it out.
pub fn finish(rt: &impl Print, text: &mut [u8; 4096], used: usize) {
    let taken = byte(rt, text, used, b'\n');
    let _ = rt.write_all(front(text, taken));
}

// An answer of one word, or of words that are always the same.
pub fn only(rt: &impl Print, text: &mut [u8; 4096], words: &[u8]) {
    let used = first(rt, text, words);
    finish(rt, text, used);
}

// The answer to a line that is no call, or not of its call's form.
pub fn bad_line(rt: &impl Print, text: &mut [u8; 4096]) {
    only(rt, text, b"bad line");
}

// The answer to a call that is refused with the specification's number.
pub fn refused(rt: &impl Print, text: &mut [u8; 4096], n: u64) {
    let used = first(rt, text, b"refused");
    let used = number(rt, text, used, n);
    finish(rt, text, used);
}
