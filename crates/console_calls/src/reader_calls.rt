// The console's calls that hold nothing: `read`, what a message says, and `txt`, what a key says in TXT strings.
// What is written no contract can say: these functions are proved safe and ending.
mod pairs;
mod reading;

use crate::output::bad_line;
use console_text::lines::field;

// Answers one of these calls. Any other line is a bad one.
pub fn call(line: &[u8], rt: &impl Print, text: &mut [u8; 4096]) {
    match field(line, 0) {
        b"read" => reading::read(line, rt, text),
        b"txt" => pairs::txt(line, rt, text),
        _ => bad_line(rt, text),
    }
}
