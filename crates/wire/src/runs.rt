// A name as runs of labels (specification, 'Reading a message'; RFC 1035, 4.1.4): at each pointer it goes on in another run, and most have two at the most. It
// is followed once, and a run is copied as a whole.
ghost use Rattle.std.specs.Prelude.{◌≡◌};
ghost use Rattle.wire.specs.names.Names.{name_at};
ghost use Rattle.wire.specs.names.Answers.{found_of};
ghost use Rattle.wire.specs.runs.Runs.{from_of, span_in, Lies};
ghost use Rattle.wire.specs.runs.Written.{with_name};

use crate::buffer::put;
use crate::name_pieces::{Piece, piece_at};
use crate::names::{Span, or_later};
use crate::rdata::part;

// A name that was read: its span, and two runs of labels in the message. The first that is not empty has `front` bytes from `from` on, the last one has
// `rest` bytes from `start` on, the zero byte with them. Whether the two are the whole name is told: whether no other is between them.
// A flag, and no Option: no value stands or falls with it.
#[derive(Clone, Copy)]
struct Runs {
    span: Span,
    from: usize,
    front: usize,
    start: usize,
    rest: usize,
    whole: bool,
}

// Where the first run of labels begins that is not empty: `start` where none was before, else `from`.
fn first_run(front: usize, from: usize, start: usize) -> usize
    ensures { result ≡ from_of front from start }
{
    if front == 0 { start } else { from }
}

// The name at an offset, and two of its runs. It is read by a loop, and nothing is copied.
fn runs_at(p: &[u8], at: usize) -> Option<Runs>
    ensures span { span_in result ≡ found_of (name_at p.now at) }
    ensures bytes { Lies p.now (name_at p.now at) result }
{
    let mut from = at;
    let mut front = 0;
    let mut start = at;
    // how many bytes are before the run at `start`
    let mut last = 0;
    let mut here = at;
    let mut used = 0;
    // past the first pointer, and 0 until one has been followed
    let mut end = 0;
    let mut labels = 0;
    // the length of the first label, and 0 until one has been read
    let mut first = 0;
    // piece by piece: a pointer leads elsewhere, so that no `for` fits
    loop {
        match piece_at(p, start, here, used) {
            Piece::Root => {
                let past = or_later(end, here + 1);
                let len = used + 1;
                return Some(Runs {
                    span: Span {
                        end: past,
                        len,
                        labels,
                        first,
                    },
                    from,
                    front,
                    start,
                    rest: len - last,
                    whole: front == last,
                });
            }
            Piece::Label(n) => {
                here = here + 1 + n;
                used = used + 1 + n;
                labels = labels + 1;
                first = or_later(first, n);
            }
            Piece::Pointer(target) => {
                end = or_later(end, here + 2);
                from = first_run(front, from, start);
                front = or_later(front, used);
                last = used;
                start = target;
                here = target;
            }
            Piece::Bad => {
                return None;
            }
        }
    }
}

// Writes the name at an offset, uncompressed, over the first bytes of a buffer; the others stay. Nothing is written where it is malformed or longer.
pub fn name_into(p: &[u8], at: usize, out: &mut [u8]) -> Option<Span>
    ensures answer { result ≡ found_of (name_at p.now at) }
    ensures bytes { out.new ≡ with_name out.old (name_at p.now at) }
{
    let runs = runs_at(p, at)?;
    let span = runs.span;
    let len = span.len;
    if out.len() < len {
        return Some(span);
    }
    if runs.whole {
        put(out, 0, part(p, runs.from, runs.front));
        let rest = part(p, runs.start, runs.rest);
        put(out, runs.front, rest);
    } else {
        let expanded = crate::names::expand(p, at);
        let bytes = expanded.bytes;
        put(out, 0, part(&bytes, 0, len));
    }
    Some(span)
}
