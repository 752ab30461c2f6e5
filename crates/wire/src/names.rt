// Names in a packet (specification, 'Reading a message'; RFC 1035, 3.1 and 4.1.4): labels of 1..63 bytes and a zero byte, at most 255 bytes
// uncompressed; a byte of 0xC0 or more starts a pointer, whose target is at least 12 and lies before the run of labels that led to it.
ghost use Rattle.std.specs.Prelude.{◌≡◌, ◌+◌, ◌<◌, ◌≤◌, length, false};
ghost use Rattle.wire.specs.name_pieces.Pieces.{piece_at};
ghost use Rattle.wire.specs.names.Names.{name_at, from_run, ending, is_name};
ghost use Rattle.wire.specs.names.Answers.{Wrote, is_pointer, Chased, or_later, seen_of, expanded, found_of, name_is, span_of};

use crate::name_pieces::{MOST_NAME, Piece, piece_at};

// Where a name ends in place, its uncompressed length, how many labels it has, and the length of the first: 0 and 0 of the root.
#[derive(Clone, Copy)]
pub struct Span {
    pub end: usize,
    pub len: usize,
    pub labels: usize,
    pub first: usize,
}

// The span of a name, none where it is malformed, with its uncompressed bytes, zeros after them.
#[derive(Clone, Copy)]
pub struct Expanded {
    pub name: Option<Span>,
    pub bytes: [u8; 255],
}

// Where a name that was copied ends in place, and its uncompressed length.
#[derive(Clone, Copy)]
struct Reach {
    end: usize,
    len: usize,
}

// The end of a chain of pointers: the first place, from `target` on, at which no pointer stands. A loop, so that a long chain takes no stack.
fn chase(p: &[u8], target: usize, used: usize) -> usize
    requires { used < 255 }
    ensures chain { Chased p.now used target result }
    ensures end { is_pointer (piece_at p.now result result used) ≡ false }
{
    let mut run = target;
    loop {
        match piece_at(p, run, run, used) {
            Piece::Pointer(t) => {
                run = t;
            }
            _ => {
                return run;
            }
        }
    }
}

// The label walker: the rest of a name of which `used` bytes stand in `out`, in the run of labels that begins at `start`.
#[cycle(follow_walk)]
fn walk(p: &[u8], start: usize, at: usize, out: &mut [u8; 255], used: usize) -> Option<Reach>
    requires { used < 255 }
    ensures { Wrote (from_run p.now start at used) used out.old result out.new }
{
    match piece_at(p, start, at, used) {
        Piece::Root => {
            out[used] = 0;
            Some(Reach {
                end: at + 1,
                len: used + 1,
            })
        }
        Piece::Label(n) => {
            let next = at + 1 + n;
            crate::buffer::put(out, used, &p[at..next]);
            walk(p, start, next, out, used + 1 + n)
        }
        Piece::Pointer(target) => follow(p, at, target, out, used),
        Piece::Bad => None,
    }
}

// The pointer follower: the same for a pointer at `at`, whose target has been found good.
#[cycle(follow_walk)]
fn follow(p: &[u8], at: usize, target: usize, out: &mut [u8; 255], used: usize) -> Option<Reach>
    requires used_bound { used < 255 }
    requires at_in_bounds { at + 1 < length p.now }
    ensures { Wrote (ending (at + 2) (from_run p.now target target used)) used out.old result out.new }
{
    let run = chase(p, target, used);
    let reach = walk(p, run, run, out, used)?;
    Some(Reach {
        end: at + 2,
        len: reach.len,
    })
}

// The name at an offset of a packet, expanded from a buffer of zeros; where it is malformed the bytes are all zero.
pub fn expand(p: &[u8], at: usize) -> Expanded
    ensures { result ≡ expanded (name_at p.now at) }
{
    let mut bytes = [0u8; 255];
    match walk(p, at, at, &mut bytes, 0) {
        Some(reach) => {
            let len = reach.len;
            let plain = plain_span(&bytes[..len]);
            Expanded {
                name: Some(Span {
                    end: reach.end,
                    len,
                    labels: plain.labels,
                    first: plain.first,
                }),
                bytes,
            }
        }
        None => Expanded {
            name: None,
            bytes: [0u8; 255],
        },
    }
}

// What is known, or where that is 0, as it is until something is known, what comes later. A number, and no Option: the walkers hand it on in one register.
pub(crate) fn or_later(known: usize, later: usize) -> usize
    ensures { result ≡ or_later known later }
{
    if known == 0 { later } else { known }
}

// The label walker that copies nothing: the rest of a name of which `used` bytes and `labels` labels were read, in the run of labels that begins at `start`.
// `end` is past the first pointer that was followed, and 0 until one was; `first` is the length of the first label, and 0 until one was read.
#[cycle(jump_pass)]
fn pass(
    p: &[u8],
    start: usize,
    at: usize,
    used: usize,
    end: usize,
    labels: usize,
    first: usize,
) -> Option<Span>
    requires used_bound { used < 255 }
    requires labels_le_used { labels ≤ used }
    ensures { result ≡ seen_of used end labels first (from_run p.now start at used) }
{
    match piece_at(p, start, at, used) {
        Piece::Root => {
            Some(Span {
                end: or_later(end, at + 1),
                len: used + 1,
                labels,
                first,
            })
        }
        Piece::Label(n) => {
            let one = or_later(first, n);
            pass(p, start, at + 1 + n, used + 1 + n, end, labels + 1, one)
        }
        Piece::Pointer(target) => jump(p, at, target, used, end, labels, first),
        Piece::Bad => None,
    }
}

// Its pointer follower: the same for a pointer at `at`, whose target has been found good.
#[cycle(jump_pass)]
fn jump(
    p: &[u8],
    at: usize,
    target: usize,
    used: usize,
    end: usize,
    labels: usize,
    first: usize,
) -> Option<Span>
    requires used_bound { used < 255 }
    requires labels_le_used { labels ≤ used }
    requires at_in_bounds { at + 1 < length p.now }
    ensures { result ≡ seen_of used end labels first (ending (at + 2) (from_run p.now target target used)) }
{
    let run = chase(p, target, used);
    pass(p, run, run, used, or_later(end, at + 2), labels, first)
}

// The name at an offset of a packet, without its bytes: nothing is copied.
pub fn read_name(p: &[u8], at: usize) -> Option<Span>
    ensures { result ≡ found_of (name_at p.now at) }
{
    pass(p, at, at, 0, 0, 0, 0)
}

// The same by a loop, which is faster: for the reading of a whole message.
pub fn name_at(p: &[u8], at: usize) -> Option<Span>
    ensures { result ≡ found_of (name_at p.now at) }
{
    let mut start = at;
    let mut here = at;
    let mut used = 0;
    // past the first pointer, and 0 until one has been followed
    let mut end = 0;
    let mut labels = 0;
    // the length of the first label, and 0 until one has been read
    let mut first = 0;
    // piece by piece: a pointer leads elsewhere, so that no `for` fits
    loop {
        match piece_at(p, start, here, used) {
            Piece::Root => {
                return Some(Span {
                    end: or_later(end, here + 1),
                    len: used + 1,
                    labels,
                    first,
                });
            }
            Piece::Label(n) => {
                here = here + 1 + n;
                used = used + 1 + n;
                labels = labels + 1;
                first = or_later(first, n);
            }
            Piece::Pointer(target) => {
                if end == 0 {
                    end = here + 2;
                }
                start = target;
                here = target;
            }
            Piece::Bad => {
                return None;
            }
        }
    }
}

// Whether the name at an offset of a packet equals an uncompressed one, ASCII letters folded: compared label by label, nothing is copied.
// A malformed name equals none.
pub fn name_is(p: &[u8], at: usize, other: &[u8]) -> bool
    ensures { result ≡ name_is p.now at other.now }
{
    let mut start = at;
    let mut here = at;
    let mut used = 0;
    // piece by piece: a pointer leads elsewhere, so that no `for` fits
    loop {
        match piece_at(p, start, here, used) {
            Piece::Root => {
                let end = here + 1;
                return crate::case_folding::same_name(&p[here..end], &other[used..]);
            }
            Piece::Label(n) => {
                let next = here + 1 + n;
                let total = used + 1 + n;
                if other.len() < total {
                    return false;
                }
                if !crate::case_folding::same_name(&p[here..next], &other[used..total]) {
                    return false;
                }
                here = next;
                used = total;
            }
            Piece::Pointer(target) => {
                start = target;
                here = target;
            }
            Piece::Bad => {
                return false;
            }
        }
    }
}

// Whether a slice is one uncompressed name: no pointer in it, and no byte past its zero byte.
pub fn is_name(s: &[u8]) -> bool
    ensures { result ≡ is_name s.now }
{
    if MOST_NAME < s.len() {
        return false;
    }
    // by strides of a label each, so that no `for` fits
    let mut at = 0;
    while at < s.len() {
        let n = s[at] as usize;
        if n == 0 {
            return at + 1 == s.len();
        }
        if 64 <= n {
            return false;
        }
        at = at + 1 + n;
    }
    false
}

// The span of an uncompressed name that lies alone, as one that is looked up does.
pub fn plain_span(s: &[u8]) -> Span
    ensures { result ≡ span_of s.now (length s.now) }
{
    Span {
        end: s.len(),
        len: s.len(),
        labels: crate::labels::labels_in(s),
        first: crate::octets::byte(s, 0) as usize,
    }
}
