// What stands at one place of a name in a packet (specification, 'Reading a message'; RFC 1035, 3.1 and 4.1.4): the zero byte, a label of 1..63 bytes, or a
// pointer, whose target is at least 12 and lies before the run of labels that led to it.
ghost use Rattle.std.specs.Prelude.{◌≡◌};
ghost use Rattle.wire.specs.name_pieces.Pieces.{piece_at};

// The most bytes that a name has uncompressed, its zero byte with them.
pub const MOST_NAME: usize = 255;

// What stands at one place of a name: the zero byte, a label of so many bytes, a pointer to an offset, or what no name has there. Four kinds, and no Result
// round three of them: the walkers answer each in one match.
#[derive(Clone, Copy)]
pub enum Piece {
    Root,
    Label(usize),
    Pointer(usize),
    Bad,
}

// The piece at an offset, in the run of labels that begins at `start`, of a name of which `used` bytes have been read.
pub fn piece_at(p: &[u8], start: usize, at: usize, used: usize) -> Piece
    ensures { result ≡ piece_at p.now start at used }
{
    if p.len() <= at {
        return Piece::Bad;
    }
    let n = p[at] as usize;
    if n == 0 {
        return Piece::Root;
    }
    if n < 64 {
        if p.len() < at + 1 + n {
            return Piece::Bad;
        }
        if MOST_NAME <= used {
            return Piece::Bad;
        }
        if MOST_NAME <= used + 1 + n {
            return Piece::Bad;
        }
        return Piece::Label(n);
    }
    if n < 192 {
        return Piece::Bad;
    }
    let next = at + 1;
    if p.len() <= next {
        return Piece::Bad;
    }
    let target = n % 64 * 256 + p[next] as usize;
    if target < 12 {
        return Piece::Bad;
    }
    if start <= target {
        return Piece::Bad;
    }
    Piece::Pointer(target)
}
