// The search for a byte.
ghost use Rattle.std.specs.Prelude.{◌≡◌, ◌≤◌, length};
ghost use Rattle.console_text.specs.scan.Scan.{index_of};

// The place of the first byte that equals `b`, or the length where there is none.
// No Option: index_of is the length then, and both callers compare the place with the end.
pub fn find(s: &[u8], b: u8) -> usize
    ensures place { result ≡ index_of b s.now }
    ensures within { result ≤ length s.now }
{
    s.iter().position(|x| *x == b).unwrap_or(s.len())
}
