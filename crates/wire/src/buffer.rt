// Lays bytes over a buffer from a place on, as far as the buffer goes. Total: nothing is written past the end.
ghost use Rattle.std.specs.Prelude.{◌≡◌, cond, ltb};
ghost use Rattle.std.proofs.lemmas.List.Edits.{sets};

// Writes `s` into `out` from index `at` on.
pub fn put(out: &mut [u8], at: usize, s: &[u8])
    ensures { out.new ≡ sets out.old at s.now }
{
    if out.len() <= at {
        return;
    }
    // byte by byte: `copy_from_slice` calls memmove, which the archives for C would need from outside, and for a few bytes the call takes longer
    let n = s.len().min(out.len() - at);
    for i in 0..n {
        out[at + i] = s[i];
    }
}
