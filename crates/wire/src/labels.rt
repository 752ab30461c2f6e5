// A name as the list of its labels (RFC 1035, 3.1): how many it has. The definitions and laws of names as lists of labels, for those who write names, are
// here too.
ghost use Rattle.std.specs.Prelude.{◌≡◌};
ghost use Rattle.wire.specs.labels.Counted.{labels_in};

// How many labels an uncompressed name has.
pub fn labels_in(name: &[u8]) -> usize
    ensures { result ≡ labels_in name.now }
{
    let mut count = 0;
    // by strides of a label each, so that no `for` fits
    let mut i = 0;
    while i < name.len() {
        let n = name[i] as usize;
        if n == 0 {
            return count;
        }
        count += 1;
        i = i + 1 + n;
    }
    count
}
