// Where a name is cut when it is written (specification, 'Writing a packet'; RFC 1035, 4.1.4): at its longest suffix of whole labels that stands earlier,
// byte for byte, in a name of the packet.
ghost use Rattle.std.specs.Prelude.{◌≡◌};
ghost use Rattle.writer.specs.compression.Compression.{stands_at, place_of, cut_of};

// How a name is cut: how many of its bytes are written as they are, and where the rest of it stands earlier in the packet; the zero byte follows where it
// stands nowhere.
#[derive(Clone, Copy)]
pub struct Cut {
    pub kept: usize,
    pub place: Option<usize>,
}

// Whether the uncompressed name `s` stands at an offset of the packet, byte for byte, pointers there followed.
pub fn stands_at(p: &[u8], s: &[u8], at: usize) -> bool
    ensures { result ≡ stands_at p.now s.now at }
{
    let e = wire::names::expand(p, at);
    let Some(span) = e.name else {
        return false;
    };
    wire::expansion::same_bytes(&e.bytes[..span.len], s)
}

// The first of some offsets at which the name `s` stands.
pub fn place_of(p: &[u8], s: &[u8], places: &[usize]) -> Option<usize>
    ensures { result ≡ place_of p.now s.now places.now }
{
    for &o in places {
        if stands_at(p, s, o) {
            return Some(o);
        }
    }
    None
}

// Where a name is cut, in a packet whose names have labels at the offsets `places`: its suffixes are looked for from the longest on.
pub fn cut_of(p: &[u8], places: &[usize], name: &[u8]) -> Cut
    ensures { result ≡ cut_of p.now places.now name.now }
{
    // by strides of a label each, so that no `for` fits
    let mut i = 0;
    while i < name.len() {
        let n = name[i] as usize;
        if n == 0 {
            return Cut {
                kept: i,
                place: None,
            };
        }
        if let Some(o) = place_of(p, &name[i..], places) {
            return Cut {
                kept: i,
                place: Some(o),
            };
        }
        if name.len() - i <= n {
            return Cut {
                kept: name.len(),
                place: None,
            };
        }
        i += 1 + n;
    }
    Cut {
        kept: i,
        place: None,
    }
}
