// Numbers in a packet, most significant byte first (RFC 1035, 2.3.2). Total: a byte past the end counts as 0.
ghost use Rattle.std.specs.Prelude.{◌≡◌};
ghost use Rattle.wire.specs.octets.Octets.{byte_at, word16, word32};

// The byte at an offset.
pub fn byte(p: &[u8], at: usize) -> u8
    ensures { result ≡ byte_at p.now at }
{
    p.get(at).copied().unwrap_or(0)
}

// The 16-bit number at an offset.
pub fn be16(p: &[u8], at: usize) -> u16
    ensures { result ≡ word16 p.now at }
{
    if p.len() <= at {
        return 0;
    }
    u16::from_be_bytes([byte(p, at), byte(p, at + 1)])
}

// The 32-bit number at an offset.
pub fn be32(p: &[u8], at: usize) -> u32
    ensures { result ≡ word32 p.now at }
{
    if p.len() <= at {
        return 0;
    }
    let next = at + 1;
    if p.len() <= next {
        return byte(p, at) as u32 * 16777216;
    }
    let high = be16(p, at) as u32;
    let low = be16(p, at + 2) as u32;
    high * 65536 + low
}
