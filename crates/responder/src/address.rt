// The address that a packet came from, by its bytes (specification, 'Held queries': 16 bytes; "an IPv4 address as ::ffff:a.b.c.d").
ghost use Rattle.std.specs.Prelude.{◌≡◌};
ghost use Rattle.responder.specs.address.Address.{address_of};

use claims::holds::Address;
use wire::octets::be32;

// What stands before the four bytes of an IPv4 address in the last eight of sixteen: ::ffff.
const MAPPED: u64 = 281470681743360;

// An address of 16 bytes, or of the 4 of IPv4; bytes of another number are those of no address, `::`.
// No Option: the definition has an address for every number of bytes. By if: a match on the number gave the proof no fact in its last arm.
pub fn address_of(bytes: &[u8]) -> Address
    ensures { result ≡ address_of bytes.now }
{
    if bytes.len() == 16 {
        let first = be32(bytes, 0) as u64;
        let second = be32(bytes, 4) as u64;
        let third = be32(bytes, 8) as u64;
        let fourth = be32(bytes, 12) as u64;
        Address {
            high: first * 4294967296 + second,
            low: third * 4294967296 + fourth,
        }
    } else if bytes.len() == 4 {
        Address {
            high: 0,
            low: MAPPED + be32(bytes, 0) as u64,
        }
    } else {
        Address { high: 0, low: 0 }
    }
}
