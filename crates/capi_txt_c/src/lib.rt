// The TXT lookup for C: its function calls the one of the same name in `capi_txt`, with the same clauses. c/include/kurgashel.h declares it.
#![tactic(auto)]

ghost use Rattle.std.specs.Prelude.{◌≡◌};
ghost use Rattle.txt.specs.Lookup.{lookup_of};
ghost use Rattle.capi_txt.specs.Numbers.{pair_of};

use capi_txt::Pair;

// Looks a key up in the TXT that was received and, when it is absent there, in the factory TXT.
#[unsafe(no_mangle)]
pub extern "C" fn kurgashel_txt_lookup<'k, 'a>(
    key: &'k [u8],
    received: &'a [u8],
    factory: &'a [u8],
) -> Pair
    ensures { result ≡ pair_of (lookup_of key.now received.now factory.now) }
{
    capi_txt::kurgashel_txt_lookup(key, received, factory)
}
