// The refusal of a message for C: its function calls the one of the same name in `capi_reader_refusal`, with the same clauses. c/include/kurgashel.h declares it.
#![tactic(auto)]

ghost use Rattle.std.specs.Prelude.{◌≡◌};
ghost use Rattle.wire.specs.message.Layout.{message_at, read_of, refusal_of};

// The refusal of a whole message, 4, 5 or 6, and 0 where it is well formed.
#[unsafe(no_mangle)]
pub extern "C" fn kurgashel_message_refusal(message: &[u8]) -> u8
    ensures { result ≡ refusal_of (read_of (message_at message.now)) }
{
    capi_reader_refusal::kurgashel_message_refusal(message)
}
