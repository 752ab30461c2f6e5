// The refusal of a message, for C and Rust, where the places of its parts are not asked for. It stands alone, so that the compiler puts the reading of a
// message into it and keeps no place: a short message is then read in half the time. c/include/kurgashel.h declares it.
#![tactic(auto)]

ghost use Rattle.std.specs.Prelude.{◌≡◌};
ghost use Rattle.wire.specs.message.Layout.{message_at, read_of, refusal_of};

// The refusal of a whole message, 4, 5 or 6, and 0 where it is well formed.
pub fn kurgashel_message_refusal(message: &[u8]) -> u8
    ensures { result ≡ refusal_of (read_of (message_at message.now)) }
{
    match wire::message::read_message(message) {
        Ok(_) => 0,
        Err(refusal) => refusal.number(),
    }
}
