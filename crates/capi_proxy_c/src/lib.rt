// The proxy for C: each function calls the one of the same name in `capi_proxy`, with the same clauses. c/include/kurgashel.h declares them.
#![tactic(auto)]

ghost use Rattle.std.specs.Prelude.{◌≡◌};
ghost use Rattle.proxy.specs.domains.Domains.{domains, setup_refusal};
ghost use Rattle.proxy.specs.questions.Questions.{question_of};
ghost use Rattle.capi_proxy.specs.Numbers.{question_numbers, record_numbers};
ghost use Rattle.wire.specs.message.Layout.{record_at};
ghost use Rattle.proxy.specs.records.Records.{item_out, record_out};
ghost use Rattle.wire.specs.message.Message.{record_of, ttl_of};
ghost use Rattle.proxy.specs.records.Held.{held_out};

use cache::entries::Entry;
use capi_proxy::{QuestionNumbers, RecordNumbers};

// The refusal of two domains, or 0.
#[unsafe(no_mangle)]
pub extern "C" fn kurgashel_proxy_refusal(rich: &[u8], ldh: &[u8]) -> u8
    ensures { result ≡ setup_refusal (domains rich.now ldh.now) }
{
    capi_proxy::kurgashel_proxy_refusal(rich, ldh)
}

// A unicast question for an uncompressed name and a type.
#[unsafe(no_mangle)]
pub extern "C" fn kurgashel_proxy_question(
    rich: &[u8],
    ldh: &[u8],
    name: &[u8],
    rtype: u16,
) -> QuestionNumbers
    ensures { result ≡ question_numbers (question_of (domains rich.now ldh.now) name.now rtype) }
{
    capi_proxy::kurgashel_proxy_question(rich, ldh, name, rtype)
}

// The record at an offset of a message.
#[unsafe(no_mangle)]
pub extern "C" fn kurgashel_proxy_record(
    rich: &[u8],
    ldh: &[u8],
    message: &[u8],
    at: usize,
) -> RecordNumbers
    ensures { result ≡ record_numbers (item_out (domains rich.now ldh.now) (record_at message.now at)) }
{
    capi_proxy::kurgashel_proxy_record(rich, ldh, message, at)
}

// A record whose names are uncompressed.
#[unsafe(no_mangle)]
pub extern "C" fn kurgashel_proxy_plain_record(
    rich: &[u8],
    ldh: &[u8],
    owner: &[u8],
    rtype: u16,
    class: u16,
    ttl: u32,
    rdata: &[u8],
) -> RecordNumbers
    ensures { result ≡ record_numbers (record_out (domains rich.now ldh.now)
        (record_of owner.now rtype class (ttl_of ttl) rdata.now)) }
{
    capi_proxy::kurgashel_proxy_plain_record(rich, ldh, owner, rtype, class, ttl, rdata)
}

// The record of an entry of the cache and the bytes of its slot.
#[unsafe(no_mangle)]
pub extern "C" fn kurgashel_proxy_cached(
    rich: &[u8],
    ldh: &[u8],
    time: u64,
    entry: Entry,
    slot: &[u8],
) -> RecordNumbers
    ensures { result ≡ record_numbers (held_out (domains rich.now ldh.now) time entry slot.now) }
{
    capi_proxy::kurgashel_proxy_cached(rich, ldh, time, entry, slot)
}
