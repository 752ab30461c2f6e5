// The walk through a message for C: each function calls the one of the same name in `capi_reader_walk`, with the same clauses. c/include/kurgashel.h declares them.
#![tactic(auto)]

ghost use Rattle.std.specs.Prelude.{◌≡◌};
ghost use Rattle.wire.specs.message.Layout.{question_read, record_read};
ghost use Rattle.capi_reader_walk.specs.Walked.{walked_question, walked_record, fields_at};
ghost use Rattle.capi_reader_walk.specs.Parts.{address_of, address_at, srv_of, srv_at, nsec_at, string_of};
ghost use Rattle.wire.specs.nsec.Nsec.{names};
ghost use Rattle.wire.specs.rdata.Readers.{string_at};

use capi_reader_walk::{Address, Fields, Nsec, Question, Record, Srv, Text};

// The question at an offset.
#[unsafe(no_mangle)]
pub extern "C" fn kurgashel_question(message: &[u8], at: usize) -> Question
    ensures { result ≡ walked_question (question_read message.now at) }
{
    capi_reader_walk::kurgashel_question(message, at)
}

// The record at an offset. Of a message that is not refused the rdata is as its type asks.
#[unsafe(no_mangle)]
pub extern "C" fn kurgashel_record(message: &[u8], at: usize) -> Record
    ensures { result ≡ walked_record (record_read message.now at) }
{
    capi_reader_walk::kurgashel_record(message, at)
}

// What stands behind the owner of a record, which ends at an offset. The owner is not read, so that one that was read is not followed again.
#[unsafe(no_mangle)]
pub extern "C" fn kurgashel_fields(message: &[u8], end: usize) -> Fields
    ensures { result ≡ fields_at message.now end }
{
    capi_reader_walk::kurgashel_fields(message, end)
}

// The address in the rdata of a type, which lies in a part of the message.
#[unsafe(no_mangle)]
pub extern "C" fn kurgashel_address(message: &[u8], rtype: u16, at: usize, len: usize) -> Address
    ensures { result ≡ address_of (address_at message.now rtype at len) }
{
    capi_reader_walk::kurgashel_address(message, rtype, at, len)
}

// The SRV in the rdata that lies in a part of the message.
#[unsafe(no_mangle)]
pub extern "C" fn kurgashel_srv(message: &[u8], at: usize, len: usize) -> Srv
    ensures { result ≡ srv_of (srv_at message.now at len) }
{
    capi_reader_walk::kurgashel_srv(message, at, len)
}

// The NSEC of the restricted kind in the rdata that lies in a part of the message, for a record whose owner stands at an offset.
#[unsafe(no_mangle)]
pub extern "C" fn kurgashel_nsec(message: &[u8], owner: usize, at: usize, len: usize) -> Nsec
    ensures { result ≡ nsec_at message.now owner at len }
{
    capi_reader_walk::kurgashel_nsec(message, owner, at, len)
}

// Whether a window block says that its name has records of a type.
#[unsafe(no_mangle)]
pub extern "C" fn kurgashel_nsec_names(block: &[u8], rtype: u16) -> bool
    ensures { result ≡ names rtype block.now }
{
    capi_reader_walk::kurgashel_nsec_names(block, rtype)
}

// The string at a place of a TXT: none from its end on, and refusal 6 for one that runs past it.
#[unsafe(no_mangle)]
pub extern "C" fn kurgashel_txt_string(txt: &[u8], at: usize) -> Text
    ensures { result ≡ string_of (string_at txt.now at) }
{
    capi_reader_walk::kurgashel_txt_string(txt, at)
}
