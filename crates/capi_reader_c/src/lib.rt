// The reader for C: each function calls the one of the same name in `capi_reader`, with the same clauses. c/include/kurgashel.h declares them.
#![tactic(auto)]

ghost use Rattle.std.specs.Prelude.{◌≡◌, length};
ghost use Rattle.wire.specs.names.Names.{name_at};
ghost use Rattle.capi_reader.specs.Reader.{end_of, length_of, name_of, span_within, sections_of};
ghost use Rattle.wire.specs.runs.Written.{with_name};
ghost use Rattle.wire.specs.message.Layout.{message_at, read_of};

use capi_reader::{Name, NameSpan, Sections};

// The offset past the name at an offset, and 0 where it is malformed. Nothing is copied.
#[unsafe(no_mangle)]
pub extern "C" fn kurgashel_name_end(message: &[u8], at: usize) -> usize
    ensures { result ≡ end_of (name_at message.now at) }
{
    capi_reader::kurgashel_name_end(message, at)
}

// The uncompressed length of the name at an offset, and 0 where it is malformed. Nothing is copied.
#[unsafe(no_mangle)]
pub extern "C" fn kurgashel_name_length(message: &[u8], at: usize) -> usize
    ensures { result ≡ length_of (name_at message.now at) }
{
    capi_reader::kurgashel_name_length(message, at)
}

// The name at an offset, uncompressed.
#[unsafe(no_mangle)]
pub extern "C" fn kurgashel_name(message: &[u8], at: usize) -> Name
    ensures { result ≡ name_of (name_at message.now at) }
{
    capi_reader::kurgashel_name(message, at)
}

// Writes the name at an offset, uncompressed, over the first bytes of a buffer; the others stay. Nothing is written where it is malformed or longer.
#[unsafe(no_mangle)]
pub extern "C" fn kurgashel_name_into(message: &[u8], at: usize, out: &mut [u8]) -> NameSpan
    ensures answer { result ≡ span_within (length out.old) (name_at message.now at) }
    ensures bytes { out.new ≡ with_name out.old (name_at message.now at) }
{
    capi_reader::kurgashel_name_into(message, at, out)
}

// Where the parts of a message lie, or its refusal: 4, 5 or 6.
#[unsafe(no_mangle)]
pub extern "C" fn kurgashel_message(message: &[u8]) -> Sections
    ensures { result ≡ sections_of (read_of (message_at message.now)) }
{
    capi_reader::kurgashel_message(message)
}
