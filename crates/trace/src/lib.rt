// A trace of one responder (specification, 'Traces'): events in bytes, and back. A record is one byte of kind and a body whose length the kind fixes, numbers
// big-endian; docs/TRACE.md lists the kinds.
#![tactic(auto)]

pub mod reading;
pub mod records;
pub mod writing;
