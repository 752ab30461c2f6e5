// The packet reader (specification, 'Reading a message'): numbers, names, rdata, and a message with its questions and records.
#![tactic(auto)]

pub mod buffer;
pub mod bytes;
pub mod case_folding;
pub mod expansion;
pub mod labels;
pub mod long_message;
pub mod message;
pub mod name_pieces;
pub mod names;
pub mod nsec;
pub mod octets;
pub mod rdata;
pub mod refusals;
pub mod runs;
