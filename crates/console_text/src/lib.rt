// The words, numbers and bytes of a line.
#![tactic(auto)]

pub mod fields;
pub mod hex;
pub mod lines;
pub mod scan;
