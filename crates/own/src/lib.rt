// What the responder has (specification, 'Own records'): its set-up, the rules that it keeps, and the records that follow from it.
#![tactic(auto)]

pub mod changes;
pub mod records;
pub mod setups;
pub mod utf8;
