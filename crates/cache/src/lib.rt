// The cache's rules on entries by value, and what the calls answer (specification, 'The cache'). The table and the byte store are lent to the functions of
// `capi_cache`, which work in place.
#![tactic(auto)]

pub mod entries;
pub mod laws;
pub mod lookup;
pub mod records;

// How many records of a message were turned away, all entries being live, and how many passed over, their rdata being too long for a slot.
#[derive(Clone, Copy)]
pub struct Counts {
    pub turned: u32,
    pub passed: u32,
}

// What taking a message answers. A refusal carries the specification's number.
#[derive(Clone, Copy)]
pub enum Taken {
    Refused(u8),
    Accepted(Counts),
}
