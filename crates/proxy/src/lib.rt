// The name and record side of a discovery proxy (RFC 8766, 5.5): a unicast question's name mapped to "local", and a record of the link mapped to one of two
// unicast domains, one for rich text and one of letters, digits and hyphens. It stands above the reader and the cache and uses their contracts alone.
#![tactic(auto)]

pub mod domains;
pub mod laws;
pub mod questions;
pub mod records;
