// The console's calls on the cache, and those that hold nothing; and what all calls write.
#![tactic(auto)]

pub mod cache_calls;
pub mod output;
pub mod reader_calls;
