// The reading call on words: the tests of entry, lexing, the walk, and what it leaves in the arrays.
#![tactic(auto)]

mod call;
mod finish;

pub use call::{after_entry, reading};
