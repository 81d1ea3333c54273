// The canonical text of the tree that the arrays hold, at the front of its buffer.
#![tactic(auto)]

mod write;

pub use write::{clear_from, write_tree};
