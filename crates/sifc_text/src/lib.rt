// The text call: a reading, and the canonical text of the tree that it leaves.
#![tactic(auto)]

mod call;

pub use call::text;
