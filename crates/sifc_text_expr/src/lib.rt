// Canonical text of expressions.
#![tactic(auto)]

mod writer;

pub use writer::{expr, exprs};
