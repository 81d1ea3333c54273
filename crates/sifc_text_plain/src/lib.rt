// Canonical text of declarations and statements that hold no block.
#![tactic(auto)]

mod plain;

pub use plain::{names, pair, plain_stmt};
