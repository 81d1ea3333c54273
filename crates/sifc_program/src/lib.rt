// The walk over all of a script's declarations: parse of parser.rs.
#![tactic(auto)]

mod program;

pub use program::parse;
