// Lexing: lex.rs, one turn at a time. The layers above see the promises of these functions alone.
#![tactic(auto)]

mod lex;

pub use lex::{Ended, Step, end_kind, run, step_at};
