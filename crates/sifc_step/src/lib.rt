// The parser and its small steps.
#![tactic(auto)]

mod list;
mod step;
mod walk;

pub use list::param_list;
pub use step::{head_word, is_literal, is_unary, looseness, top};
pub use walk::{Limits, Parser, Stop, Target, Walked};
