// The names that a declaration declares: of a variable, a table and an array, of a function's parameters and
// of a loop. Nothing here reads an expression.
#![tactic(auto)]

mod declare;
mod ident;

pub use declare::{declare_array, declare_other, declare_var};
pub use ident::{ident_node, ident_pair, param_list};
