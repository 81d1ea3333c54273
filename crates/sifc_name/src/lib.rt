// What an expression asks the symbol table.
#![tactic(auto)]

mod name;

pub use name::{assign_to, call_named, ident_expr};
