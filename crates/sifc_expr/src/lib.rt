// Expressions: assign_expr down to group_expr and back, with param_list, of parser.rs.
#![tactic(auto)]

mod parser;

pub use parser::expr;
