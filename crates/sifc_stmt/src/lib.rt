// Declarations and statements that hold no block: var_decl, table_decl, item_list, array_decl, ret_stmt
// and expr_stmt of parser.rs.
#![tactic(auto)]

mod decl;
mod stmt;

pub use decl::var_decl;
pub use stmt::{expr_stmt, ret_stmt};
