// Declarations and statements that hold blocks.
#![tactic(auto)]

mod parser;

pub use parser::decl;
