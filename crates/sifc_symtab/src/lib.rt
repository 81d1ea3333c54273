// The symbol table over lent words: symtab.rs. Four words a symbol; nothing outside this crate knows
// what stands in them.
#![tactic(auto)]

mod entry;
mod symtab;
mod token;
mod wanted;

pub use symtab::{SymTab, open, store};
pub use token::Tokens;
