// A lexing view that borrows the script, as document 01 asks for it: a struct with the script slice and an
// offset, and few thin methods of it. Each calls a plain function.
#![tactic(auto)]

mod next;
mod view;

pub use next::{Lexed, next_at};
pub use view::{Lexer, token_from};
