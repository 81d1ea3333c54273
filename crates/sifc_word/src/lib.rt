// Words: token.rs and reserved.rs, the fixed byte strings and a token's spelling.
#![tactic(auto)]

pub mod kind;
mod reserved;
mod token;

pub use reserved::{is_std_lib_fn, name_kind, same};
pub use token::{part, spelling, spellings};
