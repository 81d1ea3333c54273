// The tokens call, its parts for the reading, and places.
#![tactic(auto)]

mod call;
mod place;

pub use call::{check_script, clear_from, clear_front, lex_tokens, tokens};
pub use place::{Place, place_at, walk_place};
