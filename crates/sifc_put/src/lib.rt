// The small steps of writing canonical text: fixed words, tokens and separators, each written before a
// place of the buffer, with a space after it.
#![tactic(auto)]

mod write;

pub use write::{Full, Tree, Writer};
