// What a reading does with what it is lent besides the walk: the tests of entry, clearing, the places of
// errors, and the error that ended it.
#![tactic(auto)]

mod clear;
mod entry;
mod error;
mod lent;
mod place;

pub use clear::{clear as clear_array, keep};
pub use entry::entry as entry_tests;
pub use error::Toks;
pub use lent::Lent;
pub use place::set_places;
