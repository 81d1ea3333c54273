// Error records, as document 01 asks for them ("Errors go to a lent slice of error records"): the record of
// an error's two words, and three thin functions over the slice.
#![tactic(auto)]

mod record;
mod slice;

pub use record::{ErrorWords, blank};
pub use slice::{clear, fill, push};
