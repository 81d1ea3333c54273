// The reading call over a lent slice of error records: the call on words with the records beside it.
#![tactic(auto)]

mod call;

pub use call::{Told, read_words, reading_records};
