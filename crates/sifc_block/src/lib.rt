// What a block binds and ends with, and the errors that are listed while a walk goes on.
#![tactic(auto)]

mod block;
mod book;

pub use block::{Names, bind, bind_names, end_block};
pub use book::{Book, end_if};
