// The calls' answers in numbers, as hosts in other languages see them.
#![tactic(auto)]

mod answer;

pub use answer::{Ending, Numbers, TextNumbers, told, told_text};
