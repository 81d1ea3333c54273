// Canonical text of statements that hold blocks, and of a program.
#![tactic(auto)]

mod writer;

pub use writer::program;
