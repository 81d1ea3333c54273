// Worked cases of canonical text, as theorems about the definition, are in specs/. This crate has no code of its own.
#![tactic(auto)]

#[derive(Clone, Copy)]
pub struct Worked {
    pub done: bool,
}
