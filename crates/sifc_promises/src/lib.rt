// What is promised of the public calls stands in specs/. This crate has no code of its own.
#![tactic(auto)]

#[derive(Clone, Copy)]
pub struct Promised {
    pub done: bool,
}
