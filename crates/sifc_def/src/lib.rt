// The types that the reading's definition (specs/) and its code share.
#![tactic(auto)]

pub mod ast;

use sifc_err::{ParseErr, ParseErrTy};

// Why a declaration fails, in terms of token indices.
pub type Why = ParseErrTy<usize>;

// An error of the walk: the index of the token at whose place it stands, and why.
#[derive(Clone, Copy)]
pub struct Err {
    pub place: usize,
    pub why: Why,
}

// What a name was declared as, as far as a reading tells symbols apart. Placeholder is what fn_decl
// stores before its block. A function holds its number of parameters, a variable its token's index and
// is_global. Other is a parameter, a loop name, a table or an array.
#[derive(Clone, Copy)]
pub enum What {
    Placeholder,
    Function(usize),
    Variable(usize, bool),
    Other,
}

// What a reading answers: how many tokens, nodes and errors, has_err, and the error that ended it before
// its script's end, if one did.
#[derive(Clone, Copy)]
pub struct Summary {
    pub tokens: usize,
    pub nodes: usize,
    pub errors: usize,
    pub flag: bool,
    pub early: Option<ParseErr>,
}
