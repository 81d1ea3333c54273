// Parse errors: parse_err.rs.
ghost use Rattle.std.specs.Prelude.{◌≡◌};
ghost use Rattle.sifc_err.specs.ParseErr.{values_of, values_in, Maps};

use crate::Token;

// The fixed messages of InvalidTkn: `expected either '=' or ';`, `unexpected end of file`, `expected
// identifier`.
#[derive(Clone, Copy)]
pub enum Message {
    EqOrSemicolon = 1,
    EndOfFile = 2,
    AnIdentifier = 3,
}

// Why a declaration did not parse, or was listed all the same. Where the Rust carries a token's
// spelling, a T stands here: the token, or its index while the walk goes on. TknMismatch holds the expected
// kind first, WrongFnParmCnt the expected count. The Rust's InvalidTkn carries a spelling or a fixed
// message, so it has two cases here. Kinds and messages stay numbers, since the lent error words hold them
// so.
#[derive(Clone, Copy)]
pub enum ParseErrTy<T> {
    InvalidIdent(T),
    InvalidTkn(T),
    InvalidTknMsg(u32),
    InvalidAssign(T),
    InvalidForStmt,
    InvalidIfStmt,
    TknMismatch(u32, T),
    FnParmCntExceeded(usize),
    WrongFnParmCnt(usize, usize),
    UndeclSym(T),
    UnassignedVar(T),
    ExpectedIdent(T),
}

// A line, a column and a reason. A blank record has no reason.
#[derive(Clone, Copy)]
pub struct ParseErr {
    pub line: usize,
    pub pos: usize,
    pub ty: Option<ParseErrTy<Token>>,
}

impl<T: Copy> ParseErrTy<T> {
    // The reason's number: the order of ParseErrTy, from 1.
    pub fn number(self) -> u32
        ensures { result ≡ (values_of self).number }
    {
        match self {
            ParseErrTy::InvalidIdent(_) => 1,
            ParseErrTy::InvalidTkn(_) | ParseErrTy::InvalidTknMsg(_) => 2,
            ParseErrTy::InvalidAssign(_) => 3,
            ParseErrTy::InvalidForStmt => 4,
            ParseErrTy::InvalidIfStmt => 5,
            ParseErrTy::TknMismatch(_, _) => 6,
            ParseErrTy::FnParmCntExceeded(_) => 7,
            ParseErrTy::WrongFnParmCnt(_, _) => 8,
            ParseErrTy::UndeclSym(_) => 9,
            ParseErrTy::UnassignedVar(_) => 10,
            ParseErrTy::ExpectedIdent(_) => 11,
        }
    }

    // The same reason, with what f gives of the token that it carries.
    pub fn map<U, F: FnOnce(T) -> U>(self, f: F) -> ParseErrTy<U>
        requires { F.IsAlwaysCallable f }
        ensures { Maps (F.post f) self result }
    {
        match self {
            ParseErrTy::InvalidIdent(token) => ParseErrTy::InvalidIdent(f(token)),
            ParseErrTy::InvalidTkn(token) => ParseErrTy::InvalidTkn(f(token)),
            ParseErrTy::InvalidTknMsg(message) => ParseErrTy::InvalidTknMsg(message),
            ParseErrTy::InvalidAssign(token) => ParseErrTy::InvalidAssign(f(token)),
            ParseErrTy::InvalidForStmt => ParseErrTy::InvalidForStmt,
            ParseErrTy::InvalidIfStmt => ParseErrTy::InvalidIfStmt,
            ParseErrTy::TknMismatch(kind, token) => ParseErrTy::TknMismatch(kind, f(token)),
            ParseErrTy::FnParmCntExceeded(count) => ParseErrTy::FnParmCntExceeded(count),
            ParseErrTy::WrongFnParmCnt(want, count) => ParseErrTy::WrongFnParmCnt(want, count),
            ParseErrTy::UndeclSym(token) => ParseErrTy::UndeclSym(f(token)),
            ParseErrTy::UnassignedVar(token) => ParseErrTy::UnassignedVar(f(token)),
            ParseErrTy::ExpectedIdent(token) => ParseErrTy::ExpectedIdent(f(token)),
        }
    }
}

impl ParseErr {
    // The number of its reason; 0 where it has none.
    pub fn number(self) -> u32
        ensures { result ≡ (values_in self.ty).number }
    {
        match self.ty {
            None => 0,
            Some(ty) => ty.number(),
        }
    }
}
