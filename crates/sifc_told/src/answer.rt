// An answer in numbers.
ghost use Rattle.std.specs.Prelude.{◌≡◌};
ghost use Rattle.sifc_def.specs.Read.{read_numbers, text_numbers};
ghost use Rattle.sifc_told.specs.Hosts.{token_offset, first_value, early_numbers, early_of, read_answer, told_of, text_answer};

use sifc_def::Summary;
use sifc_err::{ParseErr, ParseErrTy, Refusal, Token};

// The error that ended a reading: line, column, the reason's number, the offset of the token that it
// carries, and the first of its values. All are 0 where none ended it.
#[derive(Clone, Copy, Default)]
pub struct Ending {
    pub line: usize,
    pub pos: usize,
    pub number: u32,
    pub offset: usize,
    pub value: usize,
}

// All of an answer; what a refusal does not say is 0.
#[derive(Clone, Copy, Default)]
pub struct Numbers {
    pub tokens: usize,
    pub nodes: usize,
    pub errors: usize,
    pub flag: u32,
    pub early: Ending,
    pub number: u32,
    pub kind: u32,
    pub offset: usize,
}

// The offset of the token that a reason carries, else 0.
fn token_offset(ty: Option<ParseErrTy<Token>>) -> usize
    ensures { result ≡ token_offset ty }
{
    match ty {
        Some(
            ParseErrTy::InvalidIdent(token)
            | ParseErrTy::InvalidTkn(token)
            | ParseErrTy::InvalidAssign(token)
            | ParseErrTy::TknMismatch(_, token)
            | ParseErrTy::UndeclSym(token)
            | ParseErrTy::UnassignedVar(token)
            | ParseErrTy::ExpectedIdent(token),
        ) => token.off,
        _ => 0,
    }
}

// The expected kind, the message's number or the first count that a reason carries, else 0.
fn first_value(ty: Option<ParseErrTy<Token>>) -> usize
    ensures { result ≡ first_value ty }
{
    match ty {
        Some(ParseErrTy::InvalidTknMsg(number) | ParseErrTy::TknMismatch(number, _)) => {
            number as usize
        }
        Some(ParseErrTy::FnParmCntExceeded(count) | ParseErrTy::WrongFnParmCnt(count, _)) => count,
        _ => 0,
    }
}

// The error that ended a reading, if one did.
fn ended(early: Option<ParseErr>) -> Ending
    ensures { early_numbers result.line result.pos result.number result.offset result.value ≡ early_of early }
{
    match early {
        None => Ending::default(),
        Some(err) => Ending {
            line: err.line,
            pos: err.pos,
            number: err.number(),
            offset: token_offset(err.ty),
            value: first_value(err.ty),
        },
    }
}

// The answer of a reading.
pub fn told(said: Result<Summary, Refusal>) -> Numbers
    ensures { read_answer result.tokens result.nodes result.errors result.flag (early_numbers result.early.line result.early.pos result.early.number result.early.offset result.early.value) result.number result.kind result.offset ≡ told_of (read_numbers said) }
{
    match said {
        Ok(summary) => Numbers {
            tokens: summary.tokens,
            nodes: summary.nodes,
            errors: summary.errors,
            flag: u32::from(summary.flag),
            early: ended(summary.early),
            ..Numbers::default()
        },
        Err(refusal) => Numbers {
            number: refusal.number(),
            kind: refusal.kind(),
            offset: refusal.offset(),
            ..Numbers::default()
        },
    }
}

// All of a text call's answer; what it does not say is 0.
#[derive(Clone, Copy, Default)]
pub struct TextNumbers {
    pub count: usize,
    pub number: u32,
    pub kind: u32,
    pub offset: usize,
}

// The answer of a text call.
pub fn told_text(said: Result<usize, Refusal>) -> TextNumbers
    ensures { text_answer result.count result.number result.kind result.offset ≡ text_numbers said }
{
    match said {
        Ok(count) => TextNumbers {
            count,
            ..TextNumbers::default()
        },
        Err(refusal) => TextNumbers {
            number: refusal.number(),
            kind: refusal.kind(),
            offset: refusal.offset(),
            ..TextNumbers::default()
        },
    }
}
