// An error's record out of its two words and the tokens.
ghost use Rattle.std.specs.Prelude.{◌≡◌, get_or};
ghost use Rattle.sifc_lent.specs.Parts.{toks_in};
ghost use Rattle.sifc_record.specs.Record.{blank_err, invalid_tkn, why_of, record_of, Readable};

use sifc_def::Why;
use sifc_err::ParseErr;
use sifc_lent::Toks;

// The record of no error: line 0, column 0, no reason.
pub fn blank() -> ParseErr
    ensures { result ≡ blank_err }
{
    ParseErr {
        line: 0,
        pos: 0,
        ty: None,
    }
}

// InvalidTkn carries a token, or a message, which is not 0.
fn invalid_tkn(first: usize, second: u32) -> Why
    ensures { result ≡ invalid_tkn first second }
{
    if second == 0 {
        Why::InvalidTkn(first)
    } else {
        Why::InvalidTknMsg(second)
    }
}

// Why an error stands, out of its second word: reason + 16 * first + 1048576 * second of what the reason
// carries.
fn why_of(word: u32) -> Why
    ensures { result ≡ why_of word }
{
    let first = (word / 16 % 65536) as usize;
    let second = word / 1048576;
    let number = word % 16;
    match number {
        1 => Why::InvalidIdent(first),
        2 => invalid_tkn(first, second),
        3 => Why::InvalidAssign(first),
        4 => Why::InvalidForStmt,
        5 => Why::InvalidIfStmt,
        6 => Why::TknMismatch(second, first),
        7 => Why::FnParmCntExceeded(first),
        8 => Why::WrongFnParmCnt(first, second as usize),
        9 => Why::UndeclSym(first),
        10 => Why::UnassignedVar(first),
        _ => Why::ExpectedIdent(first),
    }
}

// What the records of a reading's errors are read from: the tokens, and the two words of each error.
#[derive(Clone, Copy)]
pub struct ErrorWords<'a> {
    pub toks: Toks<'a>,
    pub places: &'a [u32],
    pub reasons: &'a [u32],
}

impl<'a> ErrorWords<'a> {
    // The record of error i.
    pub fn record_at(&self, i: usize) -> ParseErr
        requires { Readable self.now.places.now self.now.reasons.now i }
        ensures { result ≡ record_of (toks_in self.now.toks) (get_or self.now.places.now i 0) (get_or self.now.reasons.now i 0) }
    {
        let place = self.places[i];
        let why = why_of(self.reasons[i]);
        let ty = self.toks.ty_of(why);
        ParseErr {
            line: (place / 65536) as usize + 1,
            pos: (place % 65536) as usize,
            ty: Some(ty),
        }
    }
}
