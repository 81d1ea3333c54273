// The errors of a script, out of error records that one function owns.
ghost use Rattle.std.specs.Prelude.{◌≡◌};
ghost use Rattle.sifc_lent.specs.Parts.{arrays_of, KeptLent};
ghost use Rattle.sifc_records.specs.Records.{reading_records, blank_records, errors_of, call_of};
ghost use Rattle.sifc_def.specs.Read.{called};

use sifc_def::Summary;
use sifc_err::{ParseErr, ParseErrTy, Refusal, Token};
use sifc_lent::Lent;
use sifc_record::blank;
use sifc_records::reading_records;
use std::io;
use std::io::Write;

// Kind, offset and length of a token, with a space before each.
fn print_token<W: Write>(out: &mut W, token: Token) -> io::Result<()> {
    write!(out, " {} {} {}", token.kind, token.off, token.len)
}

// What a reason carries: a token, an expected kind before it, a message or counts.
fn print_carried<W: Write>(out: &mut W, ty: ParseErrTy<Token>) -> io::Result<()> {
    match ty {
        ParseErrTy::InvalidForStmt | ParseErrTy::InvalidIfStmt => Ok(()),
        ParseErrTy::InvalidIdent(token)
        | ParseErrTy::InvalidTkn(token)
        | ParseErrTy::InvalidAssign(token)
        | ParseErrTy::UndeclSym(token)
        | ParseErrTy::UnassignedVar(token)
        | ParseErrTy::ExpectedIdent(token) => print_token(out, token),
        ParseErrTy::InvalidTknMsg(message) => write!(out, " {message}"),
        ParseErrTy::TknMismatch(kind, token) => {
            write!(out, " {kind}")?;
            print_token(out, token)
        }
        ParseErrTy::FnParmCntExceeded(count) => write!(out, " {count}"),
        ParseErrTy::WrongFnParmCnt(expected, count) => write!(out, " {expected} {count}"),
    }
}

// Line, column and reason number of an error, and what the reason carries.
fn print_error<W: Write>(out: &mut W, e: ParseErr) -> io::Result<()> {
    let line = e.line;
    let column = e.pos;
    let number = e.number();
    write!(out, "{line} {column} {number}")?;
    if let Some(ty) = e.ty {
        print_carried(out, ty)?;
    }
    writeln!(out)
}

// How many errors a reading has listed.
fn listed(said: Result<Summary, Refusal>) -> usize
    ensures { result ≡ errors_of said }
{
    match said {
        Ok(summary) => summary.errors,
        Err(_) => 0,
    }
}

// The first n error records, a line each.
fn print_errors<W: Write>(out: &mut W, errors: &[ParseErr], n: usize) -> io::Result<()> {
    for error in errors.iter().take(n) {
        print_error(out, *error)?;
    }
    Ok(())
}

// Reads a script and prints its errors, a line each. It owns 1,024 error records and lends them. Answers
// what was read, and beside it whether the writer failed.
pub fn show_errors<W: Write>(
    out: &mut W,
    script: &[u8],
    lent: &mut Lent<'_>,
) -> (Result<Summary, Refusal>, io::Result<()>)
    ensures kept { KeptLent lent.old lent.new }
    ensures answer { called result.0 (arrays_of lent.new) ≡ call_of (reading_records script.now (arrays_of lent.old) (blank_records 1024)) }
{
    let mut errors = [blank(); 1024];
    let said = reading_records(script, lent, &mut errors);
    let printed = print_errors(out, &errors, listed(said));
    (said, printed)
}
