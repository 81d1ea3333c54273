// What the programs print of readings.
#![tactic(auto)]

ghost use Rattle.std.specs.Prelude.{◌≡◌};
ghost use Rattle.sifc_def.specs.Read.{called};
ghost use Rattle.sifc_lent.specs.Parts.{arrays_of, KeptLent};
ghost use Rattle.read_show.specs.Listing.{listed};

use sif_show::print_refusal;
use sifc_def::Summary;
use sifc_err::{ParseErr, ParseErrTy, Refusal};
use sifc_lent::Lent;
use std::io;
use std::io::Write;

// The longest script that is listed.
const MOST: usize = 4096;

// The first n words of an array on one line, with a space between.
fn print_words<W: Write>(out: &mut W, words: &[u32], n: usize) -> io::Result<()> {
    for (i, word) in words.iter().take(n).enumerate() {
        if 0 < i {
            write!(out, " ")?;
        }
        write!(out, "{word}")?;
    }
    writeln!(out)
}

// The first n errors, a line each: line, column and reason number, from an error's two words.
fn print_errors<W: Write>(
    out: &mut W,
    places: &[u32],
    reasons: &[u32],
    n: usize,
) -> io::Result<()> {
    for (place, reason) in places.iter().zip(reasons).take(n) {
        let line = *place / 65536 + 1;
        let column = *place % 65536;
        let number = *reason % 16;
        writeln!(out, "{line} {column} {number}")?;
    }
    Ok(())
}

// The counts and the flag.
fn print_counts<W: Write>(out: &mut W, summary: Summary) -> io::Result<()> {
    let tokens = summary.tokens;
    let nodes = summary.nodes;
    let errors = summary.errors;
    let flag = u32::from(summary.flag);
    writeln!(out, "{tokens} {nodes} {errors} {flag}")
}

fn print_answer<W: Write>(
    out: &mut W,
    said: Result<Summary, Refusal>,
    lent: &Lent<'_>,
) -> io::Result<()> {
    match said {
        Ok(summary) => {
            print_counts(out, summary)?;
            print_words(out, lent.heads, summary.nodes)?;
            print_words(out, lent.loads, summary.nodes)?;
            print_errors(out, lent.places, lent.reasons, summary.errors)
        }
        Err(refusal) => {
            print_refusal(out, refusal)?;
            writeln!(out)
        }
    }
}

// Reads a script of at most 4,096 bytes into the lent arrays.
fn read(script: &[u8], lent: &mut Lent<'_>) -> Result<Summary, Refusal>
    ensures kept { KeptLent lent.old lent.new }
    ensures answer { called result (arrays_of lent.new) ≡ listed script.now (arrays_of lent.old) }
{
    if MOST < script.len() {
        return Err(Refusal::LongScript);
    }
    sifc_read::reading(script, lent)
}

// Lists a script: the counts and the flag; the first words of the nodes; their second words; and for
// each error a line with its line, column and reason number. A refusal is one line. Answers what the
// reading answered, and beside it whether the writer failed.
pub fn list<W: Write>(
    out: &mut W,
    script: &[u8],
    lent: &mut Lent<'_>,
) -> (Result<Summary, Refusal>, io::Result<()>)
    ensures kept { KeptLent lent.old lent.new }
    ensures answer { called result.0 (arrays_of lent.new) ≡ listed script.now (arrays_of lent.old) }
{
    let said = read(script, lent);
    let printed = print_answer(out, said, lent);
    (said, printed)
}

// Line, column and reason number of the error that ended a reading; the offset of the token that it
// carries, else 0; and the kind that it expected, or its count.
fn print_ending<W: Write>(out: &mut W, err: ParseErr) -> io::Result<()> {
    let line = err.line;
    let column = err.pos;
    let number = err.number();
    write!(out, "{line} {column} {number}")?;
    match err.ty {
        Some(ParseErrTy::TknMismatch(kind, token)) => write!(out, " {} {kind}", token.off)?,
        Some(ParseErrTy::FnParmCntExceeded(count)) => write!(out, " 0 {count}")?,
        _ => {}
    }
    writeln!(out)
}

// What a listing leaves out: a line with the second words of the errors, whole, and a line for the
// error that ended the reading.
pub fn print_rest<W: Write>(
    out: &mut W,
    said: Result<Summary, Refusal>,
    reasons: &[u32],
) -> io::Result<()> {
    let Ok(summary) = said else {
        return Ok(());
    };
    print_words(out, reasons, summary.errors)?;
    match summary.early {
        None => writeln!(out, "none"),
        Some(err) => print_ending(out, err),
    }
}
