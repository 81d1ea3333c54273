// Reads the script on standard input, of at most 4,096 bytes, and prints the kinds of its tokens, by
// stepping a lexing view, and its errors, out of a slice of error records.
#![tactic(auto)]

mod errors;
mod kinds;

use sif_show::{Buffers, print_refusal};
use sifc_def::Summary;
use sifc_err::Refusal;
use sifc_lent::Lent;
use std::io;
use std::io::{BufWriter, Read, Write};

// The longest script that is listed.
const MOST: usize = 4096;

// After the errors, whether has_err is up; or a refusal.
fn print_answer<W: Write>(out: &mut W, said: Result<Summary, Refusal>) -> io::Result<()> {
    match said {
        Ok(summary) => {
            let flag = if summary.flag { "up" } else { "down" };
            writeln!(out, "flag {flag}")
        }
        Err(refusal) => {
            print_refusal(out, refusal)?;
            writeln!(out)
        }
    }
}

// Prints what the program prints of a script.
fn answer<W: Write>(out: &mut W, script: &[u8]) -> io::Result<()> {
    if MOST < script.len() {
        return print_answer(out, Err(Refusal::LongScript));
    }
    let mut buffers = Buffers::new();
    let mut lent = Lent {
        offs: &mut buffers.offs,
        words: &mut buffers.words,
        heads: &mut buffers.heads,
        loads: &mut buffers.loads,
        symbols: &mut buffers.symbols,
        places: &mut buffers.places,
        reasons: &mut buffers.reasons,
    };
    kinds::print_kinds(out, script)?;
    let (said, printed) = errors::show_errors(out, script, &mut lent);
    printed?;
    print_answer(out, said)
}

fn main(rt: HostRuntime) -> io::Result<()> {
    let mut script = Vec::new(rt.alloc());
    rt.stdin().take(MOST as u64 + 1).read_to_end(&mut script)?;
    let mut out = BufWriter::new(rt.alloc(), rt.stdout())?;
    answer(&mut out, script.as_slice())?;
    out.flush()
}
