// Prints the tokens of the script on standard input, one a line: kind, line, column, spelling. A
// script of more than 4,096 bytes is refused with 1.
#![tactic(auto)]

use sifc_err::Refusal;
use std::io;
use std::io::{BufWriter, Read, Write};

// The longest script that is listed.
const MOST: usize = 4096;

fn main(rt: HostRuntime) -> io::Result<()> {
    let mut script = Vec::new(rt.alloc());
    rt.stdin().take(MOST as u64 + 1).read_to_end(&mut script)?;
    let mut out = BufWriter::new(rt.alloc(), rt.stdout())?;
    answer(&mut out, script.as_slice())?;
    out.flush()
}

// Prints the tokens, or the refusal of a script that is too long.
fn answer<W: Write>(out: &mut W, script: &[u8]) -> io::Result<()> {
    if MOST < script.len() {
        sif_show::print_refusal(out, Refusal::LongScript)?;
        return writeln!(out);
    }
    sif_show::show_lines(out, script)
}
