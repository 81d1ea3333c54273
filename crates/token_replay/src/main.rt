// Prints the tokens of every script of a list (sif_show's entries.rt), a line for each script. The
// stored output is what the Rust answers (docs/COMPARISON.md), so the two are the same where our
// tokens are the Rust's.
#![tactic(auto)]

use sif_show::Scripts;
use std::io;
use std::io::{BufWriter, Read, Write};

// The longest list that is read.
const MOST: u64 = 65536;

fn main(rt: HostRuntime) -> io::Result<()> {
    let mut list = Vec::new(rt.alloc());
    rt.stdin().take(MOST).read_to_end(&mut list)?;
    let mut out = BufWriter::new(rt.alloc(), rt.stdout())?;
    replay_all(&mut out, list.as_slice())?;
    out.flush()
}

// The scripts one after the other.
fn replay_all<W: Write>(out: &mut W, list: &[u8]) -> io::Result<()> {
    for script in Scripts::new(list) {
        sif_show::show_list(out, script)?;
        writeln!(out)?;
    }
    Ok(())
}
