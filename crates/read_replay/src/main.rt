// Lists every script of a list (sif_show's entries.rt), with what a listing leaves out after it. The
// stored output is what the Rust answers (docs/COMPARISON.md), so the two are the same where our
// readings are the Rust's.
#![tactic(auto)]

use sif_show::{Buffers, Scripts};
use sifc_lent::Lent;
use std::io;
use std::io::{BufWriter, Read, Write};

// The longest list that is read.
const MOST: u64 = 131072;

fn main(rt: HostRuntime) -> io::Result<()> {
    let mut list = Vec::new(rt.alloc());
    rt.stdin().take(MOST).read_to_end(&mut list)?;
    let mut out = BufWriter::new(rt.alloc(), rt.stdout())?;
    replay_all(&mut out, list.as_slice())?;
    out.flush()
}

// Prints the answer for one script.
fn answer<W: Write>(out: &mut W, script: &[u8]) -> io::Result<()> {
    let mut buffers = Buffers::new();
    let mut lent = Lent {
        offs: &mut buffers.offs,
        words: &mut buffers.words,
        heads: &mut buffers.heads,
        loads: &mut buffers.loads,
        symbols: &mut buffers.symbols,
        places: &mut buffers.places,
        reasons: &mut buffers.reasons,
    };
    let (said, printed) = read_show::list(out, script, &mut lent);
    printed?;
    read_show::print_rest(out, said, lent.reasons)
}

// The scripts one after the other.
fn replay_all<W: Write>(out: &mut W, list: &[u8]) -> io::Result<()> {
    for script in Scripts::new(list) {
        answer(out, script)?;
    }
    Ok(())
}
