// Writes the canonical text of the script on standard input, of at most 4,096 bytes. A refusal is one
// line, as the listing program has it.
#![tactic(auto)]

use sif_show::{Buffers, print_refusal};
use sifc_err::Refusal;
use sifc_lent::Lent;
use sifc_word::part;
use std::io;
use std::io::{BufWriter, Read, Write};

// The longest script that is read.
const MOST: usize = 4096;

fn main(rt: HostRuntime) -> io::Result<()> {
    let mut script = Vec::new(rt.alloc());
    rt.stdin().take(MOST as u64 + 1).read_to_end(&mut script)?;
    let mut out = BufWriter::new(rt.alloc(), rt.stdout())?;
    answer(&mut out, script.as_slice())?;
    out.flush()
}

// The text of a script of at most 4,096 bytes.
fn text_of(script: &[u8], buffers: &mut Buffers, text: &mut [u8]) -> Result<usize, Refusal> {
    if MOST < script.len() {
        return Err(Refusal::LongScript);
    }
    let mut lent = Lent {
        offs: &mut buffers.offs,
        words: &mut buffers.words,
        heads: &mut buffers.heads,
        loads: &mut buffers.loads,
        symbols: &mut buffers.symbols,
        places: &mut buffers.places,
        reasons: &mut buffers.reasons,
    };
    sifc_text::text(script, &mut lent, text)
}

// Prints the text of a script, or its refusal.
fn answer<W: Write>(out: &mut W, script: &[u8]) -> io::Result<()> {
    let mut buffers = Buffers::new();
    let mut text = [0; 16384];
    match text_of(script, &mut buffers, &mut text) {
        Ok(n) => out.write_all(part(&text, 0, n)),
        Err(refusal) => {
            print_refusal(out, refusal)?;
            writeln!(out)
        }
    }
}
