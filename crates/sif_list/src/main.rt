// The listing program: reads the script on standard input, of at most 4,096 bytes, and prints the
// counts and the flag, the first and the second words of the nodes, and the errors.
#![tactic(auto)]

use sif_show::Buffers;
use sifc_lent::Lent;
use std::io;
use std::io::{BufWriter, Read, Write};

fn main(rt: HostRuntime) -> io::Result<()> {
    let mut script = Vec::new(rt.alloc());
    let mut buffers = Buffers::new();
    let mut lent = Lent {
        offs: &mut buffers.offs,
        words: &mut buffers.words,
        heads: &mut buffers.heads,
        loads: &mut buffers.loads,
        symbols: &mut buffers.symbols,
        places: &mut buffers.places,
        reasons: &mut buffers.reasons,
    };
    rt.stdin().take(4097).read_to_end(&mut script)?;
    let mut out = BufWriter::new(rt.alloc(), rt.stdout())?;
    let (_, printed) = read_show::list(&mut out, script.as_slice(), &mut lent);
    printed?;
    out.flush()
}
