// What a walk over all declarations came to, made into the answer and the arrays that the call leaves.
ghost use Rattle.std.specs.Prelude.{◌≡◌, ◌<◌, length, take};
ghost use Rattle.sifc_def.specs.Read.{called};
ghost use Rattle.sifc_lent.specs.Parts.{arrays_of, KeptLent, Fits, Settles, summary_of, settled_of, finish_of};

use sifc_def::Summary;
use sifc_err::Refusal;
use sifc_lent::{Lent, Toks, clear_array, keep, set_places};
use sifc_step::Walked;

// The answer: how many tokens, nodes and errors, has_err, and the error that ended the reading.
fn summary_of(script: &[u8], toks: Toks<'_>, w: Walked) -> Summary
    ensures { result ≡ summary_of script.now toks.entry.offs.now toks.entry.words.now w }
{
    Summary {
        tokens: toks.offs.len(),
        nodes: w.nodes,
        errors: w.errors,
        flag: w.flag,
        early: toks.early_of(script, w.last),
    }
}

// The arrays after a walk over the first n tokens: the words of the nodes and the errors, these with
// their places, and past them 0. The symbol words are all 0. The offsets are cut by `&mut`: the check has no
// rule for a `&` of one lent array beside a `&mut` of another.
fn settle(script: &[u8], lent: &mut Lent<'_>, n: usize, w: Walked)
    requires { Settles script.now (arrays_of lent.old) n w }
    ensures kept { KeptLent lent.old lent.new }
    ensures settled { arrays_of lent.new ≡ settled_of script.now (take n lent.old.offs.now) w (arrays_of lent.old) }
{
    set_places(script, &mut lent.offs[..n], lent.places, w.errors);
    keep(lent.heads, w.nodes);
    keep(lent.loads, w.nodes);
    clear_array(lent.symbols);
    keep(lent.places, w.errors);
    keep(lent.reasons, w.errors);
}

// Both, of a walk over the first n tokens. A refusal leaves every array 0.
pub fn finish(
    script: &[u8],
    lent: &mut Lent<'_>,
    n: usize,
    walked: Result<Walked, Refusal>,
) -> Result<Summary, Refusal>
    requires { Fits script.now (arrays_of lent.old) n walked }
    ensures kept { KeptLent lent.old lent.new }
    ensures answer { called result (arrays_of lent.new) ≡ finish_of script.now n walked (arrays_of lent.old) }
{
    match walked {
        Ok(w) => {
            settle(script, lent, n, w);
            Ok(summary_of(script, lent.toks(n), w))
        }
        Err(refusal) => {
            lent.clear_all(n);
            Err(refusal)
        }
    }
}
