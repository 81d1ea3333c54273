// The text call.
ghost use Rattle.std.specs.Prelude.{◌≡◌};
ghost use Rattle.sifc_tokens.specs.Tokens.{passed};
ghost use Rattle.sifc_def.specs.Read.{rooms_of, entry as entry_of, read, written, texted, text_call};
ghost use Rattle.sifc_put.specs.Post.{inp_in};
ghost use Rattle.sifc_lent.specs.Parts.{arrays_of, KeptLent};
ghost use Rattle.sifc_text.specs.Post.{Holds, cut_to, Left, Texts};

use sifc_def::Summary;
use sifc_err::Refusal;
use sifc_lent::Lent;
use sifc_put::Tree;
use sifc_read::after_entry;
use sifc_write::{clear_from, write_tree};

// The tree in the arrays, where so many tokens and nodes are used.
fn tree_of<'a>(script: &'a [u8], lent: &'a Lent<'_>, tokens: usize, nodes: usize) -> Tree<'a>
    requires { Holds (arrays_of lent.now) tokens nodes }
    ensures { inp_in result ≡ cut_to script.now (arrays_of lent.now) tokens nodes }
{
    Tree {
        script,
        offs: &lent.offs[..tokens],
        words: &lent.words[..tokens],
        heads: &lent.heads[..nodes],
        loads: &lent.loads[..nodes],
    }
}

// The text of what a reading left, which answered this. A flag that is up is refused, and so is a
// text that is longer than its buffer: then all that is lent is set to 0.
fn write_found(
    script: &[u8],
    lent: &mut Lent<'_>,
    text: &mut [u8],
    m: Summary,
) -> Result<usize, Refusal>
    requires { Left script.now (arrays_of lent.old) m }
    ensures kept { KeptLent lent.old lent.new }
    ensures texts { Texts script.now (arrays_of lent.old) m text.old (written result (arrays_of lent.new) text.new) }
{
    let tokens = m.tokens;
    let nodes = m.nodes;
    let errors = m.errors;
    if m.flag {
        lent.clear_used(tokens, nodes, errors);
        clear_from(text, 0);
        return Err(Refusal::Flagged);
    }
    match write_tree(tree_of(script, lent, tokens, nodes), text) {
        Ok(n) => Ok(n),
        Err(refusal) => {
            lent.clear_used(tokens, nodes, errors);
            Err(refusal)
        }
    }
}

// The call behind the tests of entry: the reading, and the text of what it leaves.
fn read_and_write(script: &[u8], lent: &mut Lent<'_>, text: &mut [u8]) -> Result<usize, Refusal>
    requires { entry_of script.now (arrays_of lent.old) ≡ passed }
    ensures kept { KeptLent lent.old lent.new }
    ensures texts { written result (arrays_of lent.new) text.new ≡ texted script.now (arrays_of lent.old) text.old (read (rooms_of (arrays_of lent.old)) script.now) }
{
    match after_entry(script, lent) {
        Ok(m) => write_found(script, lent, text, m),
        Err(refusal) => {
            clear_from(text, 0);
            Err(refusal)
        }
    }
}

// Reads a script into lent arrays, as `reading` does, and writes its canonical text: how many bytes;
// or one refusal, 1 to 11. After a success the arrays hold what the reading leaves in them, and every
// byte past the text is 0. Refusals 1 to 3 leave all that is lent as it was, the others set every
// element and every byte to 0.
pub fn text(script: &[u8], lent: &mut Lent<'_>, text: &mut [u8]) -> Result<usize, Refusal>
    ensures { KeptLent lent.old lent.new × (written result (arrays_of lent.new) text.new ≡ text_call script.now (arrays_of lent.old) text.old) }
{
    lent.entry_tests(script)?;
    read_and_write(script, lent, text)
}
