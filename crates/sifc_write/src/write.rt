// The canonical text of the tree in the arrays, at the front of the buffer.
ghost use Rattle.std.specs.Prelude.{◌≡◌, ◌++◌, ◌-◌, ◌≤◌, length, take, drop, replicate};
ghost use Rattle.sifc_put.specs.Post.{SpotOf, inp_in};
ghost use Rattle.sifc_text_stmt.specs.Kinds.{program_l};
ghost use Rattle.sifc_write.specs.Front.{Fronts};

use sifc_err::Refusal;
use sifc_put::{Full, Tree, Writer};
use sifc_text_stmt::program;

// Sets every byte of a part to 0. `fill` writes the last of them by itself, so that the test that no byte is cleared twice
// counts one too few.
fn clear_part(part: &mut [u8])
    ensures { part.new ≡ replicate (length part.old) 0 }
{
    for x in part.iter_mut() {
        *x = 0;
    }
}

// Sets the bytes from n on to 0.
pub fn clear_from(text: &mut [u8], n: usize)
    requires { n ≤ length text.old }
    ensures { text.new ≡ take n text.old ++ replicate (length text.old - n) 0 }
{
    clear_part(&mut text[n..]);
}

// Moves what stands from `a` on to the front, and sets the rest to 0.
fn shift(text: &mut [u8], a: usize)
    requires { a ≤ length text.old }
    ensures { text.new ≡ drop a text.old ++ replicate a 0 }
{
    let n = text.len() - a;
    text.copy_within(a.., 0);
    clear_from(text, n);
}

// Writes the canonical text of the program that the tree holds, and answers its length. A text that is
// longer than its buffer is refused, and the buffer set to 0.
pub fn write_tree(tree: Tree<'_>, text: &mut [u8]) -> Result<usize, Refusal>
    requires { SpotOf (program_l (inp_in tree)) text.old (length tree.heads.now) (length text.old) }
    ensures { Fronts (program_l (inp_in tree.entry)) text.old (length tree.entry.heads.now) result text.new }
{
    let room = text.len();
    let mut w = Writer {
        tree,
        text,
        node: tree.heads.len(),
        at: room,
    };
    match program(&mut w) {
        Ok(()) => {
            let start = w.at;
            shift(w.text, start);
            Ok(room - start)
        }
        Err(Full) => {
            clear_from(w.text, 0);
            Err(Refusal::TextFull)
        }
    }
}
