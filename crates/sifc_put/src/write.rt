// What is written at a leaf of the tree or between its parts.
ghost use Rattle.std.specs.Prelude.{◌≡◌, ◌∷◌, [], ◌++◌, ◌/◌, ◌≤◌, length, get_or};
ghost use Rattle.sifc_put.specs.Post.{Writes, At, InHeads, CanRead, list_l, fixed, token_l, leaf_l, comma, kind_of, children_of, height_of};
ghost use Rattle.sifc_put.specs.Items.{written_l};

use sifc_def::ast::{ARRAY_MUT_EXPR, BINARY_EXPR, TABLE_ACCESS, VAR_ASSIGN_EXPR};
use sifc_step::looseness;

// What is read and never written: a script, its tokens and its tree, as document 01 lays them out.
#[derive(Clone, Copy)]
pub struct Tree<'a> {
    pub script: &'a [u8],
    pub offs: &'a [u32],
    pub words: &'a [u32],
    pub heads: &'a [u32],
    pub loads: &'a [u32],
}

// Where the writing stands: the node before which it goes on, and the first byte that is written.
#[derive(Drop)]
pub struct Writer<'a> {
    pub tree: Tree<'a>,
    pub text: &'a mut [u8],
    pub node: usize,
    pub at: usize,
}

// There is no room for what was to be written.
#[derive(Clone, Copy)]
pub struct Full;

// Puts bytes in the place of as many. The library's `copy_from_slice` would have those who link the archive give a `memmove`.
fn place(part: &mut [u8], word: &[u8])
    requires { length part.old ≡ length word.now }
    ensures { part.new ≡ word.now }
{
    for i in 0..word.len() {
        part[i] = word[i];
    }
}

impl<'a> Writer<'a> {
    // The kind of the node before which the writing goes on.
    pub fn kind(&self) -> u32
        requires { InHeads self.now }
        ensures { result ≡ kind_of self.now }
    {
        self.tree.heads[self.node - 1] % 32
    }

    // How many children it has.
    pub fn children(&self) -> usize
        requires { InHeads self.now }
        ensures { result ≡ children_of self.now }
    {
        (self.tree.heads[self.node - 1] / 64) as usize
    }

    // How loosely it binds: 8 less the strength of document 01, and 0 for what binds tighter.
    pub fn height(&self) -> usize
        requires { CanRead self.now }
        ensures { result ≡ height_of self.now }
    {
        let kind = self.kind();
        if kind == BINARY_EXPR {
            let tok = self.tree.loads[self.node - 1] as usize;
            return looseness(self.tree.words[tok] % 64);
        }
        if kind == TABLE_ACCESS || kind == ARRAY_MUT_EXPR || kind == VAR_ASSIGN_EXPR {
            return 8;
        }
        0
    }

    // A word and a space.
    pub fn keyword(&mut self, word: &[u8]) -> Result<(), Full>
        requires { self.old.at ≤ length self.old.text.now }
        ensures { Writes (fixed (word.now ++ (32 ∷ []))) self.old result self.new }
    {
        if self.at <= word.len() {
            return Err(Full);
        }
        let space = self.at - 1;
        let start = space - word.len();
        place(&mut self.text[start..space], word);
        self.text[space] = b' ';
        self.at = start;
        Ok(())
    }

    // A sign and a space.
    pub fn put_sign(&mut self, sign: u8) -> Result<(), Full>
        requires { self.old.at ≤ length self.old.text.now }
        ensures { Writes (fixed (sign ∷ 32 ∷ [])) self.old result self.new }
    {
        self.keyword(&[sign])
    }

    // A comma, where things stand before it.
    pub fn separator(&mut self, left: usize) -> Result<(), Full>
        requires { self.old.at ≤ length self.old.text.now }
        ensures { Writes (fixed (comma left)) self.old result self.new }
    {
        if left == 0 {
            return Ok(());
        }
        self.put_sign(b',')
    }

    // The token of the node before `hi`.
    pub fn put_token(&mut self, hi: usize) -> Result<(), Full>
        requires { At (token_l hi) self.old }
        ensures { Writes (token_l hi) self.old result self.new }
    {
        let Tree {
            script,
            offs,
            words,
            loads,
            ..
        } = self.tree;
        let tok = loads[hi - 1] as usize;
        let from = offs[tok] as usize;
        let len = (words[tok] / 64) as usize;
        self.keyword(&script[from..from + len])
    }

    // The single token that is the node before which the writing goes on.
    pub fn leaf(&mut self) -> Result<(), Full>
        requires { At leaf_l self.old }
        ensures { Writes leaf_l self.old result self.new }
    {
        let hi = self.node;
        self.node = hi - 1;
        self.put_token(hi)
    }

    // So many things with commas between, each written by `item`.
    pub fn list<F: Fn(&mut Writer<'_>) -> Result<(), Full>>(
        &mut self,
        count: usize,
        item: F,
    ) -> Result<(), Full>
        requires { At (list_l (written_l (F.pre item) (F.post item) self.old) count) self.old }
        ensures { Writes (list_l (written_l (F.pre item) (F.post item) self.old) count) self.old result self.new }
    {
        for left in (0..count).rev() {
            item(self)?;
            self.separator(left)?;
        }
        Ok(())
    }
}
