// The arrays that a reading is lent.
ghost use Rattle.std.specs.Prelude.{◌≡◌, ◌≤◌, length, take};
ghost use Rattle.sifc_tokens.specs.Loaded.{Used};
ghost use Rattle.sifc_def.specs.Read.{cleared_arrays, entry as entry_of};
ghost use Rattle.sifc_lent.specs.Parts.{arrays_of, KeptLent, UsedBy, TokensIn, cleared_beside};

use crate::clear::clear;
use crate::entry::entry;
use crate::error::Toks;
use sifc_err::Refusal;
use sifc_tokens::clear_front;

// The two words of each token and of each node, the symbol words, and the two words of each error.
#[derive(Drop)]
pub struct Lent<'a> {
    pub offs: &'a mut [u32],
    pub words: &'a mut [u32],
    pub heads: &'a mut [u32],
    pub loads: &'a mut [u32],
    pub symbols: &'a mut [u32],
    pub places: &'a mut [u32],
    pub reasons: &'a mut [u32],
}

impl<'a> Lent<'a> {
    // The tests of entry, refusals 1 to 3 in order.
    pub fn entry_tests(&self, script: &[u8]) -> Result<(), Refusal>
        ensures { result ≡ entry_of script.now (arrays_of self.now) }
    {
        entry(
            script,
            self.offs,
            self.words,
            self.heads,
            self.loads,
            self.places,
            self.reasons,
        )
    }

    // The first n tokens.
    pub fn toks(&self, n: usize) -> Toks<'_>
        requires { TokensIn n self.now }
        ensures offs { result.offs.now ≡ take n self.now.offs.now }
        ensures words { result.words.now ≡ take n self.now.words.now }
    {
        Toks {
            offs: &self.offs[..n],
            words: &self.words[..n],
        }
    }

    // Sets every array to 0: what refusals 4 to 9 leave. The token arrays are 0 from n on already.
    pub fn clear_all(&mut self, n: usize)
        requires { Used n self.old.offs.now × Used n self.old.words.now }
        ensures kept { KeptLent self.old self.new }
        ensures cleared { arrays_of self.new ≡ cleared_arrays (arrays_of self.old) }
    {
        clear_front(self.offs, n);
        clear_front(self.words, n);
        clear(self.heads);
        clear(self.loads);
        clear(self.symbols);
        clear(self.places);
        clear(self.reasons);
    }

    // Sets to 0 what a reading left, where so many tokens, nodes and errors stand in the arrays and all
    // past them is 0 already. The symbol words are.
    pub fn clear_used(&mut self, tokens: usize, nodes: usize, errors: usize)
        requires { UsedBy tokens nodes errors (arrays_of self.old) }
        ensures kept { KeptLent self.old self.new }
        ensures cleared { arrays_of self.new ≡ cleared_beside (arrays_of self.old) }
    {
        clear_front(self.offs, tokens);
        clear_front(self.words, tokens);
        clear_front(self.heads, nodes);
        clear_front(self.loads, nodes);
        clear_front(self.places, errors);
        clear_front(self.reasons, errors);
    }
}
