// The name of a token: get_name of token.rs.
ghost use Rattle.std.specs.Prelude.{◌≡◌, ◌-◌, length, take, drop};
ghost use Rattle.sifc_symtab.specs.Table.{name_in, hash_of};

use sifc_word::kind::STR;
use sifc_word::part;

// A script and its tokens, whose names are parts of the script.
#[derive(Clone, Copy)]
pub struct Tokens<'a> {
    pub script: &'a [u8],
    pub offs: &'a [u32],
    pub words: &'a [u32],
}

impl<'a> Tokens<'a> {
    // The bytes of token i's name, a part of the script: a Str's without its quotes. There is no name
    // past the end of the token arrays.
    pub fn name(&self, i: usize) -> &'a [u8]
        ensures { result.now ≡ name_in self.now.script.now self.now.offs.now self.now.words.now i }
    {
        if self.offs.len() <= i {
            return part(self.script, 0, 0);
        }
        if self.words.len() <= i {
            return part(self.script, 0, 0);
        }
        let off = self.offs[i] as usize;
        let word = self.words[i];
        let len = (word / 64) as usize;
        let text = part(self.script, off, len);
        if word % 64 == STR {
            return unquoted(text);
        }
        text
    }
}

// What stands between the quotes of a Str's text.
fn unquoted(text: &[u8]) -> &[u8]
    ensures { result.now ≡ take (length text.now - 2) (drop 1 text.now) }
{
    let len = text.len();
    if len < 2 {
        return part(text, 0, 0);
    }
    part(text, 1, len - 2)
}

// The hash of a name.
pub fn hash_of(s: &[u8]) -> usize
    ensures { result ≡ hash_of s.now }
{
    let mut hash: usize = 0;
    for b in s {
        hash = (hash * 16777619 + *b as usize) % 536870912;
    }
    hash
}
