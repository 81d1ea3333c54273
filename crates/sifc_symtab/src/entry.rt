// The four words of a symbol: level + 65536 * value; the name's token; tag + 8 * the name's hash; and
// two links, next + 65536 * head. The tag and the value say what it was declared as. `next` leads to the
// symbol that follows it in its chain, `head` to the first of the bucket that has its number. A link is
// a symbol's number + 1, or 0.
ghost use Rattle.std.specs.Prelude.{◌≡◌, ◌+◌, ◌*◌, ◌/◌, ◌≤◌, ◌<◌, length};
ghost use Rattle.sifc_symtab.specs.Table.{room_of, buckets_of, tag_of, value_of};
ghost use Rattle.sifc_symtab.specs.Entry.{entry_of, written, level_of, hash_in, next_of, head_of, what_in, declared_as, followed_by, headed_by};

use sifc_def::What;

// The tags of what a symbol is declared as.
const PLACEHOLDER: u32 = 0;

const FUNCTION: u32 = 1;

const LOCAL: u32 = 2;

const GLOBAL: u32 = 3;

const OTHER: u32 = 4;

// The words of one symbol.
#[derive(Clone, Copy)]
pub struct Entry {
    sizes: u32,
    token: u32,
    named: u32,
    links: u32,
}

impl Entry {
    // Those of symbol k.
    pub fn read(symbols: &[u32], k: usize) -> Entry
        requires { k * 4 + 4 ≤ length symbols.now }
        ensures { result ≡ entry_of symbols.now k }
    {
        Entry {
            sizes: symbols[4 * k],
            token: symbols[4 * k + 1],
            named: symbols[4 * k + 2],
            links: symbols[4 * k + 3],
        }
    }

    // Makes them those of symbol k.
    #[tactic(auto, unfolding(crate::specs::Entry::written))]
    pub fn write(self, symbols: &mut [u32], k: usize)
        requires { k * 4 + 4 ≤ length symbols.old }
        ensures { symbols.new ≡ written symbols.old k self }
    {
        symbols[4 * k] = self.sizes;
        symbols[4 * k + 1] = self.token;
        symbols[4 * k + 2] = self.named;
        symbols[4 * k + 3] = self.links;
    }

    // The symbol's level.
    pub fn level(self) -> usize
        ensures { result ≡ level_of self }
    {
        self.sizes as usize % 65536
    }

    // The token under whose name it was stored last.
    pub fn token(self) -> usize
        ensures { result ≡ self.token }
    {
        self.token as usize
    }

    // The hash of its name.
    pub fn hash(self) -> usize
        ensures { result ≡ hash_in self }
    {
        self.named as usize / 8
    }

    // The link to what follows it.
    pub fn next(self) -> usize
        ensures { result ≡ next_of self }
    {
        self.links as usize % 65536
    }

    // The link to the first symbol of the bucket with its number.
    pub fn head(self) -> usize
        ensures { result ≡ head_of self }
    {
        self.links as usize / 65536
    }

    // What it was declared as.
    #[tactic(auto, unfolding(crate::specs::Table::value_of))]
    pub fn what(self) -> What
        ensures is { result ≡ what_in self }
        ensures fits { value_of result < 65536 }
    {
        let value = (self.sizes / 65536) as usize;
        match self.named % 8 {
            PLACEHOLDER => What::Placeholder,
            FUNCTION => What::Function(value),
            LOCAL => What::Variable(value, false),
            GLOBAL => What::Variable(value, true),
            _ => What::Other,
        }
    }

    // The same links with another symbol: its level, its name's token and hash, and what it is declared
    // as.
    pub fn declared(self, level: usize, i: usize, what: What, hash: usize) -> Entry
        requires { (level < 65536) × (i < 4294967296) × (value_of what < 65536) × (hash < 536870912) }
        ensures { result ≡ declared_as self level i what hash }
    {
        let tag = tag_of(what) as usize;
        let value = value_of(what);
        Entry {
            sizes: (level + 65536 * value) as u32,
            token: i as u32,
            named: (tag + 8 * hash) as u32,
            ..self
        }
    }

    // The same symbol, followed by what the link leads to.
    pub fn with_next(self, link: usize) -> Entry
        requires { link < 65536 }
        ensures { result ≡ followed_by self link }
    {
        Entry {
            links: (link + 65536 * self.head()) as u32,
            ..self
        }
    }

    // The same symbol; the bucket with its number begins with what the link leads to.
    pub fn with_head(self, link: usize) -> Entry
        requires { link < 65536 }
        ensures { result ≡ headed_by self link }
    {
        Entry {
            links: (self.next() + 65536 * link) as u32,
            ..self
        }
    }
}

// The tag of what a symbol is declared as.
#[tactic(auto, unfolding(crate::specs::Table::tag_of))]
fn tag_of(what: What) -> u32
    ensures { result ≡ tag_of what }
{
    match what {
        What::Placeholder => PLACEHOLDER,
        What::Function(_) => FUNCTION,
        What::Variable(_, false) => LOCAL,
        What::Variable(_, true) => GLOBAL,
        What::Other => OTHER,
    }
}

// The value: a function's parameter count, a variable's declaration token.
#[tactic(auto, unfolding(crate::specs::Table::value_of))]
fn value_of(what: What) -> usize
    ensures { result ≡ value_of what }
{
    match what {
        What::Function(count) => count,
        What::Variable(token, _) => token,
        What::Placeholder | What::Other => 0,
    }
}

// How many symbols the words have room for.
pub fn room(symbols: &[u32]) -> usize
    ensures { result ≡ room_of symbols.now }
{
    symbols.len() / 4
}

// How many buckets there are: one for each symbol that there is room for, and at most one more than
// tokens.
pub fn buckets(words: &[u32], symbols: &[u32]) -> usize
    ensures { result ≡ buckets_of words.now symbols.now }
{
    room(symbols).min(words.len() + 1)
}
