// store and retrieve of symtab.rs: the table is a map from (level, name). Symbols whose names have one
// hash, or hashes of one bucket, are in one chain, the highest level first.
ghost use Rattle.std.specs.Prelude.{◌≡◌, ◌+◌, ◌*◌, ◌≤◌, ◌<◌, length};
ghost use Rattle.sifc_symtab.specs.Table.{Holds, Opens, Fits, Retrieves, value_in, Stores};
ghost use Rattle.sifc_symtab.specs.Seek.{Stops, FoundAt, Among, Nearer, Finds, InsertAt, Inserts};
ghost use Rattle.sifc_symtab.specs.View.{syms, HasHash, IsTable, SoughtIn};

use crate::entry::{Entry, buckets, room};
use crate::token::{Tokens, hash_of};
use crate::wanted::Wanted;
use sifc_def::What;
use sifc_err::Refusal;
use sifc_word::same;

// A link has 16 bits: symbols from this number on are in no chain and are searched one by one.
const LINKED: usize = 65535;

// The table as it is read: the words of its symbols, how many there are, and what their names are
// parts of. That the words hold them is a `requires` and no ghost field, since `store` and the parser
// say it of words that they write.
#[derive(Clone, Copy)]
pub struct SymTab<'a> {
    pub tokens: Tokens<'a>,
    pub symbols: &'a [u32],
    pub stored: usize,
}

// Where a walk along a chain has ended: the link to the symbol there, and the link before it. 0 is the
// chain's end, and what stands before its first symbol.
#[derive(Clone, Copy)]
pub struct Spot {
    prev: usize,
    at: usize,
}

// Sets the heads of all buckets to 0: the words hold no symbol.
pub fn open(words: &[u32], symbols: &mut [u32])
    ensures { Opens words.now symbols.new }
{
    let count = buckets(words, symbols);
    for b in 0..count {
        symbols[4 * b + 3] = 0;
    }
}

impl<'a> SymTab<'a> {
    // Whether the walk along a chain ends at symbol k: its level is below low, or it is what is looked
    // for. (Inlined into the walk: the call costs 2 to 8 in a hundred of a reading.)
    #[inline]
    fn stops(&self, k: usize, wanted: &Wanted<'_>) -> bool
        requires { HasHash self.now k }
        ensures { Stops wanted.now.low wanted.now.high wanted.now.name.now (syms self.now k) result }
    {
        let Wanted {
            low,
            high,
            hash,
            name,
        } = *wanted;
        let entry = Entry::read(self.symbols, k);
        let level = entry.level();
        if level < low {
            return true;
        }
        if high < level {
            return false;
        }
        if entry.hash() != hash {
            return false;
        }
        same(self.tokens.name(entry.token()), name)
    }

    // Walks along the chain of a name's bucket, to the first symbol that is looked for. The walk ends
    // at the first one whose level is below low.
    fn seek(&self, wanted: &Wanted<'_>) -> Spot
        requires { IsTable self.now }
        ensures { SoughtIn self.now wanted.now result }
    {
        if self.stored == 0 {
            return Spot { prev: 0, at: 0 };
        }
        let bucket = wanted.hash % buckets(self.tokens.words, self.symbols);
        let mut prev: usize = 0;
        let mut at = Entry::read(self.symbols, bucket).head();
        while at != 0 && !self.stops(at - 1, wanted) {
            prev = at;
            at = Entry::read(self.symbols, at - 1).next();
        }
        Spot { prev, at }
    }

    // The number of the symbol at which the walk has ended, unless its level is below low.
    fn found_at(&self, low: usize, at: usize) -> Option<usize>
        requires { at * 4 ≤ length self.now.symbols.now }
        ensures { FoundAt self.now.symbols.now low at result }
    {
        let k = at.checked_sub(1)?;
        if Entry::read(self.symbols, k).level() < low {
            return None;
        }
        Some(k)
    }

    // Whether symbol k, which is in no chain, is a hit of a higher level than the best one so far.
    fn nearer(&self, wanted: &Wanted<'_>, best: Option<usize>, k: usize) -> bool
        requires { HasHash self.now k × Among self.now.stored best × (self.now.stored * 4 ≤ length self.now.symbols.now) }
        ensures { Nearer (syms self.now) wanted.now.low wanted.now.high wanted.now.name.now best k result }
    {
        let level = Entry::read(self.symbols, k).level();
        if level < wanted.low {
            return false;
        }
        if !self.stops(k, wanted) {
            return false;
        }
        match best {
            Some(b) => Entry::read(self.symbols, b).level() < level,
            None => true,
        }
    }

    // The number of the symbol that has the name and the highest level from low to high, where the walk
    // along the chain has ended at a link.
    fn look(&self, wanted: &Wanted<'_>, spot: Spot) -> Option<usize>
        requires { IsTable self.now × SoughtIn self.now wanted.now spot }
        ensures { Finds (syms self.now) wanted.now.low wanted.now.high wanted.now.name.now self.now.stored result }
    {
        let mut best = self.found_at(wanted.low, spot.at);
        for k in LINKED..self.stored {
            if self.nearer(wanted, best, k) {
                best = Some(k);
            }
        }
        best
    }

    // What token i's name was declared as: the entry of the highest level that is not above the current
    // one.
    pub fn retrieve(&self, level: usize, i: usize) -> Option<What>
        requires { Holds self.now.tokens.script.now self.now.tokens.offs.now self.now.tokens.words.now self.now.symbols.now self.now.stored }
        ensures found { Retrieves self.now.tokens.script.now self.now.tokens.offs.now self.now.tokens.words.now self.now.symbols.now self.now.stored level i result }
        ensures fits { value_in result < 65536 }
    {
        let name = self.tokens.name(i);
        let hash = hash_of(name);
        let wanted = Wanted {
            low: 0,
            high: level,
            hash,
            name,
        };
        let k = self.look(&wanted, self.seek(&wanted))?;
        Some(Entry::read(self.symbols, k).what())
    }
}

// Puts symbol n into the chain of its bucket, where a walk has ended.
fn insert(words: &[u32], symbols: &mut [u32], n: usize, hash: usize, spot: Spot)
    requires { InsertAt symbols.old n spot.prev spot.at }
    ensures { Inserts words.now symbols.old n hash spot.prev spot.at symbols.new }
{
    let bucket = hash % buckets(words, symbols);
    Entry::read(symbols, n).with_next(spot.at).write(symbols, n);
    if spot.prev == 0 {
        let first = Entry::read(symbols, bucket);
        first.with_head(n + 1).write(symbols, bucket);
    } else {
        let before = Entry::read(symbols, spot.prev - 1);
        before.with_next(n + 1).write(symbols, spot.prev - 1);
    }
}

// Declares token i's name at a level, and answers how many symbols there are now: an entry of that level
// and name is overwritten and needs no room.
pub fn store(
    tokens: Tokens<'_>,
    symbols: &mut [u32],
    stored: usize,
    level: usize,
    i: usize,
    what: What,
) -> Result<usize, Refusal>
    requires { Fits tokens.script.now tokens.offs.now tokens.words.now symbols.old stored level i what }
    ensures { Stores tokens.entry.script.now tokens.entry.offs.now tokens.entry.words.now symbols.old stored level i what result symbols.new }
{
    let name = tokens.name(i);
    let hash = hash_of(name);
    let wanted = Wanted {
        low: level,
        high: level,
        hash,
        name,
    };
    let table = SymTab {
        tokens,
        symbols,
        stored,
    };
    let spot = table.seek(&wanted);
    if let Some(k) = table.look(&wanted, spot) {
        let entry = Entry::read(symbols, k);
        entry.declared(level, i, what, hash).write(symbols, k);
        return Ok(stored);
    }
    if room(symbols) <= stored {
        return Err(Refusal::SymbolsFull);
    }
    let entry = Entry::read(symbols, stored);
    entry.declared(level, i, what, hash).write(symbols, stored);
    if stored < LINKED {
        insert(tokens.words, symbols, stored, hash, spot);
    }
    Ok(stored + 1)
}
