// The names that a block binds, and its end.
ghost use Rattle.std.specs.Prelude.{◌≡◌, ◌&&◌, [], ◌∷◌, eqb, ltb, length, ◌+◌, ◌%◌, ◌≤◌, ◌<◌};
ghost use Rattle.sifc_def.specs.Stmt.{bind as bind_all};
ghost use Rattle.sifc_symtab.specs.Table.{Holds};
ghost use Rattle.sifc_step.specs.Abs.{Ready, Does, Paired, lifted};
ghost use Rattle.sifc_step.specs.Small.{SameNodes};
ghost use Rattle.sifc_block.specs.Bound.{names_of, NamesFit, between, Binds, Amid, Returns, EndsBlock};

use sifc_def::What;
use sifc_def::ast::{BLOCK, RETURN_STMT};
use sifc_err::Refusal;
use sifc_step::{Parser, Stop, head_word};
use sifc_symtab::{Tokens, store};
use sifc_word::kind::RIGHT_BRACE;

// The tokens of the names that a block binds: none, the two of a loop, or the payloads of so many nodes
// from a number on, which are the parameters of a function.
#[derive(Clone, Copy)]
pub enum Names {
    Unnamed,
    Pair(usize, usize),
    Params(usize, usize),
}

// Declares the names of a block, in order.
pub fn bind(p: &mut Parser<'_>, names: Names) -> Result<(), Refusal>
    requires { Ready p.old × NamesFit names p.old.load.now }
    ensures { Does 0 (λ c. bind_all c (names_of names p.old.load.now)) p.old (lifted result) p.new × SameNodes p.old p.new }
{
    let tokens = Tokens {
        script: p.script,
        offs: p.offs,
        words: p.words,
    };
    p.stored = bind_within(tokens, p.symbols, p.stored, p.level, p.load, names)?;
    Ok(())
}

// Those of a parser, which lends its payloads as it does its symbols: they are only read.
fn bind_within(
    tokens: Tokens<'_>,
    symbols: &mut [u32],
    stored: usize,
    level: usize,
    load: &mut [u32],
    names: Names,
) -> Result<usize, Refusal>
    requires { Holds tokens.script.now tokens.offs.now tokens.words.now symbols.old stored × (level < 65536) × NamesFit names load.old }
    ensures { Binds tokens.entry.script.now tokens.entry.offs.now tokens.entry.words.now symbols.old stored level (names_of names load.old) result symbols.new × (load.new ≡ load.old) }
{
    bind_names(tokens, symbols, stored, level, load, names)
}

// The same where the symbols alone are lent to be written, and no parser: how many there are then.
pub fn bind_names(
    tokens: Tokens<'_>,
    symbols: &mut [u32],
    stored: usize,
    level: usize,
    load: &[u32],
    names: Names,
) -> Result<usize, Refusal>
    requires { Holds tokens.script.now tokens.offs.now tokens.words.now symbols.old stored × (level < 65536) × NamesFit names load.now }
    ensures { Binds tokens.entry.script.now tokens.entry.offs.now tokens.entry.words.now symbols.old stored level (names_of names load.now) result symbols.new }
{
    match names {
        Names::Unnamed => Ok(stored),
        Names::Pair(i, j) => bind_pair(tokens, symbols, stored, level, i, j),
        Names::Params(first, count) => {
            bind_params(tokens, symbols, stored, level, load, first, count)
        }
    }
}

// The two names of a loop.
fn bind_pair(
    tokens: Tokens<'_>,
    symbols: &mut [u32],
    stored: usize,
    level: usize,
    i: usize,
    j: usize,
) -> Result<usize, Refusal>
    requires { Holds tokens.script.now tokens.offs.now tokens.words.now symbols.old stored × (level < 65536) × (i < 65536) × (j < 65536) }
    ensures { Binds tokens.entry.script.now tokens.entry.offs.now tokens.entry.words.now symbols.old stored level (i ∷ j ∷ []) result symbols.new }
{
    let one = store(tokens, symbols, stored, level, i, What::Other)?;
    store(tokens, symbols, one, level, j, What::Other)
}

// The parameters of a function.
fn bind_params(
    tokens: Tokens<'_>,
    symbols: &mut [u32],
    stored: usize,
    level: usize,
    load: &[u32],
    first: usize,
    count: usize,
) -> Result<usize, Refusal>
    requires { Holds tokens.script.now tokens.offs.now tokens.words.now symbols.old stored × (level < 65536) × (first + count ≤ length load.now) }
    ensures { Binds tokens.entry.script.now tokens.entry.offs.now tokens.entry.words.now symbols.old stored level (between load.now first count) result symbols.new }
{
    let mut n = stored;
    for k in first..first + count {
        let i = load[k] as usize;
        n = store(tokens, symbols, n, level, i, What::Other)?;
    }
    Ok(n)
}

// Whether the last of n declarations is a return statement, by its first word.
fn ends_with_return(n: usize, word: u32) -> bool
    ensures { result ≡ ltb 0 n && eqb (word % 32) 6 }
{
    n != 0 && word % 32 == RETURN_STMT
}

// The inserted return statement of a function's body: how many declarations there are.
fn with_return(p: &mut Parser<'_>, body: bool, n: usize) -> Result<usize, Refusal>
    requires { Paired p.old × (n < 65536) }
    ensures { Returns p.old body n result p.new }
{
    if !body {
        return Ok(n);
    }
    let last = p.top();
    if ends_with_return(n, last.head) {
        return Ok(n);
    }
    p.push_node(RETURN_STMT, 0)?;
    Ok(n + 1)
}

// The end of a block with n declarations: the payload is the level inside. The symbols are not looked at:
// none has to be lent.
pub fn end_block(p: &mut Parser<'_>, body: bool, n: usize) -> Result<(), Stop>
    requires { Amid p.old × (n < 65536) }
    ensures { EndsBlock p.old body n result p.new }
{
    p.expect(RIGHT_BRACE)?;
    let scope = p.level;
    p.close_scope();
    let count = with_return(p, body, n)?;
    p.push_node(head_word(BLOCK, false, count), scope as u32)?;
    Ok(())
}
