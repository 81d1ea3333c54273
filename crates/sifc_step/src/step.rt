// The small steps of a reading: consume, expect and add_error of parser.rs, a node appended, and
// the tests on a token's kind.
ghost use Rattle.std.specs.Prelude.{◌≡◌, true, ◌<◌, ◌≤◌, ◌+◌, length, Ok};
ghost use Rattle.sifc_def.specs.Expr.{looseness as looseness_of, is_unary, is_literal};
ghost use Rattle.sifc_symtab.specs.Table.{Fits};
ghost use Rattle.sifc_step.specs.Abs.{here, listed_by, StandsAt, Paired};
ghost use Rattle.sifc_step.specs.Small.{Consumes, Expects, Separates, Throws, ThrowsAt, Pasts, Pushes, Literals, node_of, newest_of, newest, checked_by, Accesses, Idents, HeadWord, Puts, InitsScope, ClosesScope};

use crate::walk::{Parser, Stop, Target};
use sifc_def::ast::{self, CHILD, PRIMARY_EXPR};
use sifc_def::{What, Why};
use sifc_err::{Fault, Refusal};
use sifc_symtab::{Tokens, store};
use sifc_word::kind::{
    self, BANG, COMMA, EOF, FALSE, IDENT, LEX_PANIC, MINUS, RIGHT_PAREN, STR, TRUE, VAL,
};

// The head words of the accesses.
const TABLE_ACCESS: u32 = ast::TABLE_ACCESS + 2 * CHILD;

const ARRAY_ACCESS: u32 = ast::ARRAY_ACCESS + 2 * CHILD;

// How loosely a binary operator binds: the number of its level from below; 0 for what is none.
pub fn looseness(k: u32) -> usize
    ensures { result ≡ looseness_of k }
{
    match k {
        kind::LT | kind::GT => 4,
        kind::PLUS | kind::MINUS => 3,
        kind::STAR | kind::SLASH => 2,
        kind::PERCENT => 1,
        kind::EQ_EQ => 5,
        kind::LT_EQ | kind::GT_EQ => 4,
        kind::BANG_EQ => 5,
        kind::AMP_AMP => 6,
        kind::PIPE_PIPE => 7,
        _ => 0,
    }
}

// `!` and `-`.
pub fn is_unary(k: u32) -> bool
    ensures { result ≡ is_unary k }
{
    k == BANG || k == MINUS
}

// A string, a number, true or false.
pub fn is_literal(k: u32) -> bool
    ensures { result ≡ is_literal k }
{
    matches!(k, STR | VAL | TRUE | FALSE)
}

// The first word of a node.
pub fn head_word(kind: u32, mark: bool, kids: usize) -> u32
    requires { (kind < 32) × (kids ≤ 65536) }
    ensures { HeadWord kind mark kids result }
{
    kind + 32 * u32::from(mark) + CHILD * (kids as u32)
}

// The root of what was read last, of n nodes.
pub fn top(head: &[u32], load: &[u32], n: usize) -> Target
    requires { (length head.now ≡ length load.now) × (n ≤ length head.now) }
    ensures { node_of result ≡ newest_of n head.now load.now }
{
    if n == 0 {
        return Target { head: 0, load: 0 };
    }
    let last = n - 1;
    Target {
        head: head[last],
        load: load[last],
    }
}

impl<'a> Parser<'a> {
    // The kind of the current token.
    pub fn kind(&self) -> u32
        requires { self.now.at < length self.now.words.now }
        ensures { result ≡ here self.now }
    {
        self.words[self.at] % 64
    }

    // Passes a token. Eof is given for good, and a lexing panic is met where it would be next.
    pub fn consume(&mut self) -> Result<(), Refusal>
        requires { StandsAt self.old }
        ensures { Consumes self.old result self.new }
    {
        if self.kind() == EOF {
            return Ok(());
        }
        let next = self.at + 1;
        if self.words[next] % 64 == LEX_PANIC {
            return Err(Refusal::SourceFault(self.lim.fault, self.offs[next] as usize));
        }
        self.at = next;
        Ok(())
    }

    // Passes a token of a given kind; of another it is a failure that lists nothing.
    pub fn expect(&mut self, ty: u32) -> Result<(), Stop>
        requires { StandsAt self.old }
        ensures { Expects self.old ty result self.new }
    {
        let at = self.at;
        if self.kind() != ty {
            return Err(Stop::Failed(sifc_def::Err {
                place: at,
                why: Why::TknMismatch(ty, at),
            }));
        }
        self.consume()?;
        Ok(())
    }

    // A comma, where no `)` stands.
    pub fn separator(&mut self) -> Result<(), Stop>
        requires { StandsAt self.old }
        ensures { Separates self.old result self.new }
    {
        if self.kind() == RIGHT_PAREN {
            return Ok(());
        }
        self.expect(COMMA)
    }

    // The failure with an error at the place of a given token, which is listed: refusal 9.
    pub fn add_error_w_pos(&mut self, place: usize, why: Why) -> Stop
        requires { listed_by why ≡ 1 }
        ensures { ThrowsAt self.old place why result self.new }
    {
        if self.lim.errors <= self.errors {
            return Stop::Refused(Refusal::ErrorsFull);
        }
        self.errors += 1;
        Stop::Failed(sifc_def::Err { place, why })
    }

    // The same at the current token.
    pub fn add_error(&mut self, why: Why) -> Stop
        requires { listed_by why ≡ 1 }
        ensures { Throws self.old why result self.new }
    {
        self.add_error_w_pos(self.at, why)
    }

    // The same, and the token is passed.
    pub fn throw_past(&mut self, why: Why) -> Stop
        requires { StandsAt self.old × (listed_by why ≡ 1) }
        ensures { Pasts self.old why result self.new }
    {
        let stop = self.add_error(why);
        let Stop::Failed(_) = stop else {
            return stop;
        };
        if let Err(refusal) = self.consume() {
            return Stop::Refused(refusal);
        }
        stop
    }

    // Appends a node: refusal 7.
    pub fn push_node(&mut self, word: u32, pay: u32) -> Result<(), Refusal>
        requires { Paired self.old }
        ensures { Pushes self.old word pay result self.new }
    {
        let n = self.nodes;
        if self.head.len() <= n {
            return Err(Refusal::NodesFull);
        }
        self.head[n] = word;
        self.load[n] = pay;
        self.nodes = n + 1;
        Ok(())
    }

    // A node for the token in front, before the token is passed.
    pub fn literal(&mut self) -> Result<(), Refusal>
        requires { StandsAt self.old × Paired self.old }
        ensures { Literals self.old result self.new }
    {
        self.push_node(PRIMARY_EXPR, self.at as u32)?;
        self.consume()
    }

    // The root of what was read last.
    pub fn top(&self) -> Target
        requires { Paired self.now }
        ensures { node_of result ≡ newest self.now }
    {
        top(self.head, self.load, self.nodes)
    }

    // The end of a table or an array access whose sign is token i: the target must be a single token,
    // or it is a panic.
    fn access(&mut self, target: Target, word: u32, fault: u32, i: usize) -> Result<(), Refusal>
        requires { (i < length self.old.offs.now) × Paired self.old }
        ensures { Accesses self.old target word fault i result self.new }
    {
        if target.head % 32 != PRIMARY_EXPR {
            return Err(Refusal::SourceFault(fault, self.offs[i] as usize));
        }
        self.push_node(word, 0)
    }

    // The end of a table access, after its expression: names are checked again.
    pub fn end_dot(&mut self, target: Target, i: usize) -> Result<(), Refusal>
        requires { (i < length self.old.offs.now) × Paired self.old }
        ensures { Accesses (checked_by self.old true) target 143 4 i result self.new }
    {
        self.check = true;
        self.access(target, TABLE_ACCESS, Fault::TableAccess as u32, i)
    }

    // The end of an array access, after its `]`.
    pub fn end_index(&mut self, target: Target, i: usize) -> Result<(), Refusal>
        requires { (i < length self.old.offs.now) × Paired self.old }
        ensures { Accesses self.old target 146 5 i result self.new }
    {
        self.access(target, ARRAY_ACCESS, Fault::ArrayAccess as u32, i)
    }

    // A name, whose token it answers; or InvalidIdent and then another error, at the same token.
    pub fn match_ident(&mut self, why: Why) -> Result<usize, Stop>
        requires { StandsAt self.old × (listed_by why ≡ 2) }
        ensures { Idents self.old why result self.new }
    {
        let place = self.at;
        if self.kind() == IDENT {
            self.consume()?;
            return Ok(place);
        }
        if self.lim.errors.saturating_sub(self.errors) < 2 {
            return Err(Stop::Refused(Refusal::ErrorsFull));
        }
        self.errors += 2;
        Err(Stop::Failed(sifc_def::Err { place, why }))
    }

    // Declares token i's name at the current level, and leaves the nodes' words: refusal 8.
    pub fn store_name(&mut self, i: usize, what: What) -> Result<(), Refusal>
        requires { Fits self.old.script.now self.old.offs.now self.old.words.now self.old.symbols.now self.old.stored self.old.level i what }
        ensures { Puts self.old i what result self.new }
    {
        let tokens = Tokens {
            script: self.script,
            offs: self.offs,
            words: self.words,
        };
        self.stored = store(tokens, self.symbols, self.stored, self.level, i, what)?;
        Ok(())
    }

    // init_scope of symtab.rs.
    pub fn init_scope(&mut self)
        requires { self.old.level < 65536 }
        ensures { InitsScope self.old self.new }
    {
        self.level += 1;
    }

    // close_scope of symtab.rs, which forgets nothing.
    pub fn close_scope(&mut self)
        ensures { ClosesScope self.old self.new }
    {
        self.level = self.level.saturating_sub(1);
    }
}
