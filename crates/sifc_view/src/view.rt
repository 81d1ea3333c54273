// The lexing view.
ghost use Rattle.std.specs.Prelude.{◌≡◌};
ghost use Rattle.sifc_view.specs.View.{next_at, stepped_to, stepped};

use crate::next::{Lexed, next_at};
use sifc_err::Token;

// Lexer of lex.rs: the script, and how far it is lexed.
#[derive(Clone, Copy)]
pub struct Lexer<'a> {
    pub script: &'a [u8],
    pub off: usize,
}

impl<'a> Lexer<'a> {
    // A view at the script's start.
    pub fn new(script: &'a [u8]) -> Lexer<'a>
        ensures { (result.script ≡ script.entry) × (result.off ≡ 0) }
    {
        Lexer { script, off: 0 }
    }

    // The next token; the view moves on.
    pub fn lex(&mut self) -> Token
        ensures { stepped_to result self.new ≡ stepped self.old }
    {
        let found = next_at(self.script, self.off);
        self.off = found.next;
        found.token
    }
}

// The next token of a script from an offset on, through a view. No crate here calls it: it is public, for callers that
// keep no view, and stays.
pub fn token_from(script: &[u8], off: usize) -> Lexed
    ensures { result ≡ next_at script.now off }
{
    let mut view = Lexer { script, off };
    let token = view.lex();
    Lexed {
        token,
        next: view.off,
    }
}
