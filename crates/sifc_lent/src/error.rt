// The error that ended a reading: its token indices become tokens, and its token's place a line and a
// column.
ghost use Rattle.std.specs.Prelude.{◌≡◌, []};
ghost use Rattle.sifc_def.specs.State.{token_at};
ghost use Rattle.sifc_def.specs.Error.{ty_of, parse_err};
ghost use Rattle.sifc_def.specs.Read.{early_of};
ghost use Rattle.sifc_step.specs.Book.{last_of};
ghost use Rattle.sifc_lent.specs.Parts.{bare, toks_in};

use sifc_def::{Err, Why};
use sifc_err::{ParseErr, ParseErrTy, Token};
use sifc_tokens::place_at;
use sifc_word::kind::EOF;

// The two words of each token.
#[derive(Clone, Copy)]
pub struct Toks<'a> {
    pub offs: &'a [u32],
    pub words: &'a [u32],
}

impl<'a> Toks<'a> {
    // The token at an index; past the tokens an Eof.
    fn token_at(&self, i: usize) -> Token
        ensures { result ≡ token_at (toks_in self.now) i }
    {
        if i >= self.offs.len() || i >= self.words.len() {
            return Token {
                kind: EOF,
                off: 0,
                len: 0,
            };
        }
        let word = self.words[i];
        Token {
            kind: word % 64,
            off: self.offs[i] as usize,
            len: (word / 64) as usize,
        }
    }

    // A reason with its tokens.
    pub fn ty_of(&self, why: Why) -> ParseErrTy<Token>
        ensures { result ≡ ty_of (bare [] (toks_in self.now)) why }
    {
        let Toks { offs, words } = *self;
        why.map(|i| Toks { offs, words }.token_at(i))
    }

    // An error of the walk over the tokens of a script, as the answer has it.
    fn parse_err(&self, script: &[u8], e: Err) -> ParseErr
        ensures { result ≡ parse_err (bare script.now (toks_in self.now)) e }
    {
        let why = e.why;
        let token = self.token_at(e.place);
        let place = place_at(script, token.off);
        let ty = self.ty_of(why);
        ParseErr {
            line: place.line,
            pos: place.pos,
            ty: Some(ty),
        }
    }

    // The error that ended the reading, if one did.
    pub fn early_of(&self, script: &[u8], last: Option<sifc_def::Err>) -> Option<ParseErr>
        ensures { result ≡ early_of (bare script.now (toks_in self.now)) (last_of last) }
    {
        let e = last?;
        Some(self.parse_err(script, e))
    }
}
