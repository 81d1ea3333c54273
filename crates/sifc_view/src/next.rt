// The next token at an offset of a script, by turns of lexing: `lex` of lex.rs over a plain slice.
ghost use Rattle.std.specs.Prelude.{◌≡◌, length};
ghost use Rattle.sifc_view.specs.View.{next_at};

use sifc_err::Token;
use sifc_lex::{Step, end_kind, step_at};

// A token, and the offset at which lexing goes on. The last token, of kind 47 or 48, is found again there.
#[derive(Clone, Copy)]
pub struct Lexed {
    pub token: Token,
    pub next: usize,
}

// The first token at an offset or after it. An offset past the script's end stands for the end.
pub fn next_at(script: &[u8], off: usize) -> Lexed
    ensures { result ≡ next_at script.now off }
{
    let mut at = off.min(script.len());
    // A `while let` over what is skipped would lex what ends it twice, or match the step a second time.
    loop {
        match step_at(script, at) {
            Step::Skip(n) => at += n,
            Step::Word(kind, len) => {
                return Lexed {
                    token: Token { kind, off: at, len },
                    next: at + len,
                };
            }
            Step::Stop(n, ending) => {
                return Lexed {
                    token: Token {
                        kind: end_kind(ending),
                        off: at + n,
                        len: 0,
                    },
                    next: at,
                };
            }
        }
    }
}
