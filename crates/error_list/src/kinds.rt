// The kinds of a script's tokens, by stepping a lexing view.
use sifc_view::Lexer;
use sifc_word::kind::EOF;
use std::io;
use std::io::Write;

// A script of 4,096 bytes has at most so many tokens.
const MOST: usize = 4097;

// The kinds on one line, with a space between; an Eof or a lexing panic is the last.
pub fn print_kinds<W: Write>(out: &mut W, script: &[u8]) -> io::Result<()> {
    let mut lexer = Lexer::new(script);
    for n in 0..MOST {
        let kind = lexer.lex().kind;
        if 0 < n {
            write!(out, " ")?;
        }
        write!(out, "{kind}")?;
        if EOF <= kind {
            break;
        }
    }
    writeln!(out)
}
