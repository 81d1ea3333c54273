// What the programs print of tokens, and the lists of scripts that they replay. What prints takes the
// writer, and a write that fails is the answer.
#![tactic(auto)]

mod buffers;
mod entries;

pub use buffers::Buffers;
pub use entries::{Entry, Scripts, after_newline, entry_at};
use sifc_err::Refusal;
use sifc_word::kind::VAL;
use std::io;
use std::io::Write;

// A spelling as it stands, with a point for a byte that is no sign, and the end of its line.
fn print_plain<W: Write>(out: &mut W, _kind: u32, text: &[u8]) -> io::Result<()> {
    for byte in text {
        let sign = if *byte < b' ' { b'.' } else { *byte };
        out.write_all(&[sign])?;
    }
    writeln!(out)
}

// A spelling in hexadecimal, and none of a Val.
fn print_hex<W: Write>(out: &mut W, kind: u32, text: &[u8]) -> io::Result<()> {
    if kind == VAL {
        return Ok(());
    }
    for byte in text {
        write!(out, "{byte:02x}")?;
    }
    Ok(())
}

// KIND:LINE:COLUMN:SPELLING of one token; `spell` prints the spelling.
fn print_token<W: Write, F: Fn(&mut W, u32, &[u8]) -> io::Result<()>>(
    out: &mut W,
    script: &[u8],
    fixed: &[u8],
    off: u32,
    word: u32,
    spell: F,
) -> io::Result<()>
    requires { F.IsAlwaysCallable spell }
{
    let kind = word % 64;
    let len = (word / 64) as usize;
    let at = off as usize;
    let place = sifc_tokens::place_at(script, at);
    write!(out, "{kind}:{}:{}:", place.line, place.pos)?;
    spell(out, kind, sifc_word::spelling(script, fixed, kind, at, len))
}

// `refused`, number, kind, offset.
pub fn print_refusal<W: Write>(out: &mut W, refusal: Refusal) -> io::Result<()> {
    let number = refusal.number();
    let kind = refusal.kind();
    let offset = refusal.offset();
    write!(out, "refused {number} {kind} {offset}")
}

fn print_tokens<W: Write, F: Fn(&mut W, u32, &[u8]) -> io::Result<()>>(
    out: &mut W,
    script: &[u8],
    offs: &[u32],
    words: &[u32],
    n: usize,
    between: &str,
    spell: F,
) -> io::Result<()>
    requires { F.IsAlwaysCallable spell }
{
    let fixed = sifc_word::spellings();
    for (i, (off, word)) in offs.iter().zip(words).take(n).enumerate() {
        if 0 < i {
            write!(out, "{between}")?;
        }
        print_token(out, script, &fixed, *off, *word, &spell)?;
    }
    Ok(())
}

// The tokens of a script of at most 4,096 bytes, or why there are none.
fn show<W: Write, F: Fn(&mut W, u32, &[u8]) -> io::Result<()>>(
    out: &mut W,
    script: &[u8],
    between: &str,
    spell: F,
) -> io::Result<()>
    requires { F.IsAlwaysCallable spell }
{
    let mut offs = [0u32; 4097];
    let mut words = [0u32; 4097];
    match sifc_tokens::tokens(script, &mut offs, &mut words) {
        Ok(n) => print_tokens(out, script, &offs, &words, n, between, spell),
        Err(refusal) => print_refusal(out, refusal),
    }
}

// The same, a token a line, its spelling as it stands.
pub fn show_lines<W: Write>(out: &mut W, script: &[u8]) -> io::Result<()> {
    show(out, script, "", print_plain)
}

// The same, all tokens on one line with a space between, the spelling in hexadecimal and none for a Val,
// which is how the stored answers of the Rust are written.
pub fn show_list<W: Write>(out: &mut W, script: &[u8]) -> io::Result<()> {
    show(out, script, " ", print_hex)
}
