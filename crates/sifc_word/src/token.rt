// token.rs: a token's spelling, a part of the script or of the fixed spelling list.
ghost use Rattle.std.specs.Prelude.{◌≡◌, ◌+◌, ◌-◌, length};
ghost use Rattle.sifc_word.specs.Base.{part as part_of};
ghost use Rattle.sifc_word.specs.Spelling.{spellings as spelling_list, start_of, display, spelling_of};

use crate::kind;

// Where the string of each kind begins in the fixed spelling list, from 0, which is no kind, to 47.
const STARTS: [usize; 48] = [
    0, 0, 1, 2, 3, 4, 5, 6, 7, 8, 9, 10, 11, 12, 13, 14, 15, 16, 17, 18, 19, 20, 21, 23, 25, 27,
    29, 31, 33, 35, 37, 39, 39, 39, 39, 42, 44, 50, 55, 60, 62, 66, 70, 73, 75, 79, 84, 87,
];

// The fixed spelling list, for the caller to lend: the strings of Display end to end, signs, reserved
// words, std and EOF.
#[tactic(auto, unfolding(crate::specs::Spelling::spellings))]
pub fn spellings() -> [u8; 90]
    ensures { result ≡ spelling_list }
{
    *b"(){}[];=<>.,!+-*/%&|@==<=>==>!=&&||[[]]varfnreturntablearrayifelifelseforintruefalsestdEOF"
}

// The len bytes from off on, as far as they are there.
pub fn part(s: &[u8], off: usize, len: usize) -> &[u8]
    ensures { result.now ≡ part_of off len s.now }
{
    let rest = &s[off.min(s.len())..];
    &rest[..len.min(rest.len())]
}

// The spelling of a token, given its kind, its offset and its length. Ident, Str and Val are spelled
// by the script, a Str without its quotes; every other kind by the fixed list.
#[tactic(auto, using(crate::proofs::Spelled::spelled))]
pub fn spelling<'a>(
    script: &'a [u8],
    fixed: &'a [u8],
    kind: u32,
    off: usize,
    len: usize,
) -> &'a [u8]
    ensures { result.now ≡ spelling_of script.now fixed.now kind off len }
{
    match kind {
        kind::IDENT | kind::VAL => part(script, off, len),
        kind::STR => inner(script, off, len),
        _ => fixed_part(fixed, kind),
    }
}

// What stands between the quotes of a Str.
fn inner(script: &[u8], off: usize, len: usize) -> &[u8]
    ensures { result.now ≡ part_of (off + 1) (len - 2) script.now }
{
    part(script, off.saturating_add(1), len.saturating_sub(2))
}

// The string of a kind in the fixed list.
#[tactic(auto, using(crate::proofs::Spelled::placed))]
fn fixed_part(fixed: &[u8], kind: u32) -> &[u8]
    ensures { result.now ≡ part_of (start_of kind) (length (display kind)) fixed.now }
{
    match STARTS.get(kind as usize) {
        Some(start) => part(fixed, *start, display(kind).len()),
        None => part(fixed, 0, 0),
    }
}

// The string of Display for a kind; none for Ident, Str and Val, and past the last kind.
#[tactic(auto, unfolding(crate::specs::Spelling::display, crate::specs::Spelling::displays))]
fn display(kind: u32) -> &'static [u8]
    ensures { result.now ≡ display kind }
{
    match kind {
        kind::LEFT_PAREN => b"(",
        kind::RIGHT_PAREN => b")",
        kind::LEFT_BRACE => b"{",
        kind::RIGHT_BRACE => b"}",
        kind::LEFT_BRACKET => b"[",
        kind::RIGHT_BRACKET => b"]",
        kind::SEMICOLON => b";",
        kind::EQ => b"=",
        kind::LT => b"<",
        kind::GT => b">",
        kind::PERIOD => b".",
        kind::COMMA => b",",
        kind::BANG => b"!",
        kind::PLUS => b"+",
        kind::MINUS => b"-",
        kind::STAR => b"*",
        kind::SLASH => b"/",
        kind::PERCENT => b"%",
        kind::AMP => b"&",
        kind::PIPE => b"|",
        kind::AT => b"@",
        kind::EQ_EQ => b"==",
        kind::LT_EQ => b"<=",
        kind::GT_EQ => b">=",
        kind::EQ_ARROW => b"=>",
        kind::BANG_EQ => b"!=",
        kind::AMP_AMP => b"&&",
        kind::PIPE_PIPE => b"||",
        kind::DOUBLE_LEFT_BRACKET => b"[[",
        kind::DOUBLE_RIGHT_BRACKET => b"]]",
        kind::VAR => b"var",
        kind::FN => b"fn",
        kind::RETURN => b"return",
        kind::TABLE => b"table",
        kind::ARRAY => b"array",
        kind::IF => b"if",
        kind::ELIF => b"elif",
        kind::ELSE => b"else",
        kind::FOR => b"for",
        kind::IN => b"in",
        kind::TRUE => b"true",
        kind::FALSE => b"false",
        kind::STD => b"std",
        kind::EOF => b"EOF",
        _ => b"",
    }
}
