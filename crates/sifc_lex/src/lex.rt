// lex.rs: from bytes to tokens.
ghost use Rattle.std.specs.Prelude.{◌≡◌, ℕ, Bool, ◌≤◌, ◌<◌, length, drop, get_or};
ghost use Rattle.sifc_word.specs.Base.{span};
ghost use Rattle.sifc_lex.specs.Lex.{white, digit, letter, singles, doubles, single_kind, double_kind, one_sign, hash_comment, slash_comment, lex_slash, lex_str, lex_num, lex_ident, lex_sign, end_kind, step};
ghost use Rattle.sifc_lex.specs.Bytes.{kind_if_any};

use sifc_err::{Ending, Fault};
use sifc_word::{kind, name_kind};

// What the next bytes are: bytes to skip, a token's kind and length, or the end, with how many bytes
// on it stands.
#[derive(Clone, Copy)]
pub enum Step {
    Skip(usize),
    Word(u32, usize),
    Stop(usize, Ending),
}

// What lexing a script into two arrays finds: how many tokens there are, why they end and at which
// offset.
#[derive(Clone, Copy)]
pub struct Ended {
    pub count: usize,
    pub ending: Ending,
    pub at: usize,
}

#[tactic(auto, using(crate::proofs::Tests::classes))]
fn is_white(b: u8) -> bool
    ensures { result ≡ white b }
{
    matches!(b, b'\t'..=b'\r' | b' ')
}

#[tactic(auto, using(crate::proofs::Tests::classes))]
fn is_digit(b: u8) -> bool
    ensures { result ≡ digit b }
{
    b.is_ascii_digit()
}

#[tactic(auto, using(crate::proofs::Tests::classes))]
fn is_letter(b: u8) -> bool
    ensures { result ≡ letter b }
{
    matches!(b, b'A'..=b'Z' | b'a'..=b'z')
}

// How many bytes at the beginning pass a test.
pub fn run<F: Fn(u8) -> bool>(s: &[u8], passes: F) -> usize
    requires callable { F.IsAlwaysCallable passes }
    ensures in_range { result ≤ length s.now }
    ensures run { (test : ℕ → Bool) → ((b : ℕ) (r : Bool) → b < 256 → F.post passes b r → r ≡ test b) → result ≡ span test s.now }
{
    for n in 0..s.len() {
        if !passes(s[n]) {
            return n;
        }
    }
    s.len()
}

// `#` to the line's end; rest is what follows it.
fn hash_comment(rest: &[u8]) -> Step
    ensures { result ≡ hash_comment rest.now }
{
    Step::Skip(1 + run(rest, |b| b != b'\n'))
}

// `//` to the line's end; rest begins with the second slash.
fn slash_comment(rest: &[u8]) -> Step
    ensures { result ≡ slash_comment rest.now }
{
    let n = run(rest, |b| b != b'\n');
    if n < rest.len() {
        return Step::Skip(1 + n);
    }
    Step::Stop(0, Ending::Panic(Fault::Comment as u32))
}

// A string; rest is what follows the opening quote.
fn lex_str(rest: &[u8]) -> Step
    ensures { result ≡ lex_str rest.now }
{
    let n = run(rest, |b| b != b'"');
    if n < rest.len() {
        return Step::Word(kind::STR, 2 + n);
    }
    Step::Stop(1 + n, Ending::UnterminatedString)
}

// A number; rest is what follows its first digit.
fn lex_num(rest: &[u8]) -> Step
    ensures { result ≡ lex_num rest.now }
{
    let whole = run(rest, is_digit);
    let [b'.', after @ ..] = &rest[whole..] else {
        return Step::Word(kind::VAL, 1 + whole);
    };
    let n = run(after, is_digit);
    if n < after.len() {
        return Step::Word(kind::VAL, 1 + whole + 1 + n);
    }
    Step::Stop(0, Ending::Panic(Fault::Number as u32))
}

// A name or a reserved word; s begins with its first letter.
fn lex_ident(s: &[u8]) -> Step
    requires { 0 < length s.now }
    ensures { result ≡ lex_ident (get_or s.now 0 0) (drop 1 s.now) }
{
    let n = 1 + run(&s[1..], |b| is_letter(b) || is_digit(b));
    Step::Word(name_kind(&s[..n]), n)
}

// The arm '/'; rest is what follows it.
fn lex_slash(rest: &[u8]) -> Step
    ensures { result ≡ lex_slash rest.now }
{
    match rest {
        [b'/', ..] => slash_comment(rest),
        _ => Step::Word(kind::SLASH, 1),
    }
}

// The kind of a sign of one byte.
#[tactic(auto, using(crate::proofs::Tests::signs))]
fn single_kind(b: u8) -> Option<u32>
    ensures { result ≡ kind_if_any (single_kind singles b) }
{
    Some(match b {
        b'(' => kind::LEFT_PAREN,
        b')' => kind::RIGHT_PAREN,
        b'{' => kind::LEFT_BRACE,
        b'}' => kind::RIGHT_BRACE,
        b'[' => kind::LEFT_BRACKET,
        b']' => kind::RIGHT_BRACKET,
        b';' => kind::SEMICOLON,
        b'=' => kind::EQ,
        b'<' => kind::LT,
        b'>' => kind::GT,
        b'.' => kind::PERIOD,
        b',' => kind::COMMA,
        b'!' => kind::BANG,
        b'+' => kind::PLUS,
        b'-' => kind::MINUS,
        b'*' => kind::STAR,
        b'%' => kind::PERCENT,
        b'&' => kind::AMP,
        b'|' => kind::PIPE,
        b'@' => kind::AT,
        _ => return None,
    })
}

// The kind of a sign of two bytes.
#[tactic(auto, using(crate::proofs::Tests::signs))]
fn double_kind(b: u8, c: u8) -> Option<u32>
    ensures { result ≡ kind_if_any (double_kind doubles b c) }
{
    Some(match (b, c) {
        (b'=', b'=') => kind::EQ_EQ,
        (b'<', b'=') => kind::LT_EQ,
        (b'>', b'=') => kind::GT_EQ,
        (b'=', b'>') => kind::EQ_ARROW,
        (b'!', b'=') => kind::BANG_EQ,
        (b'&', b'&') => kind::AMP_AMP,
        (b'|', b'|') => kind::PIPE_PIPE,
        (b'[', b'[') => kind::DOUBLE_LEFT_BRACKET,
        (b']', b']') => kind::DOUBLE_RIGHT_BRACKET,
        _ => return None,
    })
}

// A sign of one byte, or an unknown character.
fn one_sign(b: u8) -> Step
    ensures { result ≡ one_sign b }
{
    match single_kind(b) {
        Some(kind) => Step::Word(kind, 1),
        None => Step::Stop(0, Ending::UnknownChar),
    }
}

// The kind of the sign that b makes with what follows it.
fn double_at(b: u8, rest: &[u8]) -> Option<u32>
    ensures { result ≡ kind_if_any (double_kind doubles b (get_or rest.now 0 0)) }
{
    double_kind(b, *rest.first()?)
}

// A sign b; rest is what follows it.
fn lex_sign(b: u8, rest: &[u8]) -> Step
    ensures { result ≡ lex_sign b rest.now }
{
    match double_at(b, rest) {
        Some(kind) => Step::Word(kind, 2),
        None => one_sign(b),
    }
}

// One turn of lexing: what stands at the beginning of the bytes that are left.
fn next_step(left: &[u8]) -> Step
    ensures { result ≡ step left.now }
{
    match left {
        [] => Step::Stop(0, Ending::TrueEnd),
        [b'#', rest @ ..] => hash_comment(rest),
        [b'/', rest @ ..] => lex_slash(rest),
        [b'"', rest @ ..] => lex_str(rest),
        [b, ..] if is_white(*b) => Step::Skip(1),
        [b, rest @ ..] if is_digit(*b) => lex_num(rest),
        [b, ..] if is_letter(*b) => lex_ident(left),
        [b, rest @ ..] => lex_sign(*b, rest),
    }
}

// What stands at an offset of the script.
pub fn step_at(s: &[u8], at: usize) -> Step
    requires { at ≤ length s.now }
    ensures { result ≡ step (drop at s.now) }
{
    next_step(&s[at..])
}

// The kind of the token that ends a list.
#[tactic(auto, unfolding(crate::specs::Lex::end_kind))]
pub fn end_kind(e: Ending) -> u32
    ensures { result ≡ end_kind e }
{
    match e {
        Ending::Panic(_) => kind::LEX_PANIC,
        _ => kind::EOF,
    }
}
