// The kinds of a token. The lent words and the hosts hold them as numbers, and so do the parameters above,
// which any number may be handed to: each kind has a constant of its number.

// TokenTy of token.rs, numbered from 1 in its order.
#[derive(Clone, Copy)]
pub enum TokenTy {
    LeftParen = 1,
    RightParen = 2,
    LeftBrace = 3,
    RightBrace = 4,
    LeftBracket = 5,
    RightBracket = 6,
    Semicolon = 7,
    Eq = 8,
    Lt = 9,
    Gt = 10,
    Period = 11,
    Comma = 12,
    Bang = 13,
    Plus = 14,
    Minus = 15,
    Star = 16,
    Slash = 17,
    Percent = 18,
    Amp = 19,
    Pipe = 20,
    At = 21,
    EqEq = 22,
    LtEq = 23,
    GtEq = 24,
    EqArrow = 25,
    BangEq = 26,
    AmpAmp = 27,
    PipePipe = 28,
    DoubleLeftBracket = 29,
    DoubleRightBracket = 30,
    Ident = 31,
    Str = 32,
    Val = 33,
    Var = 34,
    Fn = 35,
    Return = 36,
    Table = 37,
    Array = 38,
    If = 39,
    Elif = 40,
    Else = 41,
    For = 42,
    In = 43,
    True = 44,
    False = 45,
    Std = 46,
    Eof = 47,
}

pub const LEFT_PAREN: u32 = TokenTy::LeftParen as u32;

pub const RIGHT_PAREN: u32 = TokenTy::RightParen as u32;

pub const LEFT_BRACE: u32 = TokenTy::LeftBrace as u32;

pub const RIGHT_BRACE: u32 = TokenTy::RightBrace as u32;

pub const LEFT_BRACKET: u32 = TokenTy::LeftBracket as u32;

pub const RIGHT_BRACKET: u32 = TokenTy::RightBracket as u32;

pub const SEMICOLON: u32 = TokenTy::Semicolon as u32;

pub const EQ: u32 = TokenTy::Eq as u32;

pub const LT: u32 = TokenTy::Lt as u32;

pub const GT: u32 = TokenTy::Gt as u32;

pub const PERIOD: u32 = TokenTy::Period as u32;

pub const COMMA: u32 = TokenTy::Comma as u32;

pub const BANG: u32 = TokenTy::Bang as u32;

pub const PLUS: u32 = TokenTy::Plus as u32;

pub const MINUS: u32 = TokenTy::Minus as u32;

pub const STAR: u32 = TokenTy::Star as u32;

pub const SLASH: u32 = TokenTy::Slash as u32;

pub const PERCENT: u32 = TokenTy::Percent as u32;

pub const AMP: u32 = TokenTy::Amp as u32;

pub const PIPE: u32 = TokenTy::Pipe as u32;

pub const AT: u32 = TokenTy::At as u32;

pub const EQ_EQ: u32 = TokenTy::EqEq as u32;

pub const LT_EQ: u32 = TokenTy::LtEq as u32;

pub const GT_EQ: u32 = TokenTy::GtEq as u32;

pub const EQ_ARROW: u32 = TokenTy::EqArrow as u32;

pub const BANG_EQ: u32 = TokenTy::BangEq as u32;

pub const AMP_AMP: u32 = TokenTy::AmpAmp as u32;

pub const PIPE_PIPE: u32 = TokenTy::PipePipe as u32;

pub const DOUBLE_LEFT_BRACKET: u32 = TokenTy::DoubleLeftBracket as u32;

pub const DOUBLE_RIGHT_BRACKET: u32 = TokenTy::DoubleRightBracket as u32;

pub const IDENT: u32 = TokenTy::Ident as u32;

pub const STR: u32 = TokenTy::Str as u32;

pub const VAL: u32 = TokenTy::Val as u32;

pub const VAR: u32 = TokenTy::Var as u32;

pub const FN: u32 = TokenTy::Fn as u32;

pub const RETURN: u32 = TokenTy::Return as u32;

pub const TABLE: u32 = TokenTy::Table as u32;

pub const ARRAY: u32 = TokenTy::Array as u32;

pub const IF: u32 = TokenTy::If as u32;

pub const ELIF: u32 = TokenTy::Elif as u32;

pub const ELSE: u32 = TokenTy::Else as u32;

pub const FOR: u32 = TokenTy::For as u32;

pub const IN: u32 = TokenTy::In as u32;

pub const TRUE: u32 = TokenTy::True as u32;

pub const FALSE: u32 = TokenTy::False as u32;

pub const STD: u32 = TokenTy::Std as u32;

pub const EOF: u32 = TokenTy::Eof as u32;

// No kind of the Rust's: a lexing panic, which ends a token list.
pub const LEX_PANIC: u32 = 48;
