// What a call says when it does not answer: the refusals of document 01 ("Where a call says no"),
// and why a script's tokens end (lex_err.rs).
#![tactic(auto)]

mod parse_err;

ghost use Rattle.std.specs.Prelude.{◌≡◌};
ghost use Rattle.sifc_err.specs.Refusal.{number_of, kind_of, offset_of};

pub use parse_err::{Message, ParseErr, ParseErrTy};

// A token: its kind (the order of TokenTy, from 1), where its text begins in the script, and how
// many bytes the text has. 47 is Eof, 48 a lexing panic; both have length 0. The kind stays a number,
// since the lent words and the hosts hold it as one.
#[derive(Clone, Copy)]
pub struct Token {
    pub kind: u32,
    pub off: usize,
    pub len: usize,
}

// The panics of the Rust, by the numbers that hosts are told. The first two end the tokens: `//` with no
// newline after it, and a number with a point that runs to the script's end. The others are a call of what
// is no name or string, and an access to a table or an array of what is no single token.
#[derive(Clone, Copy)]
pub enum Fault {
    Comment = 1,
    Number = 2,
    Call = 3,
    TableAccess = 4,
    ArrayAccess = 5,
}

// Why the tokens of a script end. UnknownChar and UnterminatedString are the cases of LexErrTy.
// Panic holds the number of a Fault, since hosts are told it as one.
#[derive(Clone, Copy)]
pub enum Ending {
    TrueEnd,
    UnknownChar,
    UnterminatedString,
    Panic(u32),
}

// The refusals, in the order of the table. NotAscii holds the first such byte's offset,
// SourceFault the kind and the offset of the panic.
#[derive(Clone, Copy)]
pub enum Refusal {
    LongScript,
    NotAscii(usize),
    Uneven,
    TokensFull,
    SourceFault(u32, usize),
    TooDeep,
    NodesFull,
    SymbolsFull,
    ErrorsFull,
    Flagged,
    TextFull,
}

impl Refusal {
    // The table's number.
    pub fn number(self) -> u32
        ensures { result ≡ number_of self }
    {
        match self {
            Refusal::LongScript => 1,
            Refusal::NotAscii(_) => 2,
            Refusal::Uneven => 3,
            Refusal::TokensFull => 4,
            Refusal::SourceFault(_, _) => 5,
            Refusal::TooDeep => 6,
            Refusal::NodesFull => 7,
            Refusal::SymbolsFull => 8,
            Refusal::ErrorsFull => 9,
            Refusal::Flagged => 10,
            Refusal::TextFull => 11,
        }
    }

    // The kind of a SourceFault, else 0.
    pub fn kind(self) -> u32
        ensures { result ≡ kind_of self }
    {
        match self {
            Refusal::SourceFault(kind, _) => kind,
            _ => 0,
        }
    }

    // The offset of a NotAscii or a SourceFault, else 0.
    pub fn offset(self) -> usize
        ensures { result ≡ offset_of self }
    {
        match self {
            Refusal::NotAscii(offset) | Refusal::SourceFault(_, offset) => offset,
            _ => 0,
        }
    }
}
