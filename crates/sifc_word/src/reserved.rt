// reserved.rs: reserved words and standard functions, fixed byte strings that are compared with a
// part of the script.
ghost use Rattle.std.specs.Prelude.{◌≡◌};
ghost use Rattle.sifc_word.specs.Base.{same as bytes_same};
ghost use Rattle.sifc_word.specs.Reserved.{name_kind, is_std_lib_fn};

use crate::kind;

// Whether two byte strings are the same, byte for byte.
#[tactic(auto, using(crate::proofs::Words::same_is))]
pub fn same(a: &[u8], b: &[u8]) -> bool
    ensures { result ≡ bytes_same a.now b.now }
{
    a == b
}

// The kind of a name: its reserved word's, or Ident.
#[tactic(auto, using(crate::proofs::Words::kind_by_length))]
pub fn name_kind(name: &[u8]) -> u32
    ensures { result ≡ name_kind name.now }
{
    match name {
        b"var" => kind::VAR,
        b"fn" => kind::FN,
        b"return" => kind::RETURN,
        b"table" => kind::TABLE,
        b"array" => kind::ARRAY,
        b"if" => kind::IF,
        b"elif" => kind::ELIF,
        b"else" => kind::ELSE,
        b"for" => kind::FOR,
        b"in" => kind::IN,
        b"true" => kind::TRUE,
        b"false" => kind::FALSE,
        _ => kind::IDENT,
    }
}

// Whether a name is that of a standard function.
#[tactic(auto, using(crate::proofs::Words::std_lib_fn_reads))]
pub fn is_std_lib_fn(name: &[u8]) -> bool
    ensures { result ≡ is_std_lib_fn name.now }
{
    matches!(name, b"print" | b"range")
}
