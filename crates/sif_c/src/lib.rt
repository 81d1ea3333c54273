// The calls that hosts in other languages link, on plain slices. include/sif.h declares them.
#![tactic(auto)]

mod deepest;
mod value;

ghost use Rattle.sifc_lent.specs.Parts.{arrays};
ghost use Rattle.sifc_told.specs.Hosts.{answer, early_numbers, read_answer, text_answer, TokensSaid, ReadingSaid, TextSaid};

pub use deepest::sif_deepest;
use sifc_lent::Lent;
use sifc_told::{told, told_text};
pub use value::sif_value;

// The tokens call. It returns the refusal's number, 0 for none, and sets count, kind and offset; what
// they do not say is 0.
pub fn sif_tokens(
    script: &[u8],
    offs: &mut [u32],
    words: &mut [u32],
    count: &mut u32,
    kind: &mut u32,
    offset: &mut u32,
) -> u32
    ensures { TokensSaid script.now offs.old words.old (answer count.new result kind.new offset.new) offs.new words.new }
{
    match sifc_tokens::tokens(script, offs, words) {
        Ok(n) => {
            *count = n as u32;
            *kind = 0;
            *offset = 0;
            0
        }
        Err(refusal) => {
            *count = 0;
            *kind = refusal.kind();
            *offset = refusal.offset() as u32;
            refusal.number()
        }
    }
}

// The reading call. It returns the refusal's number, 0 for none, and sets every number that it is
// lent; what they do not say is 0. The numbers of the error that ended the reading are its line,
// column and reason number, the offset of the token that it carries, and the kind that it expected or
// its count.
pub fn sif_reading(
    script: &[u8],
    offs: &mut [u32],
    words: &mut [u32],
    heads: &mut [u32],
    loads: &mut [u32],
    symbols: &mut [u32],
    places: &mut [u32],
    reasons: &mut [u32],
    tokens: &mut usize,
    nodes: &mut usize,
    errors: &mut usize,
    flag: &mut u32,
    early_line: &mut usize,
    early_pos: &mut usize,
    early_number: &mut u32,
    early_offset: &mut usize,
    early_value: &mut usize,
    kind: &mut u32,
    offset: &mut usize,
) -> u32
    ensures { ReadingSaid script.now (arrays offs.old words.old heads.old loads.old symbols.old places.old reasons.old)
        (read_answer tokens.new nodes.new errors.new flag.new (early_numbers early_line.new early_pos.new early_number.new early_offset.new early_value.new) result kind.new offset.new)
        (arrays offs.new words.new heads.new loads.new symbols.new places.new reasons.new) }
{
    let mut lent = Lent {
        offs,
        words,
        heads,
        loads,
        symbols,
        places,
        reasons,
    };
    let numbers = told(sifc_read::reading(script, &mut lent));
    let early = numbers.early;
    *tokens = numbers.tokens;
    *nodes = numbers.nodes;
    *errors = numbers.errors;
    *flag = numbers.flag;
    *early_line = early.line;
    *early_pos = early.pos;
    *early_number = early.number;
    *early_offset = early.offset;
    *early_value = early.value;
    *kind = numbers.kind;
    *offset = numbers.offset;
    numbers.number
}

// The text call. It returns the refusal's number, 0 for none, and sets count, kind and offset; what
// they do not say is 0.
pub fn sif_text(
    script: &[u8],
    offs: &mut [u32],
    words: &mut [u32],
    heads: &mut [u32],
    loads: &mut [u32],
    symbols: &mut [u32],
    places: &mut [u32],
    reasons: &mut [u32],
    text: &mut [u8],
    count: &mut usize,
    kind: &mut u32,
    offset: &mut usize,
) -> u32
    ensures { TextSaid script.now (arrays offs.old words.old heads.old loads.old symbols.old places.old reasons.old) text.old
        (text_answer count.new result kind.new offset.new)
        (arrays offs.new words.new heads.new loads.new symbols.new places.new reasons.new) text.new }
{
    let mut lent = Lent {
        offs,
        words,
        heads,
        loads,
        symbols,
        places,
        reasons,
    };
    let written = told_text(sifc_text::text(script, &mut lent, text));
    *count = written.count;
    *kind = written.kind;
    *offset = written.offset;
    written.number
}
