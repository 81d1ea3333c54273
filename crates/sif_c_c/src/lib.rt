// The calls of the library for hosts in other languages, under the names that include/sif.h declares: each
// is sif_c's call of its name, and promises the same.
#![tactic(auto)]

ghost use Rattle.sifc_lent.specs.Parts.{arrays};
ghost use Rattle.sifc_told.specs.Hosts.{answer, early_numbers, read_answer, text_answer, TokensSaid, ReadingSaid, TextSaid};
ghost use Rattle.sifc_deepest.specs.Deepest.{deepest_answer, DeepestSaid};
ghost use Rattle.sifc_value.specs.Value.{told, ValueSaid};

// The tokens call. It returns the refusal's number, 0 for none, and sets count, kind and offset; what
// they do not say is 0.
#[unsafe(no_mangle)]
pub extern "C" fn sif_tokens(
    script: &[u8],
    offs: &mut [u32],
    words: &mut [u32],
    count: &mut u32,
    kind: &mut u32,
    offset: &mut u32,
) -> u32
    ensures { TokensSaid script.now offs.old words.old (answer count.new result kind.new offset.new) offs.new words.new }
{
    sif_c::sif_tokens(script, offs, words, count, kind, offset)
}

// The reading call. It returns the refusal's number, 0 for none, and sets every number that it is
// lent; what they do not say is 0. The numbers of the error that ended the reading are its line,
// column and reason number, the offset of the token that it carries, and the kind that it expected or
// its count.
#[unsafe(no_mangle)]
pub extern "C" fn sif_reading(
    script: &[u8],
    offs: &mut [u32],
    words: &mut [u32],
    heads: &mut [u32],
    loads: &mut [u32],
    symbols: &mut [u32],
    places: &mut [u32],
    reasons: &mut [u32],
    tokens: &mut usize,
    nodes: &mut usize,
    errors: &mut usize,
    flag: &mut u32,
    early_line: &mut usize,
    early_pos: &mut usize,
    early_number: &mut u32,
    early_offset: &mut usize,
    early_value: &mut usize,
    kind: &mut u32,
    offset: &mut usize,
) -> u32
    ensures { ReadingSaid script.now (arrays offs.old words.old heads.old loads.old symbols.old places.old reasons.old)
        (read_answer tokens.new nodes.new errors.new flag.new (early_numbers early_line.new early_pos.new early_number.new early_offset.new early_value.new) result kind.new offset.new)
        (arrays offs.new words.new heads.new loads.new symbols.new places.new reasons.new) }
{
    sif_c::sif_reading(
        script,
        offs,
        words,
        heads,
        loads,
        symbols,
        places,
        reasons,
        tokens,
        nodes,
        errors,
        flag,
        early_line,
        early_pos,
        early_number,
        early_offset,
        early_value,
        kind,
        offset,
    )
}

// The text call. It returns the refusal's number, 0 for none, and sets count, kind and offset; what
// they do not say is 0.
#[unsafe(no_mangle)]
pub extern "C" fn sif_text(
    script: &[u8],
    offs: &mut [u32],
    words: &mut [u32],
    heads: &mut [u32],
    loads: &mut [u32],
    symbols: &mut [u32],
    places: &mut [u32],
    reasons: &mut [u32],
    text: &mut [u8],
    count: &mut usize,
    kind: &mut u32,
    offset: &mut usize,
) -> u32
    ensures { TextSaid script.now (arrays offs.old words.old heads.old loads.old symbols.old places.old reasons.old) text.old
        (text_answer count.new result kind.new offset.new)
        (arrays offs.new words.new heads.new loads.new symbols.new places.new reasons.new) text.new }
{
    sif_c::sif_text(
        script, offs, words, heads, loads, symbols, places, reasons, text, count, kind, offset,
    )
}

// The deepest script of n bytes. It returns the refusal's number, 0 for none, and sets the depth; after
// a refusal that is 0.
#[unsafe(no_mangle)]
pub extern "C" fn sif_deepest(n: usize, script: &mut [u8], depth: &mut usize) -> u32
    ensures { DeepestSaid n script.old (deepest_answer depth.new result) script.new }
{
    sif_c::sif_deepest(n, script, depth)
}

// The value of a number literal. It returns the refusal's number, 0 for none, and sets the value; it
// is 0 where there is none.
#[unsafe(no_mangle)]
pub extern "C" fn sif_value(literal: &[u8], value: &mut f64) -> u32
    ensures { ValueSaid literal.now (told result value.new) }
{
    sif_c::sif_value(literal, value)
}
