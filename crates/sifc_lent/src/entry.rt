// The tests of entry: they look at no symbol word, and nothing has to be lent to be written.
ghost use Rattle.std.specs.Prelude.{◌≡◌, []};
ghost use Rattle.sifc_def.specs.Read.{entry as entry_of, even as even_of};
ghost use Rattle.sifc_lent.specs.Parts.{arrays};

use sifc_err::Refusal;
use sifc_tokens::check_script;

// Whether each two parallel arrays have one length.
fn even(
    offs: &[u32],
    words: &[u32],
    heads: &[u32],
    loads: &[u32],
    places: &[u32],
    reasons: &[u32],
) -> bool
    ensures { result ≡ even_of (arrays offs.now words.now heads.now loads.now [] places.now reasons.now) }
{
    if offs.len() != words.len() || heads.len() != loads.len() {
        return false;
    }
    places.len() == reasons.len()
}

// The tests of entry, refusals 1 to 3 in order.
pub fn entry(
    script: &[u8],
    offs: &[u32],
    words: &[u32],
    heads: &[u32],
    loads: &[u32],
    places: &[u32],
    reasons: &[u32],
) -> Result<(), Refusal>
    ensures { result ≡ entry_of script.now (arrays offs.now words.now heads.now loads.now [] places.now reasons.now) }
{
    check_script(script)?;
    if even(offs, words, heads, loads, places, reasons) {
        return Ok(());
    }
    Err(Refusal::Uneven)
}
