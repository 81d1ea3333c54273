// Thin functions over a lent slice of error records.
ghost use Rattle.std.specs.Prelude.{◌≡◌, ◌<◌, ◌≤◌, length, set};
ghost use Rattle.sifc_lent.specs.Parts.{toks_in};
ghost use Rattle.sifc_record.specs.Record.{blank_from, filled_of, Fillable};

use crate::record::{ErrorWords, blank};
use sifc_err::ParseErr;

// Stores a record.
pub fn push(errors: &mut [ParseErr], at: usize, e: ParseErr)
    requires { at < length errors.old }
    ensures { errors.new ≡ set errors.old at e }
{
    errors[at] = e;
}

// Blanks every record from one on.
pub fn clear(errors: &mut [ParseErr], from: usize)
    requires { from ≤ length errors.old }
    ensures { errors.new ≡ blank_from from errors.old }
{
    errors[from..].fill(blank());
}

// The records of the first n errors, in order, from their words; then every record from one on is
// blanked. Those between stay.
pub fn fill(words: ErrorWords<'_>, n: usize, from: usize, errors: &mut [ParseErr])
    requires { Fillable words.places.now words.reasons.now n from (length errors.old) }
    ensures { errors.new ≡ filled_of (toks_in words.entry.toks) words.entry.places.now words.entry.reasons.now n from errors.old }
{
    for i in 0..n {
        let e = words.record_at(i);
        push(errors, i, e);
    }
    clear(errors, from);
}
