// The reading call on records: the covered part over words, and the call that a host uses.
ghost use Rattle.std.specs.Prelude.{◌≡◌, take};
ghost use Rattle.sifc_lent.specs.Parts.{arrays_of, KeptLent, TokensIn, toks_in};
ghost use Rattle.sifc_symtab.specs.Toks.{toks_of};
ghost use Rattle.sifc_records.specs.Records.{entry_records, recorded, reading_records};
ghost use Rattle.sifc_records.specs.Words.{told_of, kept, read_words};

use sifc_def::Summary;
use sifc_err::{ParseErr, Refusal};
use sifc_lent::Lent;
use sifc_read::after_entry;
use sifc_record::{ErrorWords, fill};

// What the call on words says to who fills the records: the answer, how many tokens and errors there are,
// and the first record to blank.
#[derive(Clone, Copy)]
pub struct Told {
    pub reading: Result<Summary, Refusal>,
    pub tokens: usize,
    pub errors: usize,
    pub from: usize,
}

// After a reading the records past its errors are blank, after a refusal behind the tests of entry all.
fn told_of(reading: Result<Summary, Refusal>) -> Told
    ensures { result ≡ told_of reading }
{
    match reading {
        Ok(m) => Told {
            reading,
            tokens: m.tokens,
            errors: m.errors,
            from: m.errors,
        },
        Err(_) => Told {
            reading,
            tokens: 0,
            errors: 0,
            from: 0,
        },
    }
}

// The tests of entry: those of the call on words, then whether there are as many records as error words.
fn entry_records(script: &[u8], lent: &Lent<'_>, records: usize) -> Result<(), Refusal>
    ensures { result ≡ entry_records script.now (arrays_of lent.now) records }
{
    lent.entry_tests(script)?;
    if lent.places.len() == records {
        return Ok(());
    }
    Err(Refusal::Uneven)
}

// The call on words, where so many records are lent beside them. A refusal of the tests of entry leaves
// every record, so the first to blank is past them.
pub fn read_words(script: &[u8], lent: &mut Lent<'_>, records: usize) -> Told
    ensures kept { KeptLent lent.old lent.new }
    ensures told { kept result (arrays_of lent.new) ≡ read_words script.now (arrays_of lent.old) records }
{
    match entry_records(script, lent, records) {
        Ok(()) => told_of(after_entry(script, lent)),
        Err(refusal) => Told {
            reading: Err(refusal),
            tokens: 0,
            errors: 0,
            from: records,
        },
    }
}

// The words of the errors, where the first n tokens are the script's.
fn error_words<'a>(lent: &'a Lent<'_>, n: usize) -> ErrorWords<'a>
    requires { TokensIn n lent.now }
    ensures toks { toks_in result.toks ≡ toks_of (take n lent.now.offs.now) (take n lent.now.words.now) }
    ensures places { result.places.now ≡ lent.now.places.now }
    ensures reasons { result.reasons.now ≡ lent.now.reasons.now }
{
    ErrorWords {
        toks: lent.toks(n),
        places: lent.places,
        reasons: lent.reasons,
    }
}

// Reads a script into lent arrays and a lent slice of error records, as many as the two error word arrays
// have elements; else refusal 3. The answer and the arrays are those of the call on words. The records of
// the errors stand in order at the front of the slice, and those past them are blank: line 0, column 0,
// no reason. Refusals 1 to 3 leave the records as they were, the others blank every one.
pub fn reading_records(
    script: &[u8],
    lent: &mut Lent<'_>,
    errors: &mut [ParseErr],
) -> Result<Summary, Refusal>
    ensures { KeptLent lent.old lent.new × (recorded result (arrays_of lent.new) errors.new ≡ reading_records script.now (arrays_of lent.old) errors.old) }
{
    let told = read_words(script, lent, errors.len());
    let words = error_words(lent, told.tokens);
    fill(words, told.errors, told.from, errors);
    told.reading
}
