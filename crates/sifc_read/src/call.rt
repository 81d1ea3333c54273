// The reading call.
ghost use Rattle.std.specs.Prelude.{◌≡◌};
ghost use Rattle.sifc_def.specs.Read.{fault_of, rooms_of, read, called, answered, reading as reading_of};
ghost use Rattle.sifc_lent.specs.Parts.{arrays_of, KeptLent, Entered};

use crate::finish::finish;
use sifc_def::Summary;
use sifc_err::{Ending, Refusal};
use sifc_lent::Lent;
use sifc_program::parse;
use sifc_step::Limits;
use sifc_tokens::lex_tokens;

// The kind of the lexing panic that ends the tokens, if one does.
fn fault_of(ending: Ending) -> u32
    ensures { result ≡ fault_of ending }
{
    match ending {
        Ending::TrueEnd | Ending::UnknownChar | Ending::UnterminatedString => 0,
        Ending::Panic(kind) => kind,
    }
}

// The call behind the tests of entry: the token list, the walk, and what it leaves. What the walk only
// reads is cut by `&mut`: the check has no rule for a `&` of one lent array beside a `&mut` of another.
pub fn after_entry(script: &[u8], lent: &mut Lent<'_>) -> Result<Summary, Refusal>
    requires { Entered script.now (arrays_of lent.old) }
    ensures kept { KeptLent lent.old lent.new }
    ensures answer { called result (arrays_of lent.new) ≡ answered script.now (arrays_of lent.old) (read (rooms_of (arrays_of lent.old)) script.now) }
{
    let lexed = lex_tokens(script, lent.offs, lent.words);
    let Ok(ended) = lexed else {
        lent.clear_all(0);
        return Err(Refusal::TokensFull);
    };
    let lim = Limits {
        errors: lent.places.len(),
        fault: fault_of(ended.ending),
    };
    let n = ended.count;
    let walked = parse(
        script,
        &mut lent.offs[..n],
        &mut lent.words[..n],
        lent.symbols,
        lent.heads,
        lent.loads,
        lent.places,
        lent.reasons,
        lim,
    );
    finish(script, lent, n, walked)
}

// Reads a script into lent arrays: how many tokens, nodes and errors, has_err and the error that
// ended the reading; or one refusal, 1 to 9. Of token i the first two arrays hold the offset and
// kind + 64 * length, of node i the next two kind + 32 * mark + 64 * children and the payload, of
// error i the last two 65536 * (line - 1) + column and reason + 16 * first + 1048576 * second of
// what the reason carries. Every element past these is 0, and so are the symbol words. Refusals 1
// to 3 leave the arrays as they were, the others set every element to 0.
pub fn reading(script: &[u8], lent: &mut Lent<'_>) -> Result<Summary, Refusal>
    ensures { KeptLent lent.old lent.new × (called result (arrays_of lent.new) ≡ reading_of script.now (arrays_of lent.old)) }
{
    lent.entry_tests(script)?;
    after_entry(script, lent)
}
