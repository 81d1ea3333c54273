// The tokens call: a script and two lent arrays, to the token count or a refusal.
ghost use Rattle.std.specs.Prelude.{◌≡◌, ◌++◌, ◌+◌, ◌*◌, ◌-◌, ◌≤◌, ◌<◌, length, take, set, replicate};
ghost use Rattle.sifc_tokens.specs.Tokens.{zeroed, lex_called, lex_call, check_of, tokens_called, answer_of, after_entry, by_ending, tokens_call};
ghost use Rattle.sifc_tokens.specs.Loaded.{Loaded, Used};
ghost use Rattle.sifc_lex.specs.Bytes.{greatest_from};

use sifc_err::{Ending, Refusal};
use sifc_lex::{Ended, Step, end_kind, run, step_at};

// Sets every element of a part to 0. `fill` writes the last of them by itself, which is slower and which the test that
// no byte is cleared twice counts as one too few.
#[tactic(auto, unfolding(crate::specs::Tokens::zeroed))]
fn clear_part(part: &mut [u32])
    ensures { part.new ≡ zeroed part.old }
{
    for x in part.iter_mut() {
        *x = 0;
    }
}

// Sets the elements from n on to 0.
#[tactic(auto, unfolding(crate::specs::Tokens::zeroed))]
pub fn clear_from(a: &mut [u32], n: usize)
    requires { n ≤ length a.old }
    ensures { a.new ≡ take n a.old ++ replicate (length a.old - n) 0 }
{
    clear_part(&mut a[n..]);
}

// Sets every element to 0, where those from n on are 0 already: so none is written twice.
#[tactic(auto, unfolding(crate::specs::Tokens::zeroed))]
pub fn clear_front(a: &mut [u32], n: usize)
    requires { Used n a.old }
    ensures { a.new ≡ zeroed a.old }
{
    clear_part(&mut a[..n]);
}

// Stores the two words of a token.
fn put(offs: &mut [u32], words: &mut [u32], n: usize, kind: u32, off: usize, len: usize)
    requires n_in_bounds { (n < length offs.old) × (n < length words.old) }
    requires kind_bound { (kind < 64) × (off < 65536) × (len < 65536) }
    ensures offs_after { offs.new ≡ set offs.old n off }
    ensures words_after { words.new ≡ set words.old n (kind + 64 * len) }
{
    offs[n] = off as u32;
    words[n] = kind + 64 * (len as u32);
}

// Every token of the script into the arrays, as far as they hold them.
fn lex_all(script: &[u8], offs: &mut [u32], words: &mut [u32]) -> Result<Ended, Refusal>
    requires { (length script.now < 65536) × (length offs.old ≡ length words.old) }
    ensures { Loaded script.now offs.old words.old result offs.new words.new }
{
    let mut at: usize = 0;
    let mut n: usize = 0;
    loop {
        let st = step_at(script, at);
        match st {
            Step::Skip(k) => {
                at += k;
            }
            Step::Word(kind, len) => {
                if offs.len() <= n {
                    return Err(Refusal::TokensFull);
                }
                put(offs, words, n, kind, at, len);
                n += 1;
                at += len;
            }
            Step::Stop(k, ending) => {
                if n < offs.len() {
                    put(offs, words, n, end_kind(ending), at + k, 0);
                    return Ok(Ended {
                        count: n + 1,
                        ending,
                        at: at + k,
                    });
                }
                return Err(Refusal::TokensFull);
            }
        }
    }
}

// Lexing into two arrays of one length, of a script that is short enough. A reading begins with it
// too, so it keeps a lexing panic as the last token, and the caller has made the tests of entry.
pub fn lex_tokens(script: &[u8], offs: &mut [u32], words: &mut [u32]) -> Result<Ended, Refusal>
    requires { (length script.now < 65536) × (length offs.old ≡ length words.old) }
    ensures { lex_called result offs.new words.new ≡ lex_call script.now offs.old words.old }
{
    let lexed = lex_all(script, offs, words);
    let used = lexed.map_or(0, |ended| ended.count);
    clear_from(offs, used);
    clear_from(words, used);
    lexed
}

// The greatest byte of a script; 0 if it has none. The loop has no other way out, so it is compiled to
// steps of many bytes.
fn greatest(s: &[u8]) -> u8
    ensures { result ≡ greatest_from 0 s.now }
{
    let mut most: u8 = 0;
    for b in s {
        most = most.max(*b);
    }
    most
}

// The tests on a script alone, refusals 1 and 2.
pub fn check_script(script: &[u8]) -> Result<(), Refusal>
    ensures { result ≡ check_of script.now }
{
    if script.len() > 65535 {
        return Err(Refusal::LongScript);
    }
    if greatest(script) < 128 {
        return Ok(());
    }
    Err(Refusal::NotAscii(run(script, |b| b < 128)))
}

// What the ending of the tokens makes of the call, where the arrays hold them: a lexing panic is
// refusal 5.
#[tactic(auto, unfolding(crate::specs::Tokens::by_ending))]
fn by_ending(offs: &mut [u32], words: &mut [u32], ended: Ended) -> Result<usize, Refusal>
    requires { Used ended.count offs.old × Used ended.count words.old }
    ensures { tokens_called (answer_of result) offs.new words.new ≡ by_ending ended.ending ended.count ended.at offs.old words.old }
{
    match ended.ending {
        Ending::Panic(kind) => {
            clear_front(offs, ended.count);
            clear_front(words, ended.count);
            Err(Refusal::SourceFault(kind, ended.at))
        }
        _ => Ok(ended.count),
    }
}

// The tokens call behind the tests on the script.
fn after_entry(script: &[u8], offs: &mut [u32], words: &mut [u32]) -> Result<usize, Refusal>
    requires { length script.now < 65536 }
    ensures { tokens_called (answer_of result) offs.new words.new ≡ after_entry script.now offs.old words.old }
{
    if offs.len() != words.len() {
        return Err(Refusal::Uneven);
    }
    let ended = lex_tokens(script, offs, words)?;
    by_ending(offs, words, ended)
}

// The tokens of a script into two lent arrays: the token count, or one refusal, 1 to 5. Of token i
// the arrays hold the offset and kind + 64 * length; every element past the tokens is 0. Refusals 1
// to 3 leave the arrays as they were, 4 and 5 set every element to 0.
pub fn tokens(script: &[u8], offs: &mut [u32], words: &mut [u32]) -> Result<usize, Refusal>
    ensures { tokens_called (answer_of result) offs.new words.new ≡ tokens_call script.now offs.old words.old }
{
    check_script(script)?;
    after_entry(script, offs, words)
}
