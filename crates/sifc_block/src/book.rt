// The errors in their lent words: an error's first word is its token's index until the walk has ended.
ghost use Rattle.std.specs.Prelude.{◌≡◌, ◌+◌, ◌≤◌, ◌<◌, length};
ghost use Rattle.sifc_def.specs.Error.{carried, carried_too};
ghost use Rattle.sifc_step.specs.Book.{reason_of};
ghost use Rattle.sifc_step.specs.Abs.{listed_by, by_message, Paired};
ghost use Rattle.sifc_block.specs.Lists.{Writes, Roomy, Elses, EndsIf, Noted, Noting};

use sifc_def::ast::IF_STMT;
use sifc_def::{Err, Why};
use sifc_err::Refusal;
use sifc_step::{Parser, Stop, head_word};

// The two words of each error, lent to be written.
#[derive(Drop)]
pub struct Book<'a> {
    pub places: &'a mut [u32],
    pub reasons: &'a mut [u32],
}

// The token or the first count that a reason carries.
fn first_carried(why: Why) -> usize
    ensures { result ≡ carried why }
{
    match why {
        Why::InvalidIdent(i)
        | Why::InvalidTkn(i)
        | Why::InvalidAssign(i)
        | Why::TknMismatch(_, i)
        | Why::FnParmCntExceeded(i)
        | Why::WrongFnParmCnt(i, _)
        | Why::UndeclSym(i)
        | Why::UnassignedVar(i)
        | Why::ExpectedIdent(i) => i,
        Why::InvalidTknMsg(_) | Why::InvalidForStmt | Why::InvalidIfStmt => 0,
    }
}

// Its expected kind, message or second count.
fn second_carried(why: Why) -> usize
    ensures { result ≡ carried_too why }
{
    match why {
        Why::InvalidTknMsg(m) | Why::TknMismatch(m, _) => m as usize,
        Why::WrongFnParmCnt(_, n) => n,
        _ => 0,
    }
}

// The word of a reason.
fn reason_word(why: Why) -> u32
    requires { (carried why < 65536) × (carried_too why ≤ 64) }
    ensures { result ≡ reason_of why }
{
    let first = first_carried(why) as u32;
    let second = second_carried(why) as u32;
    why.number() + 16 * first + 1048576 * second
}

// How many errors a failure has listed by a message.
fn by_message(m: u32) -> usize
    ensures { result ≡ by_message m }
{
    if m == 3 {
        return 2;
    }
    1
}

// How many errors a failure has listed.
fn listed_by(why: Why) -> usize
    ensures { result ≡ listed_by why }
{
    match why {
        Why::InvalidTknMsg(m) => by_message(m),
        Why::TknMismatch(_, _) => 0,
        Why::ExpectedIdent(_) => 2,
        _ => 1,
    }
}

impl<'a> Book<'a> {
    // The two words of an error, as number n.
    fn note(&mut self, n: usize, place: usize, why: Why)
        requires { (n < length self.old.places.now) × (n < length self.old.reasons.now) × (place < 65536) × (carried why < 65536) × (carried_too why ≤ 64) }
        ensures { Writes self.old n place (reason_of why) self.new }
    {
        self.places[n] = place as u32;
        self.reasons[n] = reason_word(why);
    }

    // InvalidIfStmt is listed where there are two else branches, and the reading goes on: refusal 9.
    fn second_else(&mut self, p: &mut Parser<'_>, elses: usize) -> Result<(), Stop>
        requires { (p.old.at < 65536) × Roomy p.old self.old }
        ensures { Elses p.old self.old elses result p.new self.new }
    {
        if elses <= 1 {
            return Ok(());
        }
        if p.errors >= p.lim.errors {
            return Err(Stop::Refused(Refusal::ErrorsFull));
        }
        self.note(p.errors, p.at, Why::InvalidIfStmt);
        p.errors += 1;
        Ok(())
    }

    // The words of the errors that a failed declaration has listed last, where so many are listed: none, its
    // error, or InvalidIdent and its error. Answers how many.
    pub fn note_failure(&mut self, errors: usize, e: Err) -> usize
        requires { Noting self.old errors e }
        ensures { (result ≡ listed_by e.why) × Noted self.old errors e self.new }
    {
        let many = listed_by(e.why);
        if many == 0 {
            return many;
        }
        let last = errors - 1;
        if many == 2 {
            self.note(last - 1, e.place, Why::InvalidIdent(e.place));
        }
        self.note(last, e.place, e.why);
        many
    }
}

// The end of an if statement, with n further branches.
pub fn end_if(p: &mut Parser<'_>, book: &mut Book<'_>, n: usize, elses: usize) -> Result<(), Stop>
    requires { Paired p.old × Roomy p.old book.old × (p.old.at < 65536) × (n ≤ 65534) }
    ensures { EndsIf p.old book.old n elses result p.new book.new }
{
    book.second_else(p, elses)?;
    p.push_node(head_word(IF_STMT, false, n + 2), 0)?;
    Ok(())
}
