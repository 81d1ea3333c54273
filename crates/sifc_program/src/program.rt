// Parser::new and parse: the declarations of a script one after another, and the Program node.
ghost use Rattle.std.specs.Prelude.{◌≡◌, ◌≤◌, IfOk};
ghost use Rattle.sifc_def.specs.Walk.{end_read};
ghost use Rattle.sifc_step.specs.Abs.{inp, mem, inp_of, mem_of, walk_of, Ready, Kept, Does, lifted};
ghost use Rattle.sifc_step.specs.Book.{Walks, last_of, walk_in};
ghost use Rattle.sifc_block.specs.Lists.{KeptBook};
ghost use Rattle.sifc_program.specs.Program.{Starts, Started, does_go_on, ended};

use sifc_block::Book;
use sifc_def::ast::PROGRAM;
use sifc_def::{Err as Error, Why};
use sifc_err::Refusal;
use sifc_parse::decl;
use sifc_step::{Limits, Parser, Stop, Walked, head_word};
use sifc_symtab::open;
use sifc_word::kind::{EOF, LEX_PANIC};

// "a 769th call of `block`, `assign_expr`, `unary_expr` or `fn_call_expr` would be active"
const DEPTH_LIMIT: usize = 768;

// Whether the reading goes on after an error: continuable of parse_err.rs.
fn goes_on(why: Why) -> bool
    ensures { result ≡ does_go_on why }
{
    !matches!(why, Why::TknMismatch(_, _) | Why::FnParmCntExceeded(_))
}

// The Program node, over n declarations.
fn end_read(
    p: &mut Parser<'_>,
    n: usize,
    flag: bool,
    last: Option<Error>,
) -> Result<Walked, Refusal>
    requires { Ready p.old × (n ≤ 65536) }
    ensures { Does 0 (λ c. end_read c n flag (last_of last)) p.old (lifted (ended result)) p.new × IfOk result (λ w. walk_in w ≡ walk_of p.new) }
{
    p.push_node(head_word(PROGRAM, false, n), 0)?;
    Ok(Walked {
        at: p.at,
        nodes: p.nodes,
        stored: p.stored,
        level: p.level,
        errors: p.errors,
        check: p.check,
        flag,
        last,
    })
}

// The declarations, until Eof or an error that ends the reading.
fn program(p: &mut Parser<'_>, book: &mut Book<'_>) -> Result<Walked, Refusal>
    requires { Started p.old book.old }
    ensures { Walks (inp_of p.old) (mem_of p.old) result (mem_of p.new) book.new.places.now book.new.reasons.now × Kept p.old p.new × KeptBook book.old book.new }
{
    let mut n = 0;
    let mut flag = false;
    while p.kind() != EOF {
        let before = p.nodes;
        match decl(p, book, DEPTH_LIMIT) {
            Ok(()) => n += 1,
            Err(Stop::Failed(e)) => {
                book.note_failure(p.errors, e);
                p.nodes = before;
                flag = true;
                if !goes_on(e.why) {
                    return end_read(p, n, flag, Some(e));
                }
            }
            Err(Stop::Refused(refusal)) => return Err(refusal),
        }
    }
    end_read(p, n, flag, None)
}

// All declarations of the tokens, from an empty symbol table on: a lexing panic in front is met at once.
pub fn parse(
    script: &[u8],
    offs: &[u32],
    words: &[u32],
    symbols: &mut [u32],
    head: &mut [u32],
    load: &mut [u32],
    places: &mut [u32],
    reasons: &mut [u32],
    lim: Limits,
) -> Result<Walked, Refusal>
    requires { Starts script.now offs.now words.now head.old load.old places.old reasons.old lim }
    ensures { Walks (inp script.now offs.now words.now lim) (mem symbols.old head.old load.old) result (mem symbols.new head.new load.new) places.new reasons.new }
{
    if words[0] % 64 == LEX_PANIC {
        return Err(Refusal::SourceFault(lim.fault, offs[0] as usize));
    }
    open(words, symbols);
    let mut p = Parser {
        script,
        offs,
        words,
        symbols,
        head,
        load,
        lim,
        at: 0,
        nodes: 0,
        stored: 0,
        level: 0,
        errors: 0,
        check: true,
    };
    let mut book = Book { places, reasons };
    program(&mut p, &mut book)
}
