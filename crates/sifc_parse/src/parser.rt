// The cycle of the declarations: decl down to block and back, with the remaining depth as falling number.
// `depth` is how many more of the counted calls may be active.
ghost use Rattle.std.specs.Prelude.{◌≡◌, ◌||◌, eqb, ◌≤◌, ◌<◌, IfOk};
ghost use Rattle.sifc_def.specs.Expr.{fuel};
ghost use Rattle.sifc_def.specs.Stmt.{decl as decl_of, stmt as stmt_of, fn_decl, if_stmt, branches as branches_of, elif_stmt, else_block, for_stmt, decls as decls_of};
ghost use Rattle.sifc_def.specs.Walk.{walkers};
ghost use Rattle.sifc_step.specs.Abs.{here, Ready};
ghost use Rattle.sifc_block.specs.Lists.{Booked, Lists};
ghost use Rattle.sifc_block.specs.Bound.{names_of};
ghost use Rattle.sifc_parse.specs.Cycle.{Blocks, NamesIn};

use sifc_block::{Book, Names, bind, end_block, end_if};
use sifc_declare::{ident_pair, param_list};
use sifc_def::ast::{self, CHILD, FN_PARAMS};
use sifc_def::{What, Why};
use sifc_err::Refusal;
use sifc_expr::expr;
use sifc_step::{Parser, Stop, head_word};
use sifc_stmt::{expr_stmt, ret_stmt, var_decl};
use sifc_word::kind::{
    ELIF, ELSE, EOF, FN, FOR, IF, IN, LEFT_BRACE, LEFT_PAREN, RETURN, RIGHT_BRACE, RIGHT_PAREN, VAR,
};

// The head words of a branch, a loop and a function.
const ELIF_STMT: u32 = ast::ELIF_STMT + 2 * CHILD;

const FOR_STMT: u32 = ast::FOR_STMT + 3 * CHILD;

const FN_DECL: u32 = ast::FN_DECL + 2 * CHILD;

// A declaration.
#[cycle(declarations)]
pub fn decl(p: &mut Parser<'_>, book: &mut Book<'_>, depth: usize) -> Result<(), Stop>
    requires { Ready p.old × Booked p.old book.old }
    ensures { Lists 1 (λ c. decl_of c (walkers c depth)) p.old book.old result p.new book.new }
{
    let k = p.kind();
    if k == VAR {
        return var_decl(p, depth);
    }
    if k == FN {
        return fn_decl(p, book, depth);
    }
    stmt(p, book, depth)
}

// A statement.
#[cycle(declarations)]
fn stmt(p: &mut Parser<'_>, book: &mut Book<'_>, depth: usize) -> Result<(), Stop>
    requires { Ready p.old × Booked p.old book.old }
    ensures { Lists 1 (λ c. stmt_of c (walkers c depth)) p.old book.old result p.new book.new }
{
    let k = p.kind();
    if k == IF {
        return if_stmt(p, book, depth);
    }
    if k == FOR {
        return for_stmt(p, book, depth);
    }
    if k == RETURN {
        return ret_stmt(p, depth);
    }
    if k == LEFT_BRACE {
        return block(p, book, depth, false, Names::Unnamed);
    }
    expr_stmt(p, depth)
}

// A block: of a function or not, with the names that are bound in it.
#[cycle(declarations)]
fn block(
    p: &mut Parser<'_>,
    book: &mut Book<'_>,
    depth: usize,
    body: bool,
    names: Names,
) -> Result<(), Stop>
    requires { Ready p.old × Booked p.old book.old × NamesIn names p.old }
    ensures { Blocks depth body (names_of names p.old.load.now) p.old book.old result p.new book.new }
{
    if depth == 0 {
        return Err(Stop::Refused(Refusal::TooDeep));
    }
    let below = depth - 1;
    p.expect(LEFT_BRACE)?;
    p.init_scope();
    bind(p, names)?;
    let n = decls(p, book, below)?;
    end_block(p, body, n)
}

// Whether a kind ends the declarations of a block.
fn ends_decls(k: u32) -> bool
    ensures { result ≡ eqb k 4 || eqb k 47 }
{
    k == RIGHT_BRACE || k == EOF
}

// The declarations of a block: how many there are.
#[cycle(declarations)]
fn decls(p: &mut Parser<'_>, book: &mut Book<'_>, depth: usize) -> Result<usize, Stop>
    requires { Ready p.old × Booked p.old book.old }
    ensures does { Lists 0 (λ c. decls_of c (walkers c depth) (fuel c) 0) p.old book.old result p.new book.new }
    ensures few { IfOk result (λ n. n < 65536) }
{
    let mut n = 0;
    while !ends_decls(p.kind()) {
        decl(p, book, depth)?;
        n += 1;
    }
    Ok(n)
}

// A function: a placeholder is stored before the parameters, so that it can call itself.
#[cycle(declarations)]
fn fn_decl(p: &mut Parser<'_>, book: &mut Book<'_>, depth: usize) -> Result<(), Stop>
    requires { Ready p.old × Booked p.old book.old × (here p.old ≡ 35) }
    ensures { Lists 1 (λ c. fn_decl c (walkers c depth)) p.old book.old result p.new book.new }
{
    p.expect(FN)?;
    let i = p.match_ident(Why::ExpectedIdent(p.at))?;
    p.store_name(i, What::Placeholder)?;
    p.expect(LEFT_PAREN)?;
    let n = param_list(p)?;
    let first = p.nodes - n;
    p.push_node(head_word(FN_PARAMS, false, n), 0)?;
    p.expect(RIGHT_PAREN)?;
    block(p, book, depth, true, Names::Params(first, n))?;
    p.push_node(FN_DECL, i as u32)?;
    p.store_name(i, What::Function(n))?;
    Ok(())
}

// An if statement.
#[cycle(declarations)]
fn if_stmt(p: &mut Parser<'_>, book: &mut Book<'_>, depth: usize) -> Result<(), Stop>
    requires { Ready p.old × Booked p.old book.old × (here p.old ≡ 39) }
    ensures { Lists 1 (λ c. if_stmt c (walkers c depth)) p.old book.old result p.new book.new }
{
    p.expect(IF)?;
    expr(p, depth)?;
    block(p, book, depth, false, Names::Unnamed)?;
    branches(p, book, depth)
}

// The further branches of an if statement, in the order of the script, and its end.
#[cycle(declarations)]
fn branches(p: &mut Parser<'_>, book: &mut Book<'_>, depth: usize) -> Result<(), Stop>
    requires { Ready p.old × Booked p.old book.old × (2 ≤ p.old.at) }
    ensures { Lists 0 (λ c. branches_of c (walkers c depth) (fuel c) 0 0) p.old book.old result p.new book.new }
{
    let mut n = 0;
    let mut elses = 0;
    loop {
        match p.kind() {
            ELIF => elif_stmt(p, book, depth)?,
            ELSE => {
                else_block(p, book, depth)?;
                elses += 1;
            }
            _ => return end_if(p, book, n, elses),
        }
        n += 1;
    }
}

// An elif branch.
#[cycle(declarations)]
fn elif_stmt(p: &mut Parser<'_>, book: &mut Book<'_>, depth: usize) -> Result<(), Stop>
    requires { Ready p.old × Booked p.old book.old × (here p.old ≡ 40) }
    ensures { Lists 1 (λ c. elif_stmt c (walkers c depth)) p.old book.old result p.new book.new }
{
    p.consume()?;
    expr(p, depth)?;
    block(p, book, depth, false, Names::Unnamed)?;
    p.push_node(ELIF_STMT, 0)?;
    Ok(())
}

// An else branch.
#[cycle(declarations)]
fn else_block(p: &mut Parser<'_>, book: &mut Book<'_>, depth: usize) -> Result<(), Stop>
    requires { Ready p.old × Booked p.old book.old × (here p.old ≡ 41) }
    ensures { Lists 1 (λ c. else_block c (walkers c depth)) p.old book.old result p.new book.new }
{
    p.consume()?;
    block(p, book, depth, false, Names::Unnamed)
}

// A for statement.
#[cycle(declarations)]
fn for_stmt(p: &mut Parser<'_>, book: &mut Book<'_>, depth: usize) -> Result<(), Stop>
    requires { Ready p.old × Booked p.old book.old × (here p.old ≡ 42) }
    ensures { Lists 1 (λ c. for_stmt c (walkers c depth)) p.old book.old result p.new book.new }
{
    p.expect(FOR)?;
    let (i, j) = ident_pair(p)?;
    p.expect(IN)?;
    expr(p, depth)?;
    block(p, book, depth, false, Names::Pair(i, j))?;
    p.push_node(FOR_STMT, 0)?;
    Ok(())
}
