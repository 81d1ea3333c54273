// The writer of statements that hold blocks, and of a program.
ghost use Rattle.std.specs.Prelude.{◌≡◌};
ghost use Rattle.sifc_put.specs.Post.{At, Writes, kind_of};
ghost use Rattle.sifc_text_stmt.specs.Kinds.{stmt_l, stmts_l, block_l, guarded_l, branch_l, branches_l, line_l, program_l};

use sifc_def::ast::{BLOCK, ELIF_STMT, FN_DECL, FOR_STMT, IF_STMT};
use sifc_put::{Full, Writer};
use sifc_text_expr::expr;
use sifc_text_plain::{names, pair, plain_stmt};

// A statement.
#[cycle(statements)]
fn stmt(w: &mut Writer<'_>) -> Result<(), Full>
    requires { At stmt_l w.old }
    ensures { Writes stmt_l w.old result w.new }
{
    let kind = w.kind();
    if kind == BLOCK {
        return block(w);
    }
    if kind == IF_STMT {
        return if_stmt(w);
    }
    if kind == FOR_STMT {
        return for_stmt(w);
    }
    if kind == FN_DECL {
        return fn_decl(w);
    }
    plain_stmt(w)
}

// So many statements, one after another.
#[cycle(statements)]
fn stmts(w: &mut Writer<'_>, count: usize) -> Result<(), Full>
    requires { At (stmts_l count) w.old }
    ensures { Writes (stmts_l count) w.old result w.new }
{
    for _ in 0..count {
        stmt(w)?;
    }
    Ok(())
}

// A block in braces.
#[cycle(statements)]
fn block(w: &mut Writer<'_>) -> Result<(), Full>
    requires { At block_l w.old }
    ensures { Writes block_l w.old result w.new }
{
    let count = w.children();
    w.node -= 1;
    w.put_sign(b'}')?;
    stmts(w, count)?;
    w.put_sign(b'{')
}

// An expression and the block behind it.
#[cycle(statements)]
fn guarded(w: &mut Writer<'_>) -> Result<(), Full>
    requires { At guarded_l w.old }
    ensures { Writes guarded_l w.old result w.new }
{
    block(w)?;
    expr(w)
}

// A further branch of an `if`: a Block is an `else`.
#[cycle(statements)]
fn branch(w: &mut Writer<'_>) -> Result<(), Full>
    requires { At branch_l w.old }
    ensures { Writes branch_l w.old result w.new }
{
    if w.kind() == ELIF_STMT {
        w.node -= 1;
        guarded(w)?;
        return w.keyword(b"elif");
    }
    block(w)?;
    w.keyword(b"else")
}

// So many branches.
#[cycle(statements)]
fn branches(w: &mut Writer<'_>, count: usize) -> Result<(), Full>
    requires { At (branches_l count) w.old }
    ensures { Writes (branches_l count) w.old result w.new }
{
    for _ in 0..count {
        branch(w)?;
    }
    Ok(())
}

// An `if` with its branches.
#[cycle(statements)]
fn if_stmt(w: &mut Writer<'_>) -> Result<(), Full>
    requires { At stmt_l w.old × (kind_of w.old ≡ 3) }
    ensures { Writes stmt_l w.old result w.new }
{
    let count = w.children() - 2;
    w.node -= 1;
    branches(w, count)?;
    guarded(w)?;
    w.keyword(b"if")
}

// A loop over what an expression gives.
#[cycle(statements)]
fn for_stmt(w: &mut Writer<'_>) -> Result<(), Full>
    requires { At stmt_l w.old × (kind_of w.old ≡ 5) }
    ensures { Writes stmt_l w.old result w.new }
{
    w.node -= 1;
    guarded(w)?;
    w.keyword(b"in")?;
    pair(w)?;
    w.keyword(b"for")
}

// A function: its name, its parameters and its body.
#[cycle(statements)]
fn fn_decl(w: &mut Writer<'_>) -> Result<(), Full>
    requires { At stmt_l w.old × (kind_of w.old ≡ 9) }
    ensures { Writes stmt_l w.old result w.new }
{
    let hi = w.node;
    w.node = hi - 1;
    block(w)?;
    w.put_sign(b')')?;
    let count = w.children();
    w.node -= 1;
    names(w, count)?;
    w.put_sign(b'(')?;
    w.put_token(hi)?;
    w.keyword(b"fn")
}

// A declaration, with a newline for its last space.
fn line(w: &mut Writer<'_>) -> Result<(), Full>
    requires { At stmt_l w.old }
    ensures { Writes line_l w.old result w.new }
{
    let end = w.at;
    stmt(w)?;
    w.text[end - 1] = b'\n';
    Ok(())
}

// The declarations of a program, a line each, from the last to the first.
pub fn program(w: &mut Writer<'_>) -> Result<(), Full>
    requires { At program_l w.old }
    ensures { Writes program_l w.old result w.new }
{
    let count = w.children();
    w.node -= 1;
    for _ in 0..count {
        line(w)?;
    }
    Ok(())
}
