// The writer of expressions: backwards from the last node and from the end of the buffer.
ghost use Rattle.std.specs.Prelude.{◌≡◌};
ghost use Rattle.sifc_put.specs.Post.{At, Writes, kind_of};
ghost use Rattle.sifc_text_expr.specs.Kinds.{expr_l, operand_l, exprs_l, subscript_l, linked_l};

use sifc_def::ast::{
    ARRAY_ACCESS, ARRAY_MUT_EXPR, BINARY_EXPR, FN_CALL_EXPR, PRIMARY_EXPR, TABLE_ACCESS, UNARY_EXPR,
};
use sifc_put::{Full, Writer};

// An operand: bare where it binds tighter than `below`, else in parentheses.
#[cycle(expressions)]
fn operand(w: &mut Writer<'_>, below: usize) -> Result<(), Full>
    requires { At (operand_l below) w.old }
    ensures { Writes (operand_l below) w.old result w.new }
{
    if w.height() < below {
        return expr(w);
    }
    w.put_sign(b')')?;
    expr(w)?;
    w.put_sign(b'(')
}

// An expression: the operators on its left edge from right to left, then what stands leftmost.
#[cycle(expressions)]
pub fn expr(w: &mut Writer<'_>) -> Result<(), Full>
    requires { At expr_l w.old }
    ensures { Writes expr_l w.old result w.new }
{
    while w.kind() == BINARY_EXPR {
        let hi = w.node;
        let n = w.height();
        w.node = hi - 1;
        operand(w, n)?;
        w.put_token(hi)?;
        if n < w.height() {
            return operand(w, n + 1);
        }
    }
    simple(w)
}

// An expression that is no operator with two operands.
#[cycle(expressions)]
fn simple(w: &mut Writer<'_>) -> Result<(), Full>
    requires { At expr_l w.old × (kind_of w.old ≡ 22 → ⊥) }
    ensures { Writes expr_l w.old result w.new }
{
    let kind = w.kind();
    if kind == PRIMARY_EXPR {
        return w.leaf();
    }
    if kind == UNARY_EXPR {
        return unary(w);
    }
    if kind == FN_CALL_EXPR {
        return call(w);
    }
    if kind == ARRAY_MUT_EXPR {
        return element(w);
    }
    w.node -= 1;
    if kind == ARRAY_ACCESS {
        return subscript(w);
    }
    if kind == TABLE_ACCESS {
        return linked(w, b'.');
    }
    linked(w, b'=')
}

// `!` or `-` and its operand. A chain of them goes on by this function itself.
#[cycle(expressions)]
fn unary(w: &mut Writer<'_>) -> Result<(), Full>
    requires { At expr_l w.old × (kind_of w.old ≡ 23) }
    ensures { Writes expr_l w.old result w.new }
{
    let hi = w.node;
    w.node = hi - 1;
    if w.kind() == UNARY_EXPR {
        unary(w)?;
        return w.put_token(hi);
    }
    operand(w, 1)?;
    w.put_token(hi)
}

// A call: its target, and its arguments in parentheses.
#[cycle(expressions)]
fn call(w: &mut Writer<'_>) -> Result<(), Full>
    requires { At expr_l w.old × (kind_of w.old ≡ 20) }
    ensures { Writes expr_l w.old result w.new }
{
    let count = w.children() - 1;
    w.node -= 1;
    w.put_sign(b')')?;
    exprs(w, count)?;
    w.put_sign(b'(')?;
    w.leaf()
}

// A target and its index in brackets.
#[cycle(expressions)]
fn subscript(w: &mut Writer<'_>) -> Result<(), Full>
    requires { At subscript_l w.old }
    ensures { Writes subscript_l w.old result w.new }
{
    w.put_sign(b']')?;
    expr(w)?;
    w.put_sign(b'[')?;
    w.leaf()
}

// An assignment to an element of an array.
#[cycle(expressions)]
fn element(w: &mut Writer<'_>) -> Result<(), Full>
    requires { At expr_l w.old × (kind_of w.old ≡ 19) }
    ensures { Writes expr_l w.old result w.new }
{
    w.node -= 1;
    expr(w)?;
    w.put_sign(b'=')?;
    subscript(w)
}

// A table access or an assignment to a variable: a target, a sign, and an expression that stands bare.
#[cycle(expressions)]
fn linked(w: &mut Writer<'_>, sign: u8) -> Result<(), Full>
    requires { At (linked_l sign) w.old }
    ensures { Writes (linked_l sign) w.old result w.new }
{
    expr(w)?;
    w.put_sign(sign)?;
    w.leaf()
}

// So many expressions with commas between.
#[cycle(expressions)]
pub fn exprs(w: &mut Writer<'_>, count: usize) -> Result<(), Full>
    requires { At (exprs_l count) w.old }
    ensures { Writes (exprs_l count) w.old result w.new }
{
    w.list(
        count,
        |w|
            requires { At expr_l w.old }
            ensures { Writes expr_l w.old result w.new }
        { expr(w) },
    )
}
