// The cycle of the expressions: assign_expr down to group_expr and back, with the remaining depth
// as falling number. `depth` is how many more of the counted calls may be active.
ghost use Rattle.std.specs.Prelude.{◌≡◌, ◌≤◌, ◌-◌, length, IfOk};
ghost use Rattle.sifc_def.specs.Expr.{fuel, param_list, group_expr, primary_expr, call_part, dot, index};
ghost use Rattle.sifc_def.specs.Walk.{walkers};
ghost use Rattle.sifc_step.specs.Abs.{here, Ready, Does};
ghost use Rattle.sifc_step.specs.Small.{node_of};
ghost use Rattle.sifc_expr.specs.Rest.{rest, binds_in};

use sifc_def::Why;
use sifc_def::ast::{self, CHILD};
use sifc_err::Refusal;
use sifc_name::{assign_to, call_named, ident_expr};
use sifc_step::{Parser, Stop, Target, is_literal, is_unary, looseness, param_list};
use sifc_word::kind::{
    AT, EQ, IDENT, LEFT_BRACKET, LEFT_PAREN, PERIOD, RIGHT_BRACKET, RIGHT_PAREN,
};

// The head words of an operator with two operands and of one with one.
const BINARY_EXPR: u32 = ast::BINARY_EXPR + 2 * CHILD;

const UNARY_EXPR: u32 = ast::UNARY_EXPR + CHILD;

// An expression.
pub fn expr(p: &mut Parser<'_>, depth: usize) -> Result<(), Stop>
    requires { Ready p.old }
    ensures { Does 1 (λ c. (walkers c depth).assign) p.old result p.new }
{
    assign_expr(p, depth)
}

// Assignment, whose target must be a name or an array access.
#[cycle(expressions)]
fn assign_expr(p: &mut Parser<'_>, depth: usize) -> Result<(), Stop>
    requires { Ready p.old }
    ensures { Does 1 (λ c. (walkers c depth).assign) p.old result p.new }
{
    if depth == 0 {
        return Err(Stop::Refused(Refusal::TooDeep));
    }
    let below = depth - 1;
    unary_expr(p, below)?;
    or_expr(p, below)?;
    let n = p.nodes;
    let op = p.at;
    if p.kind() != EQ {
        return Ok(());
    }
    let target = p.top();
    p.consume()?;
    assign_expr(p, below)?;
    assign_to(p, target, n, op)
}

// Is the token in front a binary operator that binds within the n tightest levels?
fn binds(p: &Parser<'_>, n: usize) -> bool
    requires { Ready p.now }
    ensures { result ≡ binds_in n (here p.now) }
{
    let k = looseness(p.kind());
    0 < k && k <= n
}

// The level of number n after an operand: it reads the operators that bind within it, and the operand
// after each.
#[cycle(expressions)]
fn level(p: &mut Parser<'_>, depth: usize, n: usize) -> Result<(), Stop>
    requires { Ready p.old × (n ≤ 7) }
    ensures { Does 0 (λ c. rest c n (walkers c depth).unary) p.old result p.new }
{
    if !binds(p, n) {
        return Ok(());
    }
    level_below(p, depth, n)?;
    loop {
        let op = p.at;
        if looseness(p.kind()) != n {
            return Ok(());
        }
        p.consume()?;
        unary_expr(p, depth)?;
        level_below(p, depth, n)?;
        p.push_node(BINARY_EXPR, op as u32)?;
    }
}

// The level under that of number n. A match on the number, and no closure that the level is handed: in a
// cycle of calls a closure needs its clauses written, and there would be six with the same ones.
#[cycle(expressions)]
fn level_below(p: &mut Parser<'_>, depth: usize, n: usize) -> Result<(), Stop>
    requires { Ready p.old × (n ≤ 7) }
    ensures { Does 0 (λ c. rest c (n - 1) (walkers c depth).unary) p.old result p.new }
{
    match n {
        7 => and_expr(p, depth),
        6 => equality_expr(p, depth),
        5 => compr_expr(p, depth),
        4 => add_or_sub_expr(p, depth),
        3 => mul_or_div_expr(p, depth),
        2 => mod_expr(p, depth),
        _ => Ok(()),
    }
}

// `||`.
#[cycle(expressions)]
fn or_expr(p: &mut Parser<'_>, depth: usize) -> Result<(), Stop>
    requires { Ready p.old }
    ensures { Does 0 (λ c. rest c 7 (walkers c depth).unary) p.old result p.new }
{
    level(p, depth, 7)
}

// `&&`.
#[cycle(expressions)]
fn and_expr(p: &mut Parser<'_>, depth: usize) -> Result<(), Stop>
    requires { Ready p.old }
    ensures { Does 0 (λ c. rest c 6 (walkers c depth).unary) p.old result p.new }
{
    level(p, depth, 6)
}

// `!=` and `==`.
#[cycle(expressions)]
fn equality_expr(p: &mut Parser<'_>, depth: usize) -> Result<(), Stop>
    requires { Ready p.old }
    ensures { Does 0 (λ c. rest c 5 (walkers c depth).unary) p.old result p.new }
{
    level(p, depth, 5)
}

// `<`, `<=`, `>` and `>=`.
#[cycle(expressions)]
fn compr_expr(p: &mut Parser<'_>, depth: usize) -> Result<(), Stop>
    requires { Ready p.old }
    ensures { Does 0 (λ c. rest c 4 (walkers c depth).unary) p.old result p.new }
{
    level(p, depth, 4)
}

// `+` and `-`.
#[cycle(expressions)]
fn add_or_sub_expr(p: &mut Parser<'_>, depth: usize) -> Result<(), Stop>
    requires { Ready p.old }
    ensures { Does 0 (λ c. rest c 3 (walkers c depth).unary) p.old result p.new }
{
    level(p, depth, 3)
}

// `*` and `/`.
#[cycle(expressions)]
fn mul_or_div_expr(p: &mut Parser<'_>, depth: usize) -> Result<(), Stop>
    requires { Ready p.old }
    ensures { Does 0 (λ c. rest c 2 (walkers c depth).unary) p.old result p.new }
{
    level(p, depth, 2)
}

// `%`.
#[cycle(expressions)]
fn mod_expr(p: &mut Parser<'_>, depth: usize) -> Result<(), Stop>
    requires { Ready p.old }
    ensures { Does 0 (λ c. rest c 1 (walkers c depth).unary) p.old result p.new }
{
    level(p, depth, 1)
}

// `!` and `-`.
#[cycle(expressions)]
fn unary_expr(p: &mut Parser<'_>, depth: usize) -> Result<(), Stop>
    requires { Ready p.old }
    ensures { Does 1 (λ c. (walkers c depth).unary) p.old result p.new }
{
    if depth == 0 {
        return Err(Stop::Refused(Refusal::TooDeep));
    }
    let below = depth - 1;
    if is_unary(p.kind()) {
        let at = p.at;
        p.consume()?;
        unary_expr(p, below)?;
        p.push_node(UNARY_EXPR, at as u32)?;
        return Ok(());
    }
    fn_call_expr(p, below)
}

// A primary expression, and one suffix if there is one: a call, `.` or `[`.
#[cycle(expressions)]
fn fn_call_expr(p: &mut Parser<'_>, depth: usize) -> Result<(), Stop>
    requires { Ready p.old }
    ensures { Does 1 (λ c. (walkers c depth).call) p.old result p.new }
{
    if depth == 0 {
        return Err(Stop::Refused(Refusal::TooDeep));
    }
    let below = depth - 1;
    primary_expr(p, below)?;
    let target = p.top();
    let k = p.kind();
    if k == LEFT_PAREN {
        return call(p, below, target);
    }
    if k == PERIOD {
        return dot(p, below, target);
    }
    if k == LEFT_BRACKET {
        return index(p, below, target);
    }
    Ok(())
}

// A call's arguments, then its name: panic 3 and the name's check come after `)`.
#[cycle(expressions)]
fn call(p: &mut Parser<'_>, depth: usize, target: Target) -> Result<(), Stop>
    requires { Ready p.old }
    ensures { Does 0 (λ c. call_part c (walkers c depth) (node_of target) p.old.at) p.old result p.new }
{
    let at = p.at;
    p.consume()?;
    let n = param_list(
        p,
        |p|
            requires { Ready p.old }
            ensures { Does 1 (λ c. (walkers c depth).assign) p.old result p.new }
        { assign_expr(p, depth) },
    )?;
    p.expect(RIGHT_PAREN)?;
    call_named(p, target, at, n)
}

// A table access. Names are not checked in the expression after `.`, and are checked after it.
#[cycle(expressions)]
fn dot(p: &mut Parser<'_>, depth: usize, target: Target) -> Result<(), Stop>
    requires { Ready p.old }
    ensures { Does 0 (λ c. dot c (walkers c depth) (node_of target) p.old.at) p.old result p.new }
{
    let at = p.at;
    p.consume()?;
    p.check = false;
    assign_expr(p, depth)?;
    p.end_dot(target, at)?;
    Ok(())
}

// An array access.
#[cycle(expressions)]
fn index(p: &mut Parser<'_>, depth: usize, target: Target) -> Result<(), Stop>
    requires { Ready p.old }
    ensures { Does 0 (λ c. index c (walkers c depth) (node_of target) p.old.at) p.old result p.new }
{
    let at = p.at;
    p.consume()?;
    assign_expr(p, depth)?;
    p.expect(RIGHT_BRACKET)?;
    p.end_index(target, at)?;
    Ok(())
}

// A literal, a name, a group or what follows `@`.
#[cycle(expressions)]
fn primary_expr(p: &mut Parser<'_>, depth: usize) -> Result<(), Stop>
    requires { Ready p.old }
    ensures { Does 1 (λ c. primary_expr c (walkers c depth)) p.old result p.new }
{
    let k = p.kind();
    if is_literal(k) {
        p.literal()?;
        return Ok(());
    }
    if k == IDENT {
        return ident_expr(p);
    }
    if k == LEFT_PAREN {
        return group_expr(p, depth);
    }
    if k != AT {
        let at = p.at;
        return Err(p.throw_past(Why::InvalidTkn(at)));
    }
    p.consume()?;
    fn_call_expr(p, depth)
}

// An expression in parentheses.
#[cycle(expressions)]
fn group_expr(p: &mut Parser<'_>, depth: usize) -> Result<(), Stop>
    requires { Ready p.old }
    ensures { Does 1 (λ c. group_expr c (walkers c depth)) p.old result p.new }
{
    p.consume()?;
    assign_expr(p, depth)?;
    p.expect(RIGHT_PAREN)
}
