// Statements that hold no block: ret_stmt and expr_stmt of parser.rs.
ghost use Rattle.std.specs.Prelude.{◌≡◌};
ghost use Rattle.sifc_def.specs.Stmt.{ret_stmt, expr_stmt};
ghost use Rattle.sifc_def.specs.Walk.{walkers};
ghost use Rattle.sifc_step.specs.Abs.{here, Ready, Does};

use sifc_def::ast::{self, CHILD, RETURN_STMT};
use sifc_expr::expr;
use sifc_step::{Parser, Stop};
use sifc_word::kind::{RETURN, SEMICOLON};

// The head words of a return with a value and of an expression.
const RETURN_VALUE: u32 = ast::RETURN_STMT + CHILD;

const EXPR_STMT: u32 = ast::EXPR_STMT + CHILD;

// An expression and its `;`.
pub fn expr_stmt(p: &mut Parser<'_>, depth: usize) -> Result<(), Stop>
    requires { Ready p.old }
    ensures { Does 1 (λ c. expr_stmt c (walkers c depth)) p.old result p.new }
{
    expr(p, depth)?;
    p.expect(SEMICOLON)?;
    p.push_node(EXPR_STMT, 0)?;
    Ok(())
}

// `return`, with a value or without.
pub fn ret_stmt(p: &mut Parser<'_>, depth: usize) -> Result<(), Stop>
    requires { Ready p.old × (here p.old ≡ 36) }
    ensures { Does 1 (λ c. ret_stmt c (walkers c depth)) p.old result p.new }
{
    p.expect(RETURN)?;
    if p.kind() == SEMICOLON {
        p.consume()?;
        p.push_node(RETURN_STMT, 0)?;
        return Ok(());
    }
    expr(p, depth)?;
    p.expect(SEMICOLON)?;
    p.push_node(RETURN_VALUE, 0)?;
    Ok(())
}
