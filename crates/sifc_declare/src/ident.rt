// The names of a function and of a loop: param_list of a function and ident_pair of parser.rs.
ghost use Rattle.std.specs.Prelude.{◌≤◌, ◌<◌, IfOk};
ghost use Rattle.sifc_def.specs.Expr.{fuel, param_list};
ghost use Rattle.sifc_def.specs.Stmt.{ident_node, param, ident_pair};
ghost use Rattle.sifc_declare.specs.Promise.{Midst, DoesAny, listed};

use sifc_def::Why;
use sifc_def::ast::{self, CHILD, PRIMARY_EXPR};
use sifc_step::{Parser, Stop};
use sifc_word::kind::COMMA;

// The head word of the two names of a loop.
const IDENT_PAIR: u32 = ast::IDENT_PAIR + 2 * CHILD;

// A name, whose token it answers, and its node, the token taken first: a parameter, or one of ident_pair.
pub fn ident_node(p: &mut Parser<'_>) -> Result<usize, Stop>
    requires { Midst p.old }
    ensures { DoesAny 0 (λ c. ident_node c) p.old result p.new }
{
    let i = p.match_ident(Why::ExpectedIdent(p.at))?;
    p.push_node(PRIMARY_EXPR, i as u32)?;
    Ok(i)
}

// A parameter.
fn param(p: &mut Parser<'_>) -> Result<(), Stop>
    requires { Midst p.old }
    ensures does { DoesAny 0 (λ c. param c) p.old result p.new }
    ensures more { IfOk result (λ _. (p.old.at < p.new.at) × (p.old.nodes < p.new.nodes)) }
{
    ident_node(p)?;
    Ok(())
}

// The parameters of a function: how many there are.
pub fn param_list(p: &mut Parser<'_>) -> Result<usize, Stop>
    requires { Midst p.old }
    ensures { DoesAny 0 (λ c. param_list c (param c) (fuel c) 0) p.old result p.new × IfOk result (λ n. (n ≤ 64) × (n ≤ p.new.nodes)) }
{
    sifc_step::param_list(p, param)
}

// The two names of a loop, by their tokens.
pub fn ident_pair(p: &mut Parser<'_>) -> Result<(usize, usize), Stop>
    requires { Midst p.old }
    ensures { DoesAny 0 (λ c. ident_pair c) p.old (listed result) p.new × IfOk result (λ x. (x.0 < 65536) × (x.1 < 65536)) }
{
    let first = ident_node(p)?;
    p.expect(COMMA)?;
    let second = ident_node(p)?;
    p.push_node(IDENT_PAIR, 0)?;
    Ok((first, second))
}
