// What an expression asks the symbol table: the names of primary_expr, fn_call_expr and assign_expr.
ghost use Rattle.std.specs.Prelude.{◌≡◌, ◌+◌, ◌-◌, ◌≤◌, ◌<◌, length, Ok};
ghost use Rattle.sifc_def.specs.State.{set_nodes, without};
ghost use Rattle.sifc_def.specs.Expr.{assign_var, ident_expr, assign_token, assign_array, assign_to, call_counted, call_declared, is_named, call_named};
ghost use Rattle.sifc_symtab.specs.Table.{name_in, found_of, value_in};
ghost use Rattle.sifc_step.specs.Abs.{ctx_at, here, Ready, Does, lifted};
ghost use Rattle.sifc_step.specs.Small.{node_of, HeadWord};
ghost use Rattle.sifc_name.specs.Name.{kind_of, found_at, Looks, is_known};

use sifc_def::ast::{ARRAY_ACCESS, ARRAY_MUT_EXPR, FN_CALL_EXPR, PRIMARY_EXPR, VAR_ASSIGN_EXPR};
use sifc_def::{What, Why};
use sifc_err::{Fault, Refusal};
use sifc_step::{Parser, Stop, Target, head_word};
use sifc_symtab::{SymTab, Tokens};
use sifc_word::is_std_lib_fn;
use sifc_word::kind::{EOF, IDENT, STR};

// The kind of token i; Eof past the tokens.
fn token_kind(p: &Parser<'_>, i: usize) -> u32
    requires { Ready p.now }
    ensures { result ≡ kind_of p.now i }
{
    if i < p.words.len() {
        return p.words[i] % 64;
    }
    EOF
}

// Token i's name.
fn name<'a>(p: &Parser<'a>, i: usize) -> &'a [u8]
    ensures { result.now ≡ name_in p.now.script.now p.now.offs.now p.now.words.now i }
{
    let tokens = Tokens {
        script: p.script,
        offs: p.offs,
        words: p.words,
    };
    tokens.name(i)
}

// What token i's name was declared as.
fn look_up(p: &Parser<'_>, i: usize) -> Option<What>
    requires { Ready p.now }
    ensures { Looks p.now i result }
{
    let table = SymTab {
        tokens: Tokens {
            script: p.script,
            offs: p.offs,
            words: p.words,
        },
        symbols: p.symbols,
        stored: p.stored,
    };
    table.retrieve(p.level, i)
}

// Whether token i's name is declared, or that of a standard function.
fn sym_exists(p: &Parser<'_>, i: usize) -> bool
    requires { Ready p.now }
    ensures { result ≡ is_known (found_at p.now i) (name_in p.now.script.now p.now.offs.now p.now.words.now i) }
{
    look_up(p, i).is_some() || is_std_lib_fn(name(p, i))
}

// The arm of Ident: the name is checked, if names are.
pub fn ident_expr(p: &mut Parser<'_>) -> Result<(), Stop>
    requires { Ready p.old × (here p.old ≡ 47 → ⊥) }
    ensures { Does 1 (λ c. ident_expr c p.old.at) p.old result p.new }
{
    let i = p.at;
    if p.check && !sym_exists(p, i) {
        return Err(p.throw_past(Why::UndeclSym(i)));
    }
    p.literal()?;
    Ok(())
}

// Assignment to what was read last when there were n nodes, after the value: token op is the `=`.
pub fn assign_to(p: &mut Parser<'_>, target: Target, n: usize, op: usize) -> Result<(), Stop>
    requires { Ready p.old }
    ensures { Does 0 (λ c. assign_to c (node_of target) (n - 1) op) p.old result p.new }
{
    let kind = target.head % 32;
    if kind == PRIMARY_EXPR {
        return assign_token(p, target.load as usize);
    }
    if kind == ARRAY_ACCESS {
        assign_array(p, n.saturating_sub(1))?;
        return Ok(());
    }
    Err(p.add_error_w_pos(op, Why::InvalidAssign(op)))
}

// Assignment to token i, which must be the name of a variable.
fn assign_token(p: &mut Parser<'_>, i: usize) -> Result<(), Stop>
    requires { Ready p.old }
    ensures { Does 0 (λ c. assign_token c i) p.old result p.new }
{
    if token_kind(p, i) != IDENT {
        return Err(p.add_error(Why::InvalidAssign(i)));
    }
    let found = look_up(p, i);
    assign_var(p, i, found)
}

// Assignment to the name at token i, by what it was declared as: the node has the declaration's token.
fn assign_var(p: &mut Parser<'_>, i: usize, found: Option<What>) -> Result<(), Stop>
    requires { Ready p.old × (value_in found < 65536) }
    ensures { Does 0 (λ c. assign_var c i (found_of found)) p.old result p.new }
{
    let Some(what) = found else {
        return Err(p.add_error(Why::UndeclSym(i)));
    };
    let What::Variable(token, global) = what else {
        return Err(p.add_error(Why::UndeclSym(i)));
    };
    p.push_node(head_word(VAR_ASSIGN_EXPR, global, 2), token as u32)?;
    Ok(())
}

// Takes out node number `slot`: the nodes after it move down by one. Each enclosing assignment moves a
// node once at most, so all moves of a reading together are at most the depth limit times the nodes.
fn take_out(p: &mut Parser<'_>, slot: usize)
    requires { Ready p.old }
    ensures { Does 0 (λ c. set_nodes c (without slot)) p.old (Ok tt) p.new }
{
    let m = p.nodes;
    if m <= slot {
        return;
    }
    p.head.copy_within(slot + 1..m, slot);
    p.load.copy_within(slot + 1..m, slot);
    p.nodes = m - 1;
}

// ArrayMutExpr in the place of the ArrayAccess, which is node number `slot`, before the value's nodes.
fn assign_array(p: &mut Parser<'_>, slot: usize) -> Result<(), Refusal>
    requires { Ready p.old }
    ensures { Does 0 (λ c. assign_array c slot) p.old (lifted result) p.new }
{
    take_out(p, slot);
    p.push_node(head_word(ARRAY_MUT_EXPR, false, 3), 0)
}

// A call with n arguments, after `)`: token sign is the `(`. Panic 3, then the name: print and range are
// neither looked for nor counted.
pub fn call_named(p: &mut Parser<'_>, target: Target, sign: usize, n: usize) -> Result<(), Stop>
    requires { Ready p.old × (sign < length p.old.words.now) × (n ≤ 64) }
    ensures { Does 0 (λ c. call_named c (node_of target) sign n) p.old result p.new }
{
    if !is_named(p, target) {
        let at = p.offs[sign] as usize;
        return Err(Stop::Refused(Refusal::SourceFault(Fault::Call as u32, at)));
    }
    let i = target.load as usize;
    let found = look_up(p, i);
    if is_std_lib_fn(name(p, i)) {
        p.push_node(head_word(FN_CALL_EXPR, true, n + 1), 0)?;
        return Ok(());
    }
    call_declared(p, i, n, found)
}

// Whether the target is a single token that is a name or a string.
fn is_named(p: &Parser<'_>, target: Target) -> bool
    requires { Ready p.now }
    ensures { result ≡ is_named (ctx_at p.now) (node_of target) }
{
    if target.head % 32 != PRIMARY_EXPR {
        return false;
    }
    let k = token_kind(p, target.load as usize);
    k == IDENT || k == STR
}

// A call with n arguments of the name at token i, by what it was declared as.
fn call_declared(p: &mut Parser<'_>, i: usize, n: usize, found: Option<What>) -> Result<(), Stop>
    requires { Ready p.old × (n ≤ 64) }
    ensures { Does 0 (λ c. call_declared c i n (found_of found)) p.old result p.new }
{
    let Some(what) = found else {
        return Err(p.throw_past(Why::UndeclSym(i)));
    };
    match what {
        What::Placeholder => {
            p.push_node(head_word(FN_CALL_EXPR, false, n + 1), 0)?;
            Ok(())
        }
        What::Function(want) => call_counted(p, want, n),
        What::Variable(_, _) => call_counted(p, 0, n),
        What::Other => call_counted(p, 0, n),
    }
}

// A call with n arguments of what has `want` parameters.
fn call_counted(p: &mut Parser<'_>, want: usize, n: usize) -> Result<(), Stop>
    requires { Ready p.old × (n ≤ 64) }
    ensures { Does 0 (λ c. call_counted c want n) p.old result p.new }
{
    if want != n {
        return Err(p.add_error(Why::WrongFnParmCnt(want, n)));
    }
    p.push_node(head_word(FN_CALL_EXPR, false, n + 1), 0)?;
    Ok(())
}
