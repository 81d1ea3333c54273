// Variables, arrays and tables: var_decl, array_decl, table_decl and item_list of parser.rs.
ghost use Rattle.std.specs.Prelude.{◌≡◌, ◌≤◌, ◌<◌, IfOk};
ghost use Rattle.sifc_def.specs.State.{Ctx, Void};
ghost use Rattle.sifc_def.specs.Expr.{fuel};
ghost use Rattle.sifc_def.specs.Stmt.{comma_list, array_decl, table_item, item_list, table_decl, initial as initial_of, var_decl};
ghost use Rattle.sifc_def.specs.Walk.{walkers};
ghost use Rattle.sifc_step.specs.Abs.{here, Ready, Does};
ghost use Rattle.sifc_declare.specs.Promise.{var_value};
ghost use Rattle.sifc_step.specs.Items.{Reads};

use sifc_declare::{declare_array, declare_other, declare_var};
use sifc_def::Why;
use sifc_def::ast::{self, CHILD, ITEM_LIST};
use sifc_err::Message;
use sifc_expr::expr;
use sifc_step::{Parser, Stop, head_word};
use sifc_word::kind::{
    COMMA, DOUBLE_LEFT_BRACKET, DOUBLE_RIGHT_BRACKET, EOF, EQ, EQ_ARROW, LEFT_BRACKET,
    RIGHT_BRACKET, SEMICOLON, VAR,
};

// The head words of an item and of a table.
const TABLE_ITEM: u32 = ast::TABLE_ITEM + CHILD;

const TABLE: u32 = ast::TABLE + CHILD;

// A variable, with a value or without.
pub fn var_decl(p: &mut Parser<'_>, depth: usize) -> Result<(), Stop>
    requires { Ready p.old × (here p.old ≡ 34) }
    ensures { Does 1 (λ c. var_decl c (walkers c depth)) p.old result p.new }
{
    p.expect(VAR)?;
    let i = p.match_ident(Why::ExpectedIdent(p.at))?;
    let k = p.kind();
    if k == EQ {
        return var_value(p, depth, i);
    }
    if k != SEMICOLON {
        return Err(p.add_error(Why::InvalidTknMsg(Message::EqOrSemicolon as u32)));
    }
    p.consume()?;
    declare_var(p, i, 0)?;
    Ok(())
}

// The arm of `=`: the value of the variable at token i, and its declaration.
fn var_value(p: &mut Parser<'_>, depth: usize, i: usize) -> Result<(), Stop>
    requires { Ready p.old × (i < 65536) }
    ensures { Does 0 (λ c. var_value c (walkers c depth) i) p.old result p.new }
{
    p.consume()?;
    initial(p, depth, i)?;
    declare_var(p, i, 1)?;
    Ok(())
}

// The value of the variable at token i, with the `;`.
fn initial(p: &mut Parser<'_>, depth: usize, i: usize) -> Result<(), Stop>
    requires { Ready p.old × (i < 65536) }
    ensures { Does 0 (λ c. initial_of c (walkers c depth) i) p.old result p.new }
{
    let k = p.kind();
    if k == LEFT_BRACKET {
        return array_decl(p, depth, i);
    }
    if k == DOUBLE_LEFT_BRACKET {
        return table_decl(p, depth, i);
    }
    expr(p, depth)?;
    p.expect(SEMICOLON)
}

// An array, under the name at token i.
fn array_decl(p: &mut Parser<'_>, depth: usize, i: usize) -> Result<(), Stop>
    requires { Ready p.old × (i < 65536) }
    ensures { Does 0 (λ c. array_decl c (walkers c depth) i) p.old result p.new }
{
    p.expect(LEFT_BRACKET)?;
    let n = comma_list(p, RIGHT_BRACKET, |p| expr(p, depth))?;
    p.expect(RIGHT_BRACKET)?;
    p.expect(SEMICOLON)?;
    declare_array(p, i, n)?;
    Ok(())
}

// The items of a list up to a closing kind, each read by `item`: how many there are.
fn comma_list<F: Fn(&mut Parser<'_>) -> Result<(), Stop>>(
    p: &mut Parser<'_>,
    close: u32,
    item: F,
) -> Result<usize, Stop>
    requires ready { Ready p.old }
    requires callable { (q : _) → Ready q.now → F.pre item q }
    requires items { (def : Ctx → Void) × Reads (F.post item) def }
    ensures does { (def : Ctx → Void) → Reads (F.post item) def → Does 0 (λ c. comma_list c close (def c) (fuel c) 0) p.old result p.new }
    ensures few { IfOk result (λ n. n ≤ 65536) }
{
    let mut n = 0;
    loop {
        let k = p.kind();
        if k == close {
            return Ok(n);
        }
        if k == EOF {
            return Err(p.add_error(Why::InvalidTknMsg(Message::EndOfFile as u32)));
        }
        item(p)?;
        n += 1;
        if p.kind() != COMMA {
            return Ok(n);
        }
        p.consume()?;
    }
}

// A table, under the name at token i, which is stored before the `;`.
fn table_decl(p: &mut Parser<'_>, depth: usize, i: usize) -> Result<(), Stop>
    requires { Ready p.old × (i < 65536) }
    ensures { Does 0 (λ c. table_decl c (walkers c depth) i) p.old result p.new }
{
    p.expect(DOUBLE_LEFT_BRACKET)?;
    item_list(p, depth)?;
    p.expect(DOUBLE_RIGHT_BRACKET)?;
    declare_other(p, i, TABLE)?;
    p.expect(SEMICOLON)
}

// The items of a table, and their node.
fn item_list(p: &mut Parser<'_>, depth: usize) -> Result<(), Stop>
    requires { Ready p.old }
    ensures { Does 0 (λ c. item_list c (walkers c depth)) p.old result p.new }
{
    let n = comma_list(p, DOUBLE_RIGHT_BRACKET, |p| table_item(p, depth))?;
    p.push_node(head_word(ITEM_LIST, false, n), 0)?;
    Ok(())
}

// An item: a key, `=>` and a value.
fn table_item(p: &mut Parser<'_>, depth: usize) -> Result<(), Stop>
    requires { Ready p.old }
    ensures does { Does 0 (λ c. table_item c (walkers c depth)) p.old result p.new }
    ensures ahead { IfOk result (λ _. p.old.at < p.new.at) }
{
    let key = p.match_ident(Why::InvalidTknMsg(Message::AnIdentifier as u32))?;
    p.expect(EQ_ARROW)?;
    expr(p, depth)?;
    p.push_node(TABLE_ITEM, key as u32)?;
    Ok(())
}
