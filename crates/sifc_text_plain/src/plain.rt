// The writer of declarations and statements that hold no block.
ghost use Rattle.sifc_put.specs.Post.{At, Writes};
ghost use Rattle.sifc_text_plain.specs.Kinds.{names_l, pair_l, item_l, items_l, array_l, table_l, value_l, var_l, plain_l};

use sifc_def::ast::{ARRAY, RETURN_STMT, TABLE, VAR_DECL};
use sifc_put::{Full, Writer};
use sifc_text_expr::{expr, exprs};

// So many names with commas between: the parameters of a function.
pub fn names(w: &mut Writer<'_>, count: usize) -> Result<(), Full>
    requires { At (names_l count) w.old }
    ensures { Writes (names_l count) w.old result w.new }
{
    w.list(count, |w| w.leaf())
}

// The two names of a loop.
pub fn pair(w: &mut Writer<'_>) -> Result<(), Full>
    requires { At pair_l w.old }
    ensures { Writes pair_l w.old result w.new }
{
    w.node -= 1;
    w.leaf()?;
    w.put_sign(b',')?;
    w.leaf()
}

// An item of a table: its key, and its value.
fn item(w: &mut Writer<'_>) -> Result<(), Full>
    requires { At item_l w.old }
    ensures { Writes item_l w.old result w.new }
{
    let hi = w.node;
    w.node = hi - 1;
    expr(w)?;
    w.keyword(b"=>")?;
    w.put_token(hi)
}

// So many items with commas between.
fn items(w: &mut Writer<'_>, count: usize) -> Result<(), Full>
    requires { At (items_l count) w.old }
    ensures { Writes (items_l count) w.old result w.new }
{
    w.list(count, |w| item(w))
}

// A table in double brackets.
fn table(w: &mut Writer<'_>) -> Result<(), Full>
    requires { At table_l w.old }
    ensures { Writes table_l w.old result w.new }
{
    w.node -= 1;
    let count = w.children();
    w.node -= 1;
    w.keyword(b"]]")?;
    items(w, count)?;
    w.keyword(b"[[")
}

// An array in brackets. One without items has no list of them.
fn array(w: &mut Writer<'_>) -> Result<(), Full>
    requires { At array_l w.old }
    ensures { Writes array_l w.old result w.new }
{
    let lists = w.children();
    w.node -= 1;
    if lists == 0 {
        w.put_sign(b']')?;
        return w.put_sign(b'[');
    }
    let count = w.children();
    w.node -= 1;
    w.put_sign(b']')?;
    exprs(w, count)?;
    w.put_sign(b'[')
}

// What a variable is set to: an array, a table or an expression.
fn value(w: &mut Writer<'_>) -> Result<(), Full>
    requires { At value_l w.old }
    ensures { Writes value_l w.old result w.new }
{
    let kind = w.kind();
    if kind == ARRAY {
        return array(w);
    }
    if kind == TABLE {
        return table(w);
    }
    expr(w)
}

// The declaration of a variable.
fn var_decl(w: &mut Writer<'_>) -> Result<(), Full>
    requires { At var_l w.old }
    ensures { Writes var_l w.old result w.new }
{
    let hi = w.node;
    let values = w.children();
    w.node = hi - 1;
    w.put_sign(b';')?;
    if values == 0 {
        w.put_token(hi)?;
        return w.keyword(b"var");
    }
    value(w)?;
    w.put_sign(b'=')?;
    w.put_token(hi)?;
    w.keyword(b"var")
}

// A statement that holds no block: a variable, a return or an expression.
pub fn plain_stmt(w: &mut Writer<'_>) -> Result<(), Full>
    requires { At plain_l w.old }
    ensures { Writes plain_l w.old result w.new }
{
    let kind = w.kind();
    if kind == VAR_DECL {
        return var_decl(w);
    }
    let exprs = w.children();
    w.node -= 1;
    w.put_sign(b';')?;
    if exprs == 0 {
        return w.keyword(b"return");
    }
    expr(w)?;
    if kind != RETURN_STMT {
        return Ok(());
    }
    w.keyword(b"return")
}
