// The end of a declaration: the node and the name of a variable, a table or an array.
ghost use Rattle.std.specs.Prelude.{◌≤◌, ◌<◌};
ghost use Rattle.sifc_def.specs.Stmt.{declare_var};
ghost use Rattle.sifc_step.specs.Abs.{Ready};
ghost use Rattle.sifc_declare.specs.Promise.{freely, Declares, node_and_name, array_and_name};

use sifc_def::What;
use sifc_def::ast::{self, ARRAY_ITEMS, CHILD, VAR_DECL};
use sifc_err::Refusal;
use sifc_step::{Parser, head_word};

// The head words of an array: without items, and over the node of its items.
const EMPTY_ARRAY: u32 = ast::ARRAY;

const ARRAY: u32 = ast::ARRAY + CHILD;

// The end of var_decl: token i is declared, with n initial values.
pub fn declare_var(p: &mut Parser<'_>, i: usize, n: usize) -> Result<(), Refusal>
    requires { Ready (freely p.old) × (i < 65536) × (n ≤ 1) }
    ensures { Declares (λ c. declare_var c i n) p.old result p.new }
{
    let global = p.level == 0;
    p.push_node(head_word(VAR_DECL, global, n), i as u32)?;
    p.store_name(i, What::Variable(i, global))
}

// The node of a table or an array, and the name at token i.
pub fn declare_other(p: &mut Parser<'_>, i: usize, word: u32) -> Result<(), Refusal>
    requires { Ready (freely p.old) × (i < 65536) }
    ensures { Declares (λ c. node_and_name c word i) p.old result p.new }
{
    p.push_node(word, i as u32)?;
    p.store_name(i, What::Other)
}

// The end of array_decl: token i is declared, with n items.
pub fn declare_array(p: &mut Parser<'_>, i: usize, n: usize) -> Result<(), Refusal>
    requires { Ready (freely p.old) × (i < 65536) × (n ≤ 65536) }
    ensures { Declares (λ c. array_and_name c i n) p.old result p.new }
{
    if n == 0 {
        return declare_other(p, i, EMPTY_ARRAY);
    }
    p.push_node(head_word(ARRAY_ITEMS, false, n), 0)?;
    declare_other(p, i, ARRAY)
}
