// A list whose items something else reads: param_list of parser.rs.
ghost use Rattle.std.specs.Prelude.{◌≤◌, IfOk};
ghost use Rattle.sifc_def.specs.State.{Ctx, Void};
ghost use Rattle.sifc_def.specs.Expr.{fuel, param_list};
ghost use Rattle.sifc_step.specs.Abs.{Ready, Does};
ghost use Rattle.sifc_step.specs.Items.{Sight, seen, OnlyBuilds, ReadsAs, Lists, AppendsAs, Builds};

use crate::walk::{Parser, Stop};
use sifc_def::Why;
use sifc_err::Message;
use sifc_word::kind::{EOF, RIGHT_PAREN};

// FN_PARAM_MAX_LEN
const FN_PARAM_MAX_LEN: usize = 64;

// The parameters of a function or the arguments of a call, each read by `item`: how many there are.
pub fn param_list<F: Fn(&mut Parser<'_>) -> Result<(), Stop>>(
    p: &mut Parser<'_>,
    item: F,
) -> Result<usize, Stop>
    requires { Lists (F.pre item) (F.post item) p.old }
    ensures does { (v : Sight) → (def : Ctx → Void) → ReadsAs v (F.post item) def → Ready (seen v p.old) → Does 0 (λ c. param_list c (def c) (fuel c) 0) (seen v p.old) result (seen v p.new) }
    ensures few { IfOk result (λ n. n ≤ 64) }
    ensures nodes { (v : Sight) → (def : Ctx → Void) → ReadsAs v (F.post item) def → AppendsAs v (F.post item) → Ready (seen v p.old) → IfOk result (λ n. n ≤ p.new.nodes) }
    ensures alone { Builds (F.post item) → OnlyBuilds p.old p.new }
{
    // The tokens end the loop, in three ways, and not a number of turns: a `for` would be no plainer.
    let mut n = 0;
    loop {
        let k = p.kind();
        if k == RIGHT_PAREN {
            return Ok(n);
        }
        if n >= FN_PARAM_MAX_LEN {
            return Err(p.add_error(Why::FnParmCntExceeded(FN_PARAM_MAX_LEN)));
        }
        if k == EOF {
            return Err(p.add_error(Why::InvalidTknMsg(Message::EndOfFile as u32)));
        }
        item(p)?;
        p.separator()?;
        n += 1;
    }
}
