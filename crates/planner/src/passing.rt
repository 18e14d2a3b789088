// The variables that are passed on to the commands beside those that count.
ghost use Rattle.std.specs.Prelude.{◌≡◌, Some, ℕ, [], length, IfOk, slice_get, slice_index_or};
ghost use Rattle.env_select.specs.Choice.{IsChosen, is_given};
ghost use Rattle.turbo_config.specs.declared.entry.TaskDef.{TaskDef};
ghost use Rattle.run_laws.specs.Ancestors.{blank};

use env_select::{EnvList, EnvMode, given};
use listing::Part;
use rel_path::{Pairs, Text};
use run_plan::PairLists;
use std::alloc::{AllocError, Global};
use turbo_config::TaskDef;

/// The variables that are passed on to the task's command beside those of its part.
fn given_for(
    alloc: Global,
    mode: EnvMode,
    global: &EnvList,
    env: &[(Text, Text)],
    def: &TaskDef,
    part: &Part,
) -> Result<Pairs, AllocError>
    ensures value { IfOk result
        (IsChosen (is_given mode def.now.pass global.now part.now.env) env.now) }
{
    let Ok(own) = EnvList::read(alloc, &def.pass) else {
        return Err(AllocError);
    };
    match given(alloc, &own, global, &part.env, env, mode) {
        Ok(pairs) => Ok(pairs),
        Err(_) => Err(AllocError),
    }
}

/// The variables that are passed on to the command of each task.
pub(crate) fn all_given(
    alloc: Global,
    mode: EnvMode,
    global: &EnvList,
    env: &[(Text, Text)],
    defs: &[TaskDef],
    parts: &[Part],
) -> Result<PairLists, AllocError>
    requires { length parts.now ≡ length defs.now }
    ensures same { IfOk result (λ lists. length lists ≡ length defs.now) }
    ensures value { IfOk result (λ lists. (t : ℕ) (def : TaskDef) → slice_get defs.now t ≡ Some def
        → IsChosen (is_given mode def.pass global.now (slice_index_or parts.now t blank).env)
        env.now
        (slice_index_or lists t [])) }
{
    let mut lists = PairLists::new(alloc);
    for (place, def) in defs.iter().enumerate() {
        match lists.push(given_for(alloc, mode, global, env, def, &parts[place])?) {
            Ok(()) => {}
            Err(_) => return Err(AllocError),
        }
    }
    Ok(lists)
}
