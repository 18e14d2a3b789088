// The definitions of tasks.
ghost use Rattle.std.specs.Prelude.{◌≡◌, IfOk};
ghost use Rattle.listing.specs.Memory.{OnlyMemory};
ghost use Rattle.task_definitions.specs.Setup.{task_def};

use listing::ListErr;
use rel_path::Text;
use std::alloc::Global;
use task_definitions::Config;
use turbo_config::TaskDef;

/// A task, by its owner's number and its definition.
#[derive(Debug, Drop)]
pub struct DefinedTask {
    pub owner: u32,
    pub def: TaskDef,
}

/// The definition of a task of an owner of this name, if it has one.
pub(crate) fn definition(
    alloc: Global,
    config: &Config,
    owner: &Text,
    task: &Text,
) -> Result<Option<TaskDef>, ListErr>
    ensures value { IfOk result (λ def. def ≡ task_def config.now owner.now task.now) }
    ensures memory { OnlyMemory result }
{
    match config.task_def(alloc, owner, task) {
        Ok(def) => Ok(def),
        Err(_) => Err(ListErr::OutOfMemory),
    }
}
