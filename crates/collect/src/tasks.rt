// The definitions of the wanted tasks.
ghost use Rattle.std.specs.Prelude.{IfOk};
ghost use Rattle.std.specs.List.{AllByRecursion};
ghost use Rattle.collect.specs.Tasks.{IsDefined};
ghost use Rattle.collect.specs.Listings.{ArePaired};
ghost use Rattle.collect.specs.Steps.{OnlyMemory, IsTaskOf};

use crate::{CollectErr, Wanted};
use std::alloc::Global;
use task_definitions::Config;
use task_inputs::DefinedTask;
use turbo_config::{TaskDef, TaskId};
use workspaces::Packages;

/// The task by its owner's number and its definition.
fn defined_task(
    alloc: Global,
    packages: &Packages,
    config: &Config,
    id: &TaskId,
) -> Result<DefinedTask, CollectErr>
    requires { IsDefined config.now packages.now id.now }
    ensures value { IfOk result (IsTaskOf config.now packages.now id.now) }
    ensures memory { OnlyMemory result }
{
    let owner = match packages.owner_of(&id.package) {
        Some(owner) => owner,
        None => unreachable!(),
    };
    match config.task_def(alloc, packages.name(owner), &id.task)? {
        Some(def) => Ok(DefinedTask { owner, def }),
        None => unreachable!(),
    }
}

/// The wanted tasks by their owners' numbers and their definitions.
pub(crate) fn defined_tasks(
    alloc: Global,
    packages: &Packages,
    config: &Config,
    wanted: &[Wanted],
) -> Result<Vec<DefinedTask>, CollectErr>
    requires { AllByRecursion (λ w. IsDefined config.now packages.now w.id) wanted.now }
    ensures value { IfOk result (λ tasks. ArePaired
        (λ w t. IsTaskOf config.now packages.now w.id t) wanted.now tasks.items) }
    ensures memory { OnlyMemory result }
{
    let mut tasks = Vec::new(alloc);
    for task in wanted {
        tasks.push(defined_task(alloc, packages, config, &task.id)?)?;
    }
    Ok(tasks)
}
