// Which tasks there are.
ghost use Rattle.workspaces.specs.Reach.{AreBelow};
ghost use Rattle.workspaces.specs.Space.{owners};
ghost use Rattle.std.specs.Prelude.{◌≡◌, ◌++◌, length, IfOk, OnOk, None, Some, if◌then◌else◌};
ghost use Rattle.task_graph.specs.Tasks as spec;
ghost use Rattle.task_graph.specs.Memory.{OnlyMemory};

use crate::GraphErr;
use rel_path::Text;
use std::alloc::Global;
use task_definitions::Config;
use turbo_config::TaskId;
use workspaces::Packages;

/// Whether the task has a definition.
pub(crate) fn has_def(alloc: Global, config: &Config, id: &TaskId) -> Result<bool, GraphErr>
    ensures value { IfOk result (λ has. has ≡ spec.has_def config.now id.now) }
    ensures memory { OnlyMemory result }
{
    let def = config.task_def(alloc, &id.package, &id.task)?;
    Ok(def.is_some())
}

/// Whether its package is there, or it is one of the root, and it has a definition.
pub(crate) fn is_task(
    alloc: Global,
    packages: &Packages,
    config: &Config,
    id: &TaskId,
) -> Result<bool, GraphErr>
    ensures value { IfOk result (λ is. is ≡ spec.is_task packages.now config.now id.now) }
    ensures memory { OnlyMemory result }
{
    if packages.owner_of(&id.package).is_none() {
        return Ok(false);
    }
    has_def(alloc, config, id)
}

/// The task that a text `package#task` names, if it is one.
pub(crate) fn full_id(alloc: Global, text: &str) -> Result<Option<TaskId>, GraphErr>
    ensures value { IfOk result
        (λ id. id ≡ (if spec.is_full text.now then Some (spec.full_id text.now) else None)) }
    ensures memory { OnlyMemory result }
{
    match text.split_once('#') {
        None => Ok(None),
        Some((package, task)) => {
            let package = Text::read(alloc, package)?;
            let task = Text::read(alloc, task)?;
            Ok(Some(TaskId { package, task }))
        }
    }
}

/// Adds the task of that name of each of these owners, where it has a definition.
pub(crate) fn add_tasks(
    alloc: Global,
    packages: &Packages,
    config: &Config,
    places: &[u32],
    name: &Text,
    tasks: &mut Vec<TaskId>,
) -> Result<(), GraphErr>
    requires { AreBelow (length (owners packages.now)) places.now }
    ensures added { OnOk result (tasks.new.items ≡ tasks.old.items
        ++ spec.tasks_in (owners packages.now) config.now places.now name.now) }
    ensures memory { OnlyMemory result }
{
    for owner in places {
        let package = packages.name(*owner).copy()?;
        let task = name.copy()?;
        let id = TaskId { package, task };
        if has_def(alloc, config, &id)? {
            tasks.push(id)?;
        }
    }
    Ok(())
}
