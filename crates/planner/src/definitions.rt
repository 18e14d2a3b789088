// The definitions of the planned tasks.
ghost use Rattle.std.specs.Prelude.{◌≡◌, true, Some, IfOk};
ghost use Rattle.std.specs.List.{AllByRecursion};
ghost use Rattle.task_definitions.specs.Setup.{task_def};
ghost use Rattle.task_graph.specs.Tasks.{has_def};
ghost use Rattle.collect.specs.Listings.{ArePaired};

use run_plan::TaskDefs;
use std::alloc::{AllocError, Global};
use task_definitions::Config;
use turbo_config::{TaskDef, TaskId};

/// The definition of a task that has one.
fn def_of(alloc: Global, config: &Config, id: &TaskId) -> Result<TaskDef, AllocError>
    requires { has_def config.now id.now ≡ true }
    ensures value { IfOk result
        (λ def. task_def config.now id.now.«package» id.now.task ≡ Some def) }
{
    match config.task_def(alloc, &id.package, &id.task) {
        Ok(Some(def)) => Ok(def),
        Ok(None) => unreachable!(),
        Err(_) => Err(AllocError),
    }
}

/// The definition of each task.
pub(crate) fn defs_of(
    alloc: Global,
    config: &Config,
    ids: &[TaskId],
) -> Result<TaskDefs, AllocError>
    requires { AllByRecursion (λ id. has_def config.now id ≡ true) ids.now }
    ensures value { IfOk result
        (ArePaired (λ id def. task_def config.now id.«package» id.task ≡ Some def) ids.now) }
{
    let mut defs = TaskDefs::new(alloc);
    for id in ids {
        match defs.push(def_of(alloc, config, id)?) {
            Ok(()) => {}
            Err(_) => return Err(AllocError),
        }
    }
    Ok(defs)
}
