// A task of a graph.
ghost use Rattle.std.specs.Prelude.{◌≡◌, IfOk};
ghost use Rattle.task_graph.specs.Memory.{OnlyMemory};

use crate::GraphErr;
use std::alloc::Global;
use turbo_config::{TaskId, TaskIds};

/// A task with the tasks that it depends on, ascending.
#[derive(Debug, Drop)]
pub struct Node {
    pub id: TaskId,
    pub deps: TaskIds,
}

pub(crate) fn copied(id: &TaskId) -> Result<TaskId, GraphErr>
    ensures value { IfOk result (λ copy. copy ≡ id.now) }
    ensures memory { OnlyMemory result }
{
    let package = id.package.copy()?;
    let task = id.task.copy()?;
    Ok(TaskId { package, task })
}

/// The tasks as a small list.
pub(crate) fn listed(alloc: Global, tasks: Vec<TaskId>) -> Result<TaskIds, GraphErr>
    ensures value { IfOk result (λ list. list ≡ tasks.items) }
    ensures memory { OnlyMemory result }
{
    let mut list = TaskIds::new(alloc);
    for task in tasks {
        list.push(task)?;
    }
    Ok(list)
}
