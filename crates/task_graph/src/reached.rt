// The tasks that a graph has.
ghost use Rattle.std.specs.Prelude.{◌≡◌, ◌++◌, List, IfOk, OnOk};
ghost use Rattle.turbo_config.specs.declared.task_id.TaskId.{TaskId};
ghost use Rattle.task_graph.specs.Graphs.{AreTasks};
ghost use Rattle.task_graph.specs.Fronts.{AreRowsOf, Visits};
ghost use Rattle.task_graph.specs.Memory.{OnlyMemory};

use crate::GraphErr;
use crate::edges::{Row, row_of};
use crate::node::copied;
use std::alloc::Global;
use std::collections::BTreeMap;
use task_definitions::Config;
use turbo_config::TaskId;
use workspaces::Packages;

/// The tasks that were found, with what they depend on, and those that are still to be looked at.
#[derive(Drop)]
pub(crate) struct Front {
    pub(crate) rows: BTreeMap<TaskId, Row>,
    pub(crate) waiting: Vec<TaskId>,
}

fn add_waiting(waiting: &mut Vec<TaskId>, tasks: &[TaskId]) -> Result<(), GraphErr>
    ensures added { OnOk result (waiting.new.items ≡ waiting.old.items ++ tasks.now) }
    ensures memory { OnlyMemory result }
{
    for task in tasks {
        waiting.push(copied(task)?)?;
    }
    Ok(())
}

/// Looks at a task, where it is new: what it depends on waits to be looked at.
fn visit(
    alloc: Global,
    packages: &Packages,
    config: &Config,
    front: &mut Front,
    task: TaskId,
) -> Result<(), GraphErr>
    ensures visits { OnOk result (Visits packages.now config.now task
        front.old.rows.entries front.old.waiting.items
        front.new.rows.entries front.new.waiting.items) }
    ensures memory { OnlyMemory result }
{
    if front.rows.contains_key(&task) {
        return Ok(());
    }
    let row = row_of(alloc, packages, config, &task)?;
    add_waiting(&mut front.waiting, row.deps.as_slice())?;
    front.rows.insert(task, row)?;
    Ok(())
}

/// The tasks of the graph from these on, with what each depends on.
pub(crate) fn reached(
    alloc: Global,
    packages: &Packages,
    config: &Config,
    starts: &[TaskId],
) -> Result<Vec<(TaskId, Row)>, GraphErr>
    ensures reached { IfOk result (λ rows. (ids : List TaskId)
        × AreTasks packages.now config.now starts.now ids
        × AreRowsOf packages.now config.now ids rows.items) }
    ensures memory { OnlyMemory result }
{
    let mut front = Front {
        rows: BTreeMap::new(alloc),
        waiting: Vec::new(alloc),
    };
    add_waiting(&mut front.waiting, starts)?;
    // Memory ends long before this bound.
    for _turn in 0..u64::MAX {
        let Some(task) = front.waiting.pop() else {
            let rows: Vec<(TaskId, Row)> = front.rows.into_iter().collect(alloc)?;
            return Ok(rows);
        };
        visit(alloc, packages, config, &mut front, task)?;
    }
    Err(GraphErr::OutOfMemory)
}
