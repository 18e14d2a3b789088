// The numbers of what each task depends on.
ghost use Rattle.std.specs.Prelude.{◌≡◌, ◌<◌, true, length, IfOk, map};
ghost use Rattle.std.specs.List.{AllByRecursion};
ghost use Rattle.task_graph.specs.Nodes.{is_in_graph};
ghost use Rattle.task_graph.specs.Inside.{IsWhole};
ghost use Rattle.task_graph.specs.Rows.{id_at, AreRows, IsNumbered};
ghost use Rattle.workspaces.specs.Reach.{AreBelow};
ghost use Rattle.task_graph.specs.Memory.{OnlyMemory};

use crate::{GraphErr, Node};
use rel_path::Places;
use std::alloc::Global;
use turbo_config::TaskId;

/// The numbers of tasks of the graph.
fn row_of(alloc: Global, nodes: &[Node], tasks: &[TaskId]) -> Result<Places, GraphErr>
    requires whole { IsWhole nodes.now }
    requires inner { AllByRecursion (λ id. is_in_graph nodes.now id ≡ true) tasks.now }
    ensures value { IfOk result (λ row. map (id_at nodes.now) row ≡ tasks.now) }
    ensures below { IfOk result (AreBelow (length nodes.now)) }
    ensures memory { OnlyMemory result }
{
    let mut row = Places::new(alloc);
    for task in tasks {
        if let Ok(place) = nodes.binary_search_by(|node| node.id.cmp(task)) {
            row.push(place as u32)?;
        }
    }
    Ok(row)
}

/// For each task the numbers of what it depends on, ascending.
pub(crate) fn rows_of(alloc: Global, nodes: &[Node]) -> Result<Vec<Places>, GraphErr>
    requires { IsWhole nodes.now }
    ensures rows { IfOk result (λ rows. AreRows rows.items) }
    ensures numbered { IfOk result (λ rows. IsNumbered nodes.now rows.items) }
    ensures memory { OnlyMemory result }
{
    let mut rows = Vec::new(alloc);
    for node in nodes {
        rows.push(row_of(alloc, nodes, node.deps.as_slice())?)?;
    }
    Ok(rows)
}
