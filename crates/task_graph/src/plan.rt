// The tasks of a graph in plan order.
ghost use Rattle.std.specs.Prelude.{◌≡◌, length, map, IfOk};
ghost use Rattle.workspaces.specs.Reach.{AreBelow};
ghost use Rattle.task_graph.specs.Rows.{id_at};
ghost use Rattle.task_graph.specs.Sorting.{slot_at};
ghost use Rattle.task_graph.specs.Memory.{OnlyMemory};

use crate::node::copied;
use crate::slots::Slot;
use crate::{GraphErr, Node, PlaceLists};
use std::alloc::Global;
use turbo_config::TaskIds;

/// The tasks of a graph in plan order, and for each the places in it of the tasks that it depends on, ascending.
#[derive(Debug, Drop)]
pub struct PlanList {
    pub ids: TaskIds,
    pub deps: PlaceLists,
}

/// The tasks of these numbers.
pub(crate) fn ids_at(alloc: Global, nodes: &[Node], numbers: &[u32]) -> Result<TaskIds, GraphErr>
    requires { AreBelow (length nodes.now) numbers.now }
    ensures value { IfOk result (λ ids. ids ≡ map (id_at nodes.now) numbers.now) }
    ensures memory { OnlyMemory result }
{
    let mut ids = TaskIds::new(alloc);
    for number in numbers {
        ids.push(copied(&nodes[*number as usize].id)?)?;
    }
    Ok(ids)
}

/// The tasks in this order, with the places of what they depend on.
pub(crate) fn plan_of(
    alloc: Global,
    nodes: &[Node],
    order: &[u32],
    slots: &[Slot],
) -> Result<PlanList, GraphErr>
    requires nodes { AreBelow (length nodes.now) order.now }
    requires slots { AreBelow (length slots.now) order.now }
    ensures ids { IfOk result (λ plan. plan.ids ≡ map (id_at nodes.now) order.now) }
    ensures deps { IfOk result
        (λ plan. plan.deps ≡ map (λ n. (slot_at slots.now n).places) order.now) }
    ensures memory { OnlyMemory result }
{
    let mut deps = PlaceLists::new(alloc);
    for number in order {
        deps.push(slots[*number as usize].places.copy()?)?;
    }
    let ids = ids_at(alloc, nodes, order)?;
    Ok(PlanList { ids, deps })
}
