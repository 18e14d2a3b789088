// A topological order by numbers.
ghost use Rattle.std.specs.Prelude.{IfOk};
ghost use Rattle.task_graph.specs.Rows.{AreRows};
ghost use Rattle.task_graph.specs.Sorting.{IsSorted};
ghost use Rattle.task_graph.specs.Memory.{OnlyMemory};

use crate::GraphErr;
use crate::slots::{Slot, ready_of, settle, slots_of, wake};
use rel_path::Places;
use std::alloc::Global;
use workspaces::users_of;

/// An order that nothing can follow, with what is counted of each task.
#[derive(Drop)]
pub(crate) struct Sorting {
    pub(crate) order: Vec<u32>,
    pub(crate) slots: Vec<Slot>,
}

/// The tasks in plan order, as far as there is one. The row of each task lists what it depends on.
pub(crate) fn sorted(alloc: Global, rows: &[Places]) -> Result<Sorting, GraphErr>
    requires { AreRows rows.now }
    ensures sorted { IfOk result
        (λ sorting. IsSorted rows.now sorting.order.items sorting.slots.items) }
    ensures memory { OnlyMemory result }
{
    let users = users_of(alloc, rows)?;
    let mut slots = slots_of(alloc, rows)?;
    let mut ready = ready_of(alloc, rows)?;
    let mut order = Vec::new(alloc);
    while let Some(task) = ready.pop_first() {
        let users = users[task as usize].as_slice();
        settle(&mut slots, users, order.len() as u32)?;
        wake(&mut ready, slots.as_slice(), users)?;
        order.push(task)?;
    }
    Ok(Sorting { order, slots })
}
