// What is known of a run before a file is read.
ghost use Rattle.std.specs.Prelude.{◌≡◌, ◌<◌, ◌^◌, true, length, IfOk, IfErr};
ghost use Rattle.std.specs.List.{AllByRecursion};
ghost use Rattle.task_graph.specs.Tasks.{has_def};
ghost use Rattle.repository.specs.Reading.{contents_of};
ghost use Rattle.planner.specs.Steps.{AreInOrder, Before, Ends, IsPrepared, NoMore};

use crate::graphing::{check_ends, expansion_of, order_of};
use crate::selection::{asks_all, selected_packages};
use crate::wanted::{set_of, wanted_of};
use cli_words::RunOrder;
use collect::Wanted;
use refusals::Stop;
use repository::Repository;
use std::alloc::Global;
use task_graph::{PlanList, plan_law, tasks_law};

/// The tasks in plan order, and what is wanted of each.
#[derive(Drop)]
pub(crate) struct Prepared {
    pub(crate) list: PlanList,
    pub(crate) wanted: Vec<Wanted>,
}

/// The planned tasks, or the first reason why there are none: filters are tried first, then the tasks that are named, what
/// these depend on, cycles, and tasks that do not end.
pub(crate) fn prepare(
    alloc: Global,
    repository: &Repository,
    order: &RunOrder,
) -> Result<Prepared, Stop>
    ensures prepared { IfOk result (IsPrepared (contents_of repository.now) order.now) }
    ensures ends { IfErr result
        (Ends (Before (contents_of repository.now) order.now (λ selected. NoMore))) }
    ensures order { IfOk result
        (λ p. AreInOrder repository.now.config repository.now.packages p.wanted.items) }
    ensures defined { IfOk result
        (λ p. AllByRecursion (λ id. has_def repository.now.config id ≡ true) p.list.ids) }
    ensures same { IfOk result (λ p. length p.list.deps ≡ length p.list.ids) }
    ensures few { IfOk result (λ p. length p.list.ids < 2 ^ 32) }
{
    tasks_law();
    plan_law();
    let (packages, config) = (&repository.packages, &repository.config);
    let selected = match selected_packages(alloc, &order.filters, packages) {
        Ok(selected) => selected,
        Err(e) => return Err(e),
    };
    let all = asks_all(&order.filters);
    let expansion = match expansion_of(alloc, &order.tasks, &selected, all, packages, config) {
        Ok(expansion) => expansion,
        Err(e) => return Err(e),
    };
    let graph = expansion.graph;
    let list = match order_of(alloc, &graph) {
        Ok(list) => list,
        Err(e) => return Err(e),
    };
    match check_ends(alloc, &graph, packages, config) {
        Ok(()) => {}
        Err(e) => return Err(e),
    }
    let entries = set_of(alloc, expansion.entries)?;
    let wanted = wanted_of(alloc, &entries, &order.args, &list)?;
    Ok(Prepared { list, wanted })
}
