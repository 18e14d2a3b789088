// The tasks whose parts a run wants.
ghost use Rattle.std.specs.Prelude.{◌≡◌, length, IfOk};
ghost use Rattle.turbo_config.specs.declared.task_id.TaskId.{TaskId};
ghost use Rattle.task_graph.specs.Ids.{has};
ghost use Rattle.planner.specs.Wanted as spec;

use collect::Wanted;
use rel_path::{Places, Texts};
use std::alloc::{AllocError, Global};
use std::collections::BTreeSet;
use task_graph::PlanList;
use turbo_config::TaskId;

/// The tasks as a set.
pub(crate) fn set_of(alloc: Global, tasks: Vec<TaskId>) -> Result<BTreeSet<TaskId>, AllocError>
    ensures value { IfOk result (λ set. (id : TaskId) → has set.keys id ≡ has tasks.items id) }
{
    let mut set = BTreeSet::new(alloc);
    for task in tasks {
        set.insert(task)?;
    }
    Ok(set)
}

/// The words behind `--`, for a task that is named.
fn args_for(
    alloc: Global,
    entries: &BTreeSet<TaskId>,
    args: &Texts,
    id: &TaskId,
) -> Result<Texts, AllocError>
    ensures value { IfOk result
        (λ words. words ≡ spec.args_for entries.now.keys args.now id.now) }
{
    if entries.contains(id) {
        return Ok(args.copy()?);
    }
    Ok(Texts::new(alloc))
}

fn wanted_at(
    alloc: Global,
    entries: &BTreeSet<TaskId>,
    args: &Texts,
    id: &TaskId,
    deps: &Places,
) -> Result<Wanted, AllocError>
    ensures value { IfOk result
        (λ wanted. wanted ≡ spec.wanted_at entries.now.keys args.now id.now deps.now) }
{
    let args = args_for(alloc, entries, args, id)?;
    let package = id.package.copy()?;
    let task = id.task.copy()?;
    let deps = deps.copy()?;
    Ok(Wanted {
        id: TaskId { package, task },
        args,
        deps,
    })
}

/// Each planned task with its words and the places of what it depends on.
pub(crate) fn wanted_of(
    alloc: Global,
    entries: &BTreeSet<TaskId>,
    args: &Texts,
    list: &PlanList,
) -> Result<Vec<Wanted>, AllocError>
    requires { length list.now.deps ≡ length list.now.ids }
    ensures value { IfOk result
        (λ wanted. wanted.items ≡ spec.wanted_of entries.now.keys args.now list.now) }
{
    let deps = list.deps.as_slice();
    let mut wanted = Vec::new(alloc);
    for (place, id) in list.ids.as_slice().iter().enumerate() {
        wanted.push(wanted_at(alloc, entries, args, id, &deps[place])?)?;
    }
    Ok(wanted)
}
