// Tasks that do not end by themselves.
ghost use Rattle.std.specs.Prelude.{◌≡◌, IfOk};
ghost use Rattle.workspaces.specs.Edges.{has_name};
ghost use Rattle.task_graph.specs.Persistent as spec;
ghost use Rattle.task_graph.specs.Memory.{OnlyMemory};

use crate::GraphErr;
use rel_path::{Pairs, Text};
use std::alloc::Global;
use task_definitions::Config;
use turbo_config::TaskId;
use workspaces::Packages;

fn has_name(pairs: &Pairs, name: &Text) -> bool
    ensures { result ≡ has_name name.now pairs.now }
{
    for pair in pairs.as_slice() {
        if pair.0 == *name {
            return true;
        }
    }
    false
}

/// Whether the manifest of the task's package, or the root's for a task of the root, has a script of the task's name.
pub(crate) fn has_script(packages: &Packages, id: &TaskId) -> bool
    ensures { result ≡ spec.has_script packages.now id.now }
{
    match packages.owner_of(&id.package) {
        Some(owner) => has_name(&packages.manifest(owner).scripts, &id.task),
        None => false,
    }
}

/// Whether the task has a script, and is `persistent`, is `interactive` or has `with`.
#[tactic(auto, unfolding(crate::specs::Persistent::is_persistent))]
pub(crate) fn is_persistent(
    alloc: Global,
    packages: &Packages,
    config: &Config,
    id: &TaskId,
) -> Result<bool, GraphErr>
    ensures value { IfOk result (λ is. is ≡ spec.is_persistent packages.now config.now id.now) }
    ensures memory { OnlyMemory result }
{
    if !has_script(packages, id) {
        return Ok(false);
    }
    match config.task_def(alloc, &id.package, &id.task)? {
        Some(def) => {
            Ok(def.persistent || def.interactive || !def.with_tasks.as_slice().is_empty())
        }
        None => Ok(false),
    }
}
