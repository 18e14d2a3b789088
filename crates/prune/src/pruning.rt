// Pruning.
ghost use Rattle.std.specs.Prelude.{◌≡◌, false};
ghost use Rattle.rel_path.specs.Paths.{Path};
ghost use Rattle.tree_dev.specs.Tree.{Keeps};
ghost use Rattle.tree_walk.specs.Walked.{IsWalk};
ghost use Rattle.workspaces.specs.Space.{lies_below};
ghost use Rattle.repository.specs.Reading.{contents_of};
ghost use Rattle.prune.specs.Answers.{Leaves};
ghost use Rattle.prune.specs.Cause.{HasCause, counts_of};
ghost use Rattle.prune.specs.Folders.{out_folder};
ghost use Rattle.prune.specs.Printed.{Prints};

use crate::PruneErr;
use crate::lines::put_lines;
use crate::planning::plan_for;
use crate::writing::write_plan;
use rel_path::Texts;
use repository::Repository;
use std::alloc::Global;
use tree_dev::{Sink, Tree};

/// Writes the files of the repository that the packages of these names need below `out`, and puts a line for each
/// package that stays. For containers all files are written below the folder `full` in `out`, and below `json` those
/// that an installation needs (Turborepo docs, "prune", `--docker`). It always returns.
///
/// Files are written in the order of their paths, and the lines are put after the last. A file that is no longer there
/// is passed over.
///
/// # Errors
/// What is tried comes in this order, and nothing is written before the first four:
///
/// 1. `NoPackage`: the first name that is that of no package;
/// 2. `OutTaken`: the first walked file below `out`;
/// 3. `Missing`: of the owners that stay, in the order of their names, the first that misses a name in the lockfile that
///    is neither optional nor a peer, with the least such name;
/// 4. `TooLarge`: the first file over 256 MiB; those in front of it were written;
/// 5. `TreeFailed` and `SinkFailed`, where the count of faults of the tree or the sink rose.
pub fn prune<T: Tree, K: Sink>(
    alloc: Global,
    targets: &Texts,
    docker: bool,
    tree: &mut T,
    repository: &Repository,
    out: &mut K,
) -> Result<(), PruneErr>
    requires free { (path : Path) → (T.state tree.old).held path ≡ false }
    requires walk { IsWalk repository.now.walk }
    ensures keeps { Keeps (T.state tree.old) (T.state tree.new) }
    ensures leaves { T.tells → Leaves docker (contents_of repository.now) targets.now
        (T.state tree.old).files (T.state tree.new).files result }
    ensures elsewhere { T.tells → (path : Path) → lies_below path out_folder ≡ false
        → (T.state tree.new).files path ≡ (T.state tree.old).files path }
    ensures prints { K.tells → Prints (contents_of repository.now) targets.now
        (K.written out.old) (K.written out.new) result }
    ensures cause { HasCause (counts_of (T.state tree.old).faults (K.faults out.old))
        (counts_of (T.state tree.new).faults (K.faults out.new)) result }
{
    let plan = match plan_for(alloc, targets, repository) {
        Ok(plan) => plan,
        Err(e) => return Err(e),
    };
    match write_plan(alloc, docker, tree, &plan) {
        Ok(()) => {}
        Err(e) => return Err(e),
    }
    put_lines(alloc, out, &repository.packages, plan.kept.as_slice())
}
