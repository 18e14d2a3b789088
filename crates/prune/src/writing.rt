// The files of a plan, written.
ghost use Rattle.std.specs.Prelude.{◌≡◌, ℕ, false};
ghost use Rattle.rel_path.specs.Paths.{Path};
ghost use Rattle.tree_dev.specs.Tree.{Keeps};
ghost use Rattle.prune.specs.Cause.{HasCause, counts_of};
ghost use Rattle.prune.specs.Folders.{folder_of_all, json_folder};
ghost use Rattle.prune.specs.Steps.{CanBeWritten, IsPart, CopiesAll, WritesPlan, SameElsewhere};

use crate::PruneErr;
use crate::copying::copy_all;
use crate::out_folder::{folder_of_all, json_folder};
use crate::planning::Plan;
use std::alloc::Global;
use tree_dev::Tree;

/// All files, below `out` or the folder `full` in it.
fn write_full<T: Tree>(
    alloc: Global,
    docker: bool,
    tree: &mut T,
    plan: &Plan,
) -> Result<(), PruneErr>
    requires free { (path : Path) → (T.state tree.old).held path ≡ false }
    requires plan { CanBeWritten plan.now.paths }
    ensures keeps { Keeps (T.state tree.old) (T.state tree.new) }
    ensures elsewhere { T.tells
        → SameElsewhere (T.state tree.old).files (T.state tree.new).files }
    ensures copies { T.tells → CopiesAll plan.now.text (folder_of_all docker) plan.now.paths
        (T.state tree.old).files (T.state tree.new).files result }
    ensures cause { (sink : ℕ) → HasCause (counts_of (T.state tree.old).faults sink)
        (counts_of (T.state tree.new).faults sink) result }
{
    let folder = match folder_of_all(alloc, docker) {
        Ok(folder) => folder,
        Err(_) => return Err(PruneErr::OutOfMemory),
    };
    copy_all(
        alloc,
        tree,
        &folder,
        plan.text.as_ref(),
        plan.paths.as_slice(),
    )
}

/// The files that an installation needs, below the folder `json` in `out`.
fn write_layer<T: Tree>(alloc: Global, tree: &mut T, plan: &Plan) -> Result<(), PruneErr>
    requires free { (path : Path) → (T.state tree.old).held path ≡ false }
    requires plan { CanBeWritten plan.now.layer }
    ensures keeps { Keeps (T.state tree.old) (T.state tree.new) }
    ensures elsewhere { T.tells
        → SameElsewhere (T.state tree.old).files (T.state tree.new).files }
    ensures copies { T.tells → CopiesAll plan.now.text json_folder plan.now.layer
        (T.state tree.old).files (T.state tree.new).files result }
    ensures cause { (sink : ℕ) → HasCause (counts_of (T.state tree.old).faults sink)
        (counts_of (T.state tree.new).faults sink) result }
{
    let folder = match json_folder(alloc) {
        Ok(folder) => folder,
        Err(_) => return Err(PruneErr::OutOfMemory),
    };
    copy_all(
        alloc,
        tree,
        &folder,
        plan.text.as_ref(),
        plan.layer.as_slice(),
    )
}

/// All files of the plan, and for containers the layer that an installation needs.
pub(crate) fn write_plan<T: Tree>(
    alloc: Global,
    docker: bool,
    tree: &mut T,
    plan: &Plan,
) -> Result<(), PruneErr>
    requires free { (path : Path) → (T.state tree.old).held path ≡ false }
    requires paths { CanBeWritten plan.now.paths }
    requires layer { IsPart plan.now.layer plan.now.paths }
    ensures keeps { Keeps (T.state tree.old) (T.state tree.new) }
    ensures elsewhere { T.tells
        → SameElsewhere (T.state tree.old).files (T.state tree.new).files }
    ensures writes { T.tells → WritesPlan docker plan.now
        (T.state tree.old).files (T.state tree.new).files result }
    ensures cause { (sink : ℕ) → HasCause (counts_of (T.state tree.old).faults sink)
        (counts_of (T.state tree.new).faults sink) result }
{
    match write_full(alloc, docker, tree, plan) {
        Ok(()) => {}
        Err(e) => return Err(e),
    }
    if docker {
        write_layer(alloc, tree, plan)
    } else {
        Ok(())
    }
}
