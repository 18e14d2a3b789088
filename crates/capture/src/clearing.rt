// Removing what a task owns.
ghost use Rattle.std.specs.Prelude.{◌≡◌, ◌≤◌, OnOk, IfOk};
ghost use Rattle.tree_dev.specs.Tree.{Keeps, Looks};
ghost use Rattle.globs.specs.Outputs.{takes};
ghost use Rattle.globs.specs.OwnedFiles.{cleared};
ghost use Rattle.capture.specs.Owned.{NoneHeld, ListsOwned};
ghost use Rattle.globs.specs.OwnedFiles.{SameOutside};
ghost use Rattle.capture.specs.Cause.{HasCause};

use crate::CapErr;
use crate::choices::Own;
use globs::OutSet;
use rel_path::Paths;
use std::alloc::Global;
use tree_dev::{DevErr, Tree};
use tree_walk::{Bounds, WalkErr, gather};

// The owned files, in order.
pub(crate) fn owned_paths<T: Tree>(
    alloc: Global,
    tree: &mut T,
    outs: &OutSet,
) -> Result<Paths, CapErr>
    requires free { NoneHeld (takes outs.now) (T.state tree.old).held }
    ensures looks { Looks (T.state tree.old) (T.state tree.new) }
    ensures lists { IfOk result (ListsOwned T.tells (T.state tree.old).files outs.now) }
    ensures cause { HasCause (T.state tree.old).faults (T.state tree.new).faults result }
{
    let bounds = Bounds {
        depth: usize::MAX,
        most: usize::MAX,
    };
    if outs.folder.components().len() >= bounds.depth {
        return Err(CapErr::OutOfMemory);
    }
    let own = Own { outs };
    let mut found = Paths::new(alloc);
    match gather(alloc, tree, &own, &bounds, &outs.folder, &mut found) {
        Ok(()) => Ok(found),
        Err(WalkErr::Failed) => Err(CapErr::Failed),
        Err(_) => Err(CapErr::OutOfMemory),
    }
}

/// Removes the files that the task owns. No such path may be held. It lists the package's folders once and reads no file.
/// Every other path is as before, whatever it answers.
pub fn clear<T: Tree>(alloc: Global, tree: &mut T, outs: &OutSet) -> Result<(), CapErr>
    requires free { NoneHeld (takes outs.now) (T.state tree.old).held }
    ensures keeps { Keeps (T.state tree.old) (T.state tree.new) }
    ensures reach { (T.state tree.new).reach ≤ (T.state tree.old).reach }
    ensures others { T.tells
        → SameOutside outs.now (T.state tree.old).files (T.state tree.new).files }
    ensures cleared { T.tells → OnOk result
        ((T.state tree.new).files ≡ cleared outs.now (T.state tree.old).files) }
    ensures cause { HasCause (T.state tree.old).faults (T.state tree.new).faults result }
{
    let paths = match owned_paths(alloc, tree, outs) {
        Ok(paths) => paths,
        Err(e) => return Err(e),
    };
    for path in paths.as_slice() {
        match tree.remove(alloc, path) {
            Ok(()) => {}
            Err(DevErr::Failed) => return Err(CapErr::Failed),
            Err(DevErr::OutOfMemory) => return Err(CapErr::OutOfMemory),
        }
    }
    Ok(())
}
