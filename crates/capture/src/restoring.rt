// Putting back what a task had left.
ghost use Rattle.std.specs.Prelude.{◌≡◌, true, OnOk, IsTrue};
ghost use Rattle.std.specs.List.Sorted.{IsStrictlySortedBy};
ghost use Rattle.rel_path.specs.Paths.{Path, is_among, path_cmp};
ghost use Rattle.tree_dev.specs.Tree.{Keeps};
ghost use Rattle.globs.specs.Outputs.{takes};
ghost use Rattle.globs.specs.OwnedFiles.{restored};
ghost use Rattle.cache_api.specs.Artifacts.{ascends};
ghost use Rattle.globs.specs.OwnedFiles.{owns_all};
ghost use Rattle.capture.specs.Owned.{NoneHeld, paths_of};
ghost use Rattle.globs.specs.OwnedFiles.{SameOutside};
ghost use Rattle.capture.specs.Cause.{HasCause};

use crate::{CapErr, clear};
use cache_api::Artifact;
use globs::OutSet;
use rel_path::{Bytes, RelPath};
use std::alloc::Global;
use tree_dev::{DevErr, Tree};

/// Puts the artifact's files in the place of those that the task owns. The task owns all of them, their paths ascend, and
/// no path that it owns is held. Every other path is as before, whatever it answers.
pub fn restore<T: Tree>(
    alloc: Global,
    tree: &mut T,
    outs: &OutSet,
    artifact: &Artifact,
) -> Result<(), CapErr>
    requires free { NoneHeld (takes outs.now) (T.state tree.old).held }
    requires owns { IsTrue (owns_all outs.now artifact.now.files) }
    requires ascend { IsTrue (ascends artifact.now.files) }
    ensures keeps { Keeps (T.state tree.old) (T.state tree.new) }
    ensures others { T.tells
        → SameOutside outs.now (T.state tree.old).files (T.state tree.new).files }
    ensures restored { T.tells → OnOk result ((T.state tree.new).files
        ≡ restored outs.now artifact.now.files (T.state tree.old).files) }
    ensures cause { HasCause (T.state tree.old).faults (T.state tree.new).faults result }
{
    put_all(alloc, tree, outs, artifact.files.as_slice())
}

// Puts these files in the place of those that the task owns.
fn put_all<T: Tree>(
    alloc: Global,
    tree: &mut T,
    outs: &OutSet,
    stored: &[(RelPath, Bytes)],
) -> Result<(), CapErr>
    requires free { NoneHeld (takes outs.now) (T.state tree.old).held }
    requires fits { (path : Path) → is_among (paths_of stored.now) path ≡ true
        → takes outs.now path ≡ true }
    requires ascend { IsStrictlySortedBy path_cmp (paths_of stored.now) }
    ensures keeps { Keeps (T.state tree.old) (T.state tree.new) }
    ensures others { T.tells
        → SameOutside outs.now (T.state tree.old).files (T.state tree.new).files }
    ensures restored { T.tells → OnOk result
        ((T.state tree.new).files ≡ restored outs.now stored.now (T.state tree.old).files) }
    ensures cause { HasCause (T.state tree.old).faults (T.state tree.new).faults result }
{
    match clear(alloc, tree, outs) {
        Ok(()) => {}
        Err(e) => return Err(e),
    }
    for file in stored {
        match tree.write(alloc, &file.0, file.1.as_slice()) {
            Ok(()) => {}
            Err(DevErr::Failed) => return Err(CapErr::Failed),
            Err(DevErr::OutOfMemory) => return Err(CapErr::OutOfMemory),
        }
    }
    Ok(())
}
