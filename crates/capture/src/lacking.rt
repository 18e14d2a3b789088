// Removing the owned files that a hit lacks.
ghost use Rattle.std.specs.Prelude.{◌≡◌, true, false, OnOk, IfOk};
ghost use Rattle.std.specs.List.Sorted.{IsStrictlySortedBy};
ghost use Rattle.rel_path.specs.Paths.{Path, is_among, path_cmp};
ghost use Rattle.rel_path.specs.Files.{has};
ghost use Rattle.tree_dev.specs.Cause.{HasCause as DeviceCause};
ghost use Rattle.tree_dev.specs.Tree.{Keeps, Looks};
ghost use Rattle.globs.specs.Outputs.{takes};
ghost use Rattle.globs.specs.OwnedFiles.{SameOutside};
ghost use Rattle.capture.specs.Cause.{HasCause};
ghost use Rattle.capture.specs.Kept.{paths_in, is_only_in, without, cleared_but};
ghost use Rattle.capture.specs.Owned.{NoneHeld, ListsOwned};

use crate::CapErr;
use crate::clearing::owned_paths;
use cache_api::HitFile;
use globs::OutSet;
use rel_path::{Paths, RelPath};
use std::alloc::Global;
use std::cmp::Ordering;
use tree_dev::{DevErr, Tree};

/// Removes the owned files that are none of these, whose paths ascend. It answers the owned files
/// that stood there, in order. Every other path is as before, whatever it answers.
pub(crate) fn clear_lacking<T: Tree>(
    alloc: Global,
    tree: &mut T,
    outs: &OutSet,
    files: &[HitFile],
) -> Result<Paths, CapErr>
    requires free { NoneHeld (takes outs.now) (T.state tree.old).held }
    requires ascend { IsStrictlySortedBy path_cmp (paths_in files.now) }
    ensures keeps { Keeps (T.state tree.old) (T.state tree.new) }
    ensures lists { IfOk result (ListsOwned T.tells (T.state tree.old).files outs.now) }
    ensures others { T.tells
        → SameOutside outs.now (T.state tree.old).files (T.state tree.new).files }
    ensures cleared { T.tells → OnOk result ((T.state tree.new).files
        ≡ cleared_but outs.now (paths_in files.now) (T.state tree.old).files) }
    ensures same { T.tells → ((path : Path) → takes outs.now path ≡ true
        → has (T.state tree.old).files path ≡ true → is_among (paths_in files.now) path ≡ true)
        → Looks (T.state tree.old) (T.state tree.new) }
    ensures cause { HasCause (T.state tree.old).faults (T.state tree.new).faults result }
{
    let listed = match owned_paths(alloc, tree, outs) {
        Ok(listed) => listed,
        Err(e) => return Err(e),
    };
    match remove_lacking(alloc, tree, listed.as_slice(), files) {
        Ok(()) => Ok(listed),
        Err(DevErr::Failed) => Err(CapErr::Failed),
        Err(DevErr::OutOfMemory) => Err(CapErr::OutOfMemory),
    }
}

// Removes those of the listed files that are none of these.
fn remove_lacking<T: Tree>(
    alloc: Global,
    tree: &mut T,
    listed: &[RelPath],
    files: &[HitFile],
) -> Result<(), DevErr>
    requires free { NoneHeld (is_among listed.now) (T.state tree.old).held }
    requires ascend { IsStrictlySortedBy path_cmp (paths_in files.now) }
    ensures keeps { Keeps (T.state tree.old) (T.state tree.new) }
    ensures others { T.tells → (path : Path)
        → is_only_in listed.now (paths_in files.now) path ≡ false
        → (T.state tree.new).files path ≡ (T.state tree.old).files path }
    ensures removed { T.tells → OnOk result ((T.state tree.new).files
        ≡ without listed.now (paths_in files.now) (T.state tree.old).files) }
    ensures same { ((path : Path) → is_only_in listed.now (paths_in files.now) path ≡ false)
        → Looks (T.state tree.old) (T.state tree.new) }
    ensures cause { DeviceCause (T.state tree.old).faults (T.state tree.new).faults result }
{
    for path in listed {
        if !is_in(files, path) {
            tree.remove(alloc, path)?;
        }
    }
    Ok(())
}

// Whether one of the files, whose paths ascend, has this path.
fn is_in(files: &[HitFile], path: &RelPath) -> bool
    requires { IsStrictlySortedBy path_cmp (paths_in files.now) }
    ensures { result ≡ is_among (paths_in files.now) path.now }
{
    let compare = |file: &HitFile| -> Ordering
        ensures { result ≡ path_cmp file.now.path path.entry.now }
    { file.path.cmp(path) };
    files.binary_search_by(compare).is_ok()
}

/// Whether the path is one of these, which ascend.
pub(crate) fn is_listed(listed: &[RelPath], path: &RelPath) -> bool
    requires { IsStrictlySortedBy path_cmp listed.now }
    ensures { result ≡ is_among listed.now path.now }
{
    listed.binary_search(path).is_ok()
}
