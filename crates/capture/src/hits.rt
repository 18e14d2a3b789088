// Putting back what a cache has, file by file.
ghost use Rattle.std.specs.Prelude.{◌≡◌, ◌+◌, ◌≤◌, true, false, Some, OnOk, IfOk, IsTrue};
ghost use Rattle.std.specs.List.Sorted.{IsStrictlySortedBy};
ghost use Rattle.rel_path.specs.Causes.{Counts};
ghost use Rattle.rel_path.specs.Files.{SameBut};
ghost use Rattle.rel_path.specs.Paths.{path_cmp, is_among};
ghost use Rattle.tree_dev.specs.Cause.{HasCause};
ghost use Rattle.tree_dev.specs.Tree.{Keeps, Looks};
ghost use Rattle.globs.specs.Outputs.{takes};
ghost use Rattle.globs.specs.OwnedFiles.{restored, SameOutside};
ghost use Rattle.cache_api.specs.Hits.{paths_ascend, owns_paths, span_count};
ghost use Rattle.cache_api.specs.Cache.{CacheReads};
ghost use Rattle.capture.specs.Owned.{NoneHeld};
ghost use Rattle.capture.specs.Cause.{is_tree_fault, is_store_fault};

use crate::lacking::{clear_lacking, is_listed};
use crate::{HitErr, write_changed};
use cache_api::{Cache, Hit};
use globs::OutSet;
use rel_path::{Bytes, RelPath};
use std::alloc::Global;
use tree_dev::{DevErr, Tree};

/// Puts the files of a hit in the place of those that the task owns, and answers its log. The task
/// owns all of the files, their paths ascend, and no path that it owns is held. A file that stands
/// there with its bytes is not written, so where all of them do the tree is only looked at. One
/// file at a time is in memory, and nothing is removed before the log was read. Every other path is
/// as before, whatever it answers.
pub fn restore_hit<T: Tree, C: Cache>(
    alloc: Global,
    tree: &mut T,
    outs: &OutSet,
    cache: &mut C,
    hit: &Hit,
) -> Result<Bytes, HitErr>
    requires free { NoneHeld (takes outs.now) (T.state tree.old).held }
    requires whole { IsTrue (C.state cache.old).whole }
    requires stands { C.stands cache.old hit.now }
    requires owns { IsTrue (owns_paths outs.now hit.now) }
    requires ascend { IsTrue (paths_ascend hit.now) }
    ensures keeps { Keeps (T.state tree.old) (T.state tree.new) }
    ensures others { T.tells
        → SameOutside outs.now (T.state tree.old).files (T.state tree.new).files }
    ensures restored { T.tells → C.tells → OnOk result ((T.state tree.new).files
        ≡ restored outs.now (C.shows cache.old hit.now).1 (T.state tree.old).files) }
    ensures same { T.tells → C.tells → (T.state tree.old).files
        ≡ restored outs.now (C.shows cache.old hit.now).1 (T.state tree.old).files
        → Looks (T.state tree.old) (T.state tree.new) }
    ensures log { C.tells → IfOk result (λ log. log ≡ (C.shows cache.old hit.now).0) }
    ensures reads { CacheReads C.tells C.state C.cost C.stands C.shows C.moment C.left C.says
        cache.old cache.new }
    ensures probes { (C.state cache.new).probes
        ≤ (C.state cache.old).probes + span_count hit.now }
    ensures whole { OnOk result (IsTrue (C.state cache.new).whole) }
    ensures tree_cause { Counts is_tree_fault
        (T.state tree.old).faults (T.state tree.new).faults result }
    ensures store_cause { Counts is_store_fault
        (C.state cache.old).faults (C.state cache.new).faults result }
{
    let log = cache.hit_log(alloc, hit)?;
    let files = hit.files.as_slice();
    let Ok(count) = u32::try_from(files.len()) else {
        return Err(HitErr::OutOfMemory);
    };
    let listed = clear_lacking(alloc, tree, outs, files)?;
    for index in 0..count {
        let bytes = cache.hit_file(alloc, hit, index)?;
        let path = &files[index as usize].path;
        put(alloc, tree, listed.as_slice(), path, bytes.as_slice())?;
    }
    Ok(log)
}

// Writes a file of the hit. Where no file of that path was listed, something else may stand there,
// a link or a folder: it is replaced unread.
fn put<T: Tree>(
    alloc: Global,
    tree: &mut T,
    listed: &[RelPath],
    path: &RelPath,
    bytes: &[u8],
) -> Result<(), DevErr>
    requires free { (T.state tree.old).held path.now ≡ false }
    requires ascend { IsStrictlySortedBy path_cmp listed.now }
    ensures keeps { Keeps (T.state tree.old) (T.state tree.new) }
    ensures others { T.tells
        → SameBut path.now (T.state tree.old).files (T.state tree.new).files }
    ensures written { T.tells
        → OnOk result ((T.state tree.new).files path.now ≡ Some bytes.now) }
    ensures same { T.tells → is_among listed.now path.now ≡ true
        → (T.state tree.old).files path.now ≡ Some bytes.now
        → Looks (T.state tree.old) (T.state tree.new) }
    ensures cause { HasCause (T.state tree.old).faults (T.state tree.new).faults result }
{
    if is_listed(listed, path) {
        write_changed(alloc, tree, path, bytes)
    } else {
        tree.write(alloc, path, bytes)
    }
}
