// Taking what a task left.
ghost use Rattle.std.specs.Prelude.{◌≡◌, ◌⊎◌, ◌++◌, ◌∷◌, [], true, OnOk, IfOk, IfErr, IsTrue};
ghost use Rattle.std.specs.Option.{option_map};
ghost use Rattle.std.specs.List.Sorted.{IsStrictlySortedBy};
ghost use Rattle.rel_path.specs.Paths.{Path, is_among, path_cmp};
ghost use Rattle.tree_dev.specs.Tree.{Looks};
ghost use Rattle.cache_api.specs.Artifacts.{ascends};
ghost use Rattle.capture.specs.Owned.{NoneHeld, paths_of, declares, first_shared, ReadsAll, IsTooLarge, IsShared, AddsFound, Takes, TakesFiles, ListsDeclared, AreBelow};
ghost use Rattle.capture.specs.Cause.{HasCause};

use crate::CapErr;
use crate::choices::Declared;
use cache_api::Artifact;
use globs::OutSet;
use rel_path::{Bytes, Files, Paths, RelPath};
use std::alloc::Global;
use tree_dev::{DevErr, Found, Tree};
use tree_walk::{Bounds, WalkErr, gather};

/// The log and the files that the task owns, paths ascending. `Shared` with the least path comes exactly where there is a
/// file that the task and another one of its package declare; else `TooLarge` with the least path exactly where an owned
/// file has more than `limit` bytes. No path that the task declares may be held. Each owned file is read once.
pub fn take<T: Tree>(
    alloc: Global,
    tree: &mut T,
    outs: &OutSet,
    log: &[u8],
    limit: u64,
) -> Result<Artifact, CapErr>
    requires free { NoneHeld (declares outs.now) (T.state tree.old).held }
    ensures looks { Looks (T.state tree.old) (T.state tree.new) }
    ensures log { IfOk result (λ artifact. artifact.log ≡ log.now) }
    ensures ascend { IfOk result (λ artifact. IsTrue (ascends artifact.files)) }
    ensures takes { T.tells → Takes (T.state tree.old).files outs.now limit result }
    ensures cause { HasCause (T.state tree.old).faults (T.state tree.new).faults result }
{
    match owned_files(alloc, tree, outs, limit) {
        Ok(files) => match Bytes::read(alloc, log) {
            Ok(log) => Ok(Artifact { log, files }),
            Err(_) => Err(CapErr::OutOfMemory),
        },
        Err(e) => Err(e),
    }
}

// The files that the task owns, none longer than the limit, where it shares none.
fn owned_files<T: Tree>(
    alloc: Global,
    tree: &mut T,
    outs: &OutSet,
    limit: u64,
) -> Result<Files, CapErr>
    requires free { NoneHeld (declares outs.now) (T.state tree.old).held }
    ensures looks { Looks (T.state tree.old) (T.state tree.new) }
    ensures takes { T.tells → TakesFiles (T.state tree.old).files outs.now limit result }
    ensures ascend { IfOk result (λ files. IsStrictlySortedBy path_cmp (paths_of files)) }
    ensures below { IfOk result AreBelow }
    ensures cause { HasCause (T.state tree.old).faults (T.state tree.new).faults result }
{
    let paths = match declared_paths(alloc, tree, outs) {
        Ok(paths) => paths,
        Err(e) => return Err(e),
    };
    match first_shared(outs, paths.as_slice()) {
        Some(path) => return Err(shared(path)),
        None => {}
    }
    match read_all(alloc, tree, paths.as_slice(), limit) {
        Ok(files) => Ok(files),
        Err(e) => Err(e),
    }
}

// The declared files, in order.
fn declared_paths<T: Tree>(alloc: Global, tree: &mut T, outs: &OutSet) -> Result<Paths, CapErr>
    requires free { NoneHeld (declares outs.now) (T.state tree.old).held }
    ensures looks { Looks (T.state tree.old) (T.state tree.new) }
    ensures lists { IfOk result (ListsDeclared T.tells (T.state tree.old).files outs.now) }
    ensures fault { IfErr result (λ e. (e ≡ CapErr.Failed) ⊎ (e ≡ CapErr.OutOfMemory)) }
    ensures cause { HasCause (T.state tree.old).faults (T.state tree.new).faults result }
{
    let bounds = Bounds {
        depth: usize::MAX,
        most: usize::MAX,
    };
    if outs.folder.components().len() >= bounds.depth {
        return Err(CapErr::OutOfMemory);
    }
    let declared = Declared { outs };
    let mut found = Paths::new(alloc);
    match gather(alloc, tree, &declared, &bounds, &outs.folder, &mut found) {
        Ok(()) => Ok(found),
        Err(WalkErr::Failed) => Err(CapErr::Failed),
        Err(_) => Err(CapErr::OutOfMemory),
    }
}

// The first of these paths that the task shares.
fn first_shared<'a>(outs: &OutSet, paths: &'a [RelPath]) -> Option<&'a RelPath>
    ensures { option_map (λ p. p.now) result ≡ first_shared outs.now paths.now }
{
    for path in paths {
        if outs.shared(path) {
            return Some(path);
        }
    }
    None
}

fn shared(path: &RelPath) -> CapErr
    ensures { IsShared path.now result }
{
    match path.copy() {
        Ok(path) => CapErr::Shared { path },
        Err(_) => CapErr::OutOfMemory,
    }
}

// The files at these paths, none longer than the limit. One that is not there any more is passed over.
fn read_all<T: Tree>(
    alloc: Global,
    tree: &mut T,
    paths: &[RelPath],
    limit: u64,
) -> Result<Files, CapErr>
    requires free { NoneHeld (is_among paths.now) (T.state tree.old).held }
    requires ascend { IsStrictlySortedBy path_cmp paths.now }
    ensures looks { Looks (T.state tree.old) (T.state tree.new) }
    ensures ascend { IfOk result (λ files. IsStrictlySortedBy path_cmp (paths_of files)) }
    ensures within { IfOk result (λ files. (path : Path)
        → is_among (paths_of files) path ≡ true → is_among paths.now path ≡ true) }
    ensures reads { T.tells → ReadsAll (T.state tree.old).files limit paths.now result }
    ensures cause { HasCause (T.state tree.old).faults (T.state tree.new).faults result }
{
    let mut files = Files::new(alloc);
    for path in paths {
        let found = match tree.read(alloc, path, limit) {
            Ok(found) => found,
            Err(DevErr::Failed) => return Err(CapErr::Failed),
            Err(DevErr::OutOfMemory) => return Err(CapErr::OutOfMemory),
        };
        match add(&mut files, path, found) {
            Ok(()) => {}
            Err(e) => return Err(e),
        }
    }
    Ok(files)
}

fn add(files: &mut Files, path: &RelPath, found: Found) -> Result<(), CapErr>
    ensures { AddsFound path.now found files.old files.new result }
{
    match found {
        Found::Absent => Ok(()),
        Found::TooLong => Err(too_large(path)),
        Found::Here(bytes) => match push_copy(files, path, bytes) {
            Ok(()) => Ok(()),
            Err(_) => Err(CapErr::OutOfMemory),
        },
    }
}

fn push_copy(files: &mut Files, path: &RelPath, bytes: Bytes) -> Result<(), DevErr>
    ensures { OnOk result (files.new ≡ files.old ++ (path.now, bytes) ∷ []) }
{
    let path = path.copy()?;
    files.push((path, bytes))?;
    Ok(())
}

fn too_large(path: &RelPath) -> CapErr
    ensures { IsTooLarge path.now result }
{
    match path.copy() {
        Ok(path) => CapErr::TooLarge { path },
        Err(_) => CapErr::OutOfMemory,
    }
}
