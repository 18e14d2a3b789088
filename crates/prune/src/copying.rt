// Files, copied into a folder.
ghost use Rattle.std.specs.Prelude.{◌≡◌, ◌++◌, ℕ, List, Option, IfOk, false};
ghost use Rattle.std.specs.Option.{option_map};
ghost use Rattle.std.specs.List.{AllByRecursion};
ghost use Rattle.std.specs.List.Sorted.{IsStrictlySortedBy};
ghost use Rattle.rel_path.specs.Files.{SameBut};
ghost use Rattle.rel_path.specs.Limits.{file_limit};
ghost use Rattle.rel_path.specs.Paths.{Path, path_cmp};
ghost use Rattle.tree_dev.specs.Tree.{Keeps, within};
ghost use Rattle.prune.specs.Cause.{HasCause, counts_of};
ghost use Rattle.collect.specs.Refusals.{is_large};
ghost use Rattle.prune.specs.Folders.{is_over};
ghost use Rattle.prune.specs.Steps.{
  OnlyMemory,
  IsOutside,
  IsOut,
  SameElsewhere,
  source,
  IsTooLarge,
  Writes,
  Copies,
  CopiesAll,
  tree_error,
};

use crate::PruneErr;
use pruned_files::is_lockfile;
use rel_path::limits::MAX_FILE_BYTES;
use rel_path::{Bytes, RelPath};
use std::alloc::Global;
use tree_dev::{DevErr, Found, Tree};

/// The path, below the folder.
fn joined(folder: &RelPath, path: &RelPath) -> Result<RelPath, PruneErr>
    ensures value { IfOk result (λ joined. joined ≡ folder.now ++ path.now) }
    ensures memory { OnlyMemory result }
{
    let mut joined = folder.copy()?;
    for name in path.components() {
        joined = joined.child(name)?;
    }
    Ok(joined)
}

fn too_large(path: &RelPath) -> PruneErr
    ensures { IsTooLarge path.now result }
{
    match path.copy() {
        Ok(path) => PruneErr::TooLarge { path },
        Err(_) => PruneErr::OutOfMemory,
    }
}

fn failed(error: DevErr) -> PruneErr
    ensures { result ≡ tree_error error }
{
    match error {
        DevErr::Failed => PruneErr::TreeFailed,
        DevErr::OutOfMemory => PruneErr::OutOfMemory,
    }
}

/// Puts the bytes at the path below the folder.
fn write_below<T: Tree>(
    alloc: Global,
    tree: &mut T,
    folder: &RelPath,
    path: &RelPath,
    bytes: &[u8],
) -> Result<(), PruneErr>
    requires free { (path : Path) → (T.state tree.old).held path ≡ false }
    ensures keeps { Keeps (T.state tree.old) (T.state tree.new) }
    ensures others { T.tells
        → SameBut (folder.now ++ path.now) (T.state tree.old).files (T.state tree.new).files }
    ensures writes { T.tells → Writes (folder.now ++ path.now) bytes.now
        (T.state tree.old).files (T.state tree.new).files result }
    ensures cause { (sink : ℕ) → HasCause (counts_of (T.state tree.old).faults sink)
        (counts_of (T.state tree.new).faults sink) result }
{
    let target = match joined(folder, path) {
        Ok(target) => target,
        Err(_) => return Err(PruneErr::OutOfMemory),
    };
    match tree.write(alloc, &target, bytes) {
        Ok(()) => Ok(()),
        Err(error) => Err(failed(error)),
    }
}

/// Puts what was found at the path, if a file was, at the path below the folder.
fn write_found<T: Tree>(
    alloc: Global,
    tree: &mut T,
    folder: &RelPath,
    path: &RelPath,
    found: Found,
) -> Result<(), PruneErr>
    requires free { (path : Path) → (T.state tree.old).held path ≡ false }
    ensures keeps { Keeps (T.state tree.old) (T.state tree.new) }
    ensures others { T.tells
        → SameBut (folder.now ++ path.now) (T.state tree.old).files (T.state tree.new).files }
    ensures copies { T.tells → (bytes : Option (List ℕ)) → found ≡ within file_limit bytes
        → Copies folder.now path.now (is_large bytes) bytes
        (T.state tree.old).files (T.state tree.new).files result }
    ensures cause { (sink : ℕ) → HasCause (counts_of (T.state tree.old).faults sink)
        (counts_of (T.state tree.new).faults sink) result }
{
    match found {
        Found::Absent => Ok(()),
        Found::TooLong => Err(too_large(path)),
        Found::Here(bytes) => write_below(alloc, tree, folder, path, bytes.as_slice()),
    }
}

/// Copies the file at the path, if one is there, below the folder.
fn copy_file<T: Tree>(
    alloc: Global,
    tree: &mut T,
    folder: &RelPath,
    path: &RelPath,
) -> Result<(), PruneErr>
    requires free { (path : Path) → (T.state tree.old).held path ≡ false }
    ensures keeps { Keeps (T.state tree.old) (T.state tree.new) }
    ensures others { T.tells
        → SameBut (folder.now ++ path.now) (T.state tree.old).files (T.state tree.new).files }
    ensures copies { T.tells → Copies folder.now path.now
        (is_large ((T.state tree.old).files path.now)) ((T.state tree.old).files path.now)
        (T.state tree.old).files (T.state tree.new).files result }
    ensures cause { (sink : ℕ) → HasCause (counts_of (T.state tree.old).faults sink)
        (counts_of (T.state tree.new).faults sink) result }
{
    match tree.read(alloc, path, MAX_FILE_BYTES) {
        Ok(found) => write_found(alloc, tree, folder, path, found),
        Err(error) => Err(failed(error)),
    }
}

/// Puts the text, if there is one, at the path below the folder.
fn write_text<T: Tree>(
    alloc: Global,
    tree: &mut T,
    folder: &RelPath,
    path: &RelPath,
    text: Option<&Bytes>,
) -> Result<(), PruneErr>
    requires free { (path : Path) → (T.state tree.old).held path ≡ false }
    ensures keeps { Keeps (T.state tree.old) (T.state tree.new) }
    ensures others { T.tells
        → SameBut (folder.now ++ path.now) (T.state tree.old).files (T.state tree.new).files }
    ensures copies { T.tells → Copies folder.now path.now false
        (option_map (λ b. b.now) text.entry)
        (T.state tree.old).files (T.state tree.new).files result }
    ensures cause { (sink : ℕ) → HasCause (counts_of (T.state tree.old).faults sink)
        (counts_of (T.state tree.new).faults sink) result }
{
    match text {
        None => Ok(()),
        Some(text) => write_below(alloc, tree, folder, path, text.as_slice()),
    }
}

/// Copies the file at the path, if one is there, below the folder. The lockfile's text is known.
fn copy_one<T: Tree>(
    alloc: Global,
    tree: &mut T,
    folder: &RelPath,
    text: Option<&Bytes>,
    path: &RelPath,
) -> Result<(), PruneErr>
    requires free { (path : Path) → (T.state tree.old).held path ≡ false }
    ensures keeps { Keeps (T.state tree.old) (T.state tree.new) }
    ensures others { T.tells
        → SameBut (folder.now ++ path.now) (T.state tree.old).files (T.state tree.new).files }
    ensures copies { T.tells → Copies folder.now path.now
        (is_over (T.state tree.old).files path.now)
        (source (option_map (λ b. b.now) text.entry) (T.state tree.old).files path.now)
        (T.state tree.old).files (T.state tree.new).files result }
    ensures cause { (sink : ℕ) → HasCause (counts_of (T.state tree.old).faults sink)
        (counts_of (T.state tree.new).faults sink) result }
{
    if is_lockfile(path) {
        write_text(alloc, tree, folder, path, text)
    } else {
        copy_file(alloc, tree, folder, path)
    }
}

/// Copies the files at these paths, in order, below the folder: `out`, or a folder in it, below which none of them
/// lies. `TooLarge` names the first that is over the limit, and leaves those in front of it copied.
pub(crate) fn copy_all<T: Tree>(
    alloc: Global,
    tree: &mut T,
    folder: &RelPath,
    text: Option<&Bytes>,
    paths: &[RelPath],
) -> Result<(), PruneErr>
    requires free { (path : Path) → (T.state tree.old).held path ≡ false }
    requires ascend { IsStrictlySortedBy path_cmp paths.now }
    requires outside { AllByRecursion IsOutside paths.now }
    requires out { IsOut folder.now }
    ensures keeps { Keeps (T.state tree.old) (T.state tree.new) }
    ensures elsewhere { T.tells
        → SameElsewhere (T.state tree.old).files (T.state tree.new).files }
    ensures copies { T.tells → CopiesAll (option_map (λ b. b.now) text.entry) folder.now paths.now
        (T.state tree.old).files (T.state tree.new).files result }
    ensures cause { (sink : ℕ) → HasCause (counts_of (T.state tree.old).faults sink)
        (counts_of (T.state tree.new).faults sink) result }
{
    for path in paths {
        match copy_one(alloc, tree, folder, text, path) {
            Ok(()) => {}
            Err(e) => return Err(e),
        }
    }
    Ok(())
}
