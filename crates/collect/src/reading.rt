// Reading files.
ghost use Rattle.std.specs.Prelude.{◌≡◌, ◌++◌, ◌&&◌, not, true, false, length, filter, zip, IfOk, OnOk};
ghost use Rattle.std.specs.List.Sorted.{IsStrictlySortedBy};
ghost use Rattle.rel_path.specs.Paths.{Path, is_among, path_cmp};
ghost use Rattle.tree_dev.specs.Tree.{Looks};
ghost use Rattle.task_inputs.specs.Homes.{declared_in};
ghost use Rattle.task_inputs.specs.Ignores.{is_ignore_file};
ghost use Rattle.collect.specs.Cause.{HasCause};
ghost use Rattle.collect.specs.Refusals.{is_large};
ghost use Rattle.collect.specs.Steps.{OnlyMemory, IsTooLarge, ReadsOne, ReadsAll, known, known_if, large_at, known_at, is_large_at, Adds, Gathers, ReadsSome, KnowsSome, GathersSome};

use crate::CollectErr;
use rel_path::limits::{MAX_FILE_BYTES, MAX_INPUT_BYTES};
use rel_path::{Bytes, Files, Paths, RelPath};
use std::alloc::Global;
use task_inputs::Declared;
use tree_dev::{DevErr, Found, Tree, bytes_at};

/// Whether the path's last name is `.gitignore`.
fn is_ignore_file(path: &RelPath) -> bool
    ensures { result ≡ is_ignore_file path.now }
{
    match path.components().split_last() {
        None => false,
        Some((last, _)) => last.as_str() == ".gitignore",
    }
}

/// The walked ignore files that count.
pub(crate) fn rule_paths(
    alloc: Global,
    declared: &Declared,
    walk: &[RelPath],
) -> Result<Paths, CollectErr>
    ensures value { IfOk result (λ paths. paths ≡ filter
        (λ path. is_ignore_file path && not (declared_in declared.now path)) walk.now) }
    ensures memory { OnlyMemory result }
{
    let mut paths = Paths::new(alloc);
    for path in walk {
        if is_ignore_file(path) && !declared.holds(path) {
            paths.push(path.copy()?)?;
        }
    }
    Ok(paths)
}

fn too_large(path: &RelPath) -> CollectErr
    ensures { IsTooLarge path.now result }
{
    match path.copy() {
        Ok(path) => CollectErr::TooLarge { path },
        Err(_) => CollectErr::OutOfMemory,
    }
}

/// The bytes at the path, if it has a file.
fn read_one<T: Tree>(
    alloc: Global,
    tree: &mut T,
    path: &RelPath,
) -> Result<Option<Bytes>, CollectErr>
    requires free { (T.state tree.old).held path.now ≡ false }
    ensures looks { Looks (T.state tree.old) (T.state tree.new) }
    ensures reads { T.tells → ReadsOne ((T.state tree.old).files path.now)
        (is_large ((T.state tree.old).files path.now)) path.now result }
    ensures cause { HasCause (T.state tree.old).faults (T.state tree.new).faults result }
{
    match tree.read(alloc, path, MAX_FILE_BYTES) {
        Ok(Found::Absent) => Ok(None),
        Ok(Found::TooLong) => Err(too_large(path)),
        Ok(Found::Here(bytes)) => Ok(Some(bytes)),
        Err(DevErr::Failed) => Err(CollectErr::Failed),
        Err(DevErr::OutOfMemory) => Err(CollectErr::OutOfMemory),
    }
}

/// Adds the file, if it is there.
fn add_file(files: &mut Files, path: &RelPath, now: Option<Bytes>) -> Result<(), CollectErr>
    ensures added { OnOk result (files.new ≡ files.old ++ known_at path.now now) }
    ensures memory { OnlyMemory result }
{
    if let Some(bytes) = now {
        files.push((path.copy()?, bytes))?;
    }
    Ok(())
}

/// The files at these paths.
pub(crate) fn read_all<T: Tree>(
    alloc: Global,
    tree: &mut T,
    paths: &[RelPath],
) -> Result<Files, CollectErr>
    requires free { (path : Path) → is_among paths.now path ≡ true
        → (T.state tree.old).held path ≡ false }
    requires ascend { IsStrictlySortedBy path_cmp paths.now }
    ensures looks { Looks (T.state tree.old) (T.state tree.new) }
    ensures some { IfOk result (ReadsSome paths.now) }
    ensures reads { T.tells → ReadsAll (T.state tree.old).files paths.now result }
    ensures cause { HasCause (T.state tree.old).faults (T.state tree.new).faults result }
{
    let mut files = Files::new(alloc);
    for path in paths {
        let now = match read_one(alloc, tree, path) {
            Ok(now) => now,
            Err(e) => return Err(e),
        };
        match add_file(&mut files, path, now) {
            Ok(()) => {}
            Err(_) => return Err(CollectErr::OutOfMemory),
        }
    }
    Ok(files)
}

/// The bytes at the path, which are known where it is an ignore file's.
fn look_up<T: Tree>(
    alloc: Global,
    tree: &mut T,
    ignores: &Files,
    path: &RelPath,
) -> Result<Option<Bytes>, CollectErr>
    requires free { (T.state tree.old).held path.now ≡ false }
    ensures looks { Looks (T.state tree.old) (T.state tree.new) }
    ensures some { IfOk result (KnowsSome ignores.now (true, path.now)) }
    ensures reads { T.tells → ReadsOne (known ignores.now (T.state tree.old).files path.now)
        (large_at (T.state tree.old).files path.now) path.now result }
    ensures cause { HasCause (T.state tree.old).faults (T.state tree.new).faults result }
{
    if !is_ignore_file(path) {
        return read_one(alloc, tree, path);
    }
    match bytes_at(ignores.as_slice(), path) {
        None => Ok(None),
        Some(bytes) => match bytes.copy() {
            Ok(bytes) => Ok(Some(bytes)),
            Err(_) => Err(CollectErr::OutOfMemory),
        },
    }
}

/// What was read: of each walked path whether it is an input that is there, these files, and how many bytes they have
/// together. Where that is over the limit, files are wanting.
#[derive(Drop)]
pub(crate) struct Gathered {
    pub found: Vec<bool>,
    pub files: Files,
    pub total: u64,
}

/// Adds what was found at the path.
fn add(gathered: &mut Gathered, path: &RelPath, now: Option<Bytes>) -> Result<(), CollectErr>
    ensures added { OnOk result (Adds path.now now gathered.old gathered.new) }
    ensures memory { OnlyMemory result }
{
    gathered.found.push(now.is_some())?;
    if let Some(bytes) = now {
        match gathered.total.checked_add(bytes.as_slice().len() as u64) {
            Some(total) => gathered.total = total,
            None => return Err(CollectErr::OutOfMemory),
        }
        if gathered.total <= MAX_INPUT_BYTES {
            gathered.files.push((path.copy()?, bytes))?;
        }
    }
    Ok(())
}

fn look_marked<T: Tree>(
    alloc: Global,
    tree: &mut T,
    ignores: &Files,
    path: &RelPath,
    marked: bool,
) -> Result<Option<Bytes>, CollectErr>
    requires free { (T.state tree.old).held path.now ≡ false }
    ensures looks { Looks (T.state tree.old) (T.state tree.new) }
    ensures some { IfOk result (KnowsSome ignores.now (marked, path.now)) }
    ensures reads { T.tells → ReadsOne
        (known_if (known ignores.now (T.state tree.old).files) (marked, path.now))
        (is_large_at (T.state tree.old).files (marked, path.now)) path.now result }
    ensures cause { HasCause (T.state tree.old).faults (T.state tree.new).faults result }
{
    if marked {
        look_up(alloc, tree, ignores, path)
    } else {
        Ok(None)
    }
}

/// The files at the marked paths. The bytes of ignore files are known.
pub(crate) fn gather<T: Tree>(
    alloc: Global,
    tree: &mut T,
    ignores: &Files,
    walk: &[RelPath],
    marks: &[bool],
) -> Result<Gathered, CollectErr>
    requires same { length marks.now ≡ length walk.now }
    requires free { (path : Path) → is_among walk.now path ≡ true
        → (T.state tree.old).held path ≡ false }
    requires ascend { IsStrictlySortedBy path_cmp walk.now }
    ensures looks { Looks (T.state tree.old) (T.state tree.new) }
    ensures some { IfOk result (GathersSome ignores.now (zip marks.now walk.now)) }
    ensures same { IfOk result (λ g. length g.found.items ≡ length walk.now) }
    ensures reads { T.tells → Gathers (known ignores.now (T.state tree.old).files)
        (is_large_at (T.state tree.old).files) (zip marks.now walk.now) result }
    ensures cause { HasCause (T.state tree.old).faults (T.state tree.new).faults result }
{
    let mut gathered = Gathered {
        found: Vec::new(alloc),
        files: Files::new(alloc),
        total: 0,
    };
    for (place, path) in walk.iter().enumerate() {
        let now = match look_marked(alloc, tree, ignores, path, marks[place]) {
            Ok(now) => now,
            Err(e) => return Err(e),
        };
        match add(&mut gathered, path, now) {
            Ok(()) => {}
            Err(_) => return Err(CollectErr::OutOfMemory),
        }
    }
    Ok(gathered)
}
