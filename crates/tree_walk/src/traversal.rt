// Going through a folder, in order.
ghost use Rattle.std.specs.Prelude.{◌≡◌, ◌≤◌, ◌<◌, true, false, length, IsTrue};
ghost use Rattle.std.specs.List.{All};
ghost use Rattle.rel_path.specs.Paths.{Path, is_component};
ghost use Rattle.tree_dev.specs.Tree.{Looks};
ghost use Rattle.tree_dev.specs.Names.{IsProper};
ghost use Rattle.tree_walk.specs.Traversal.{Choice, Gathered, IsListed, IsDeepAt, FirstDeep, is_at, everywhere};
ghost use Rattle.tree_walk.specs.Cause.{HasCause};

use crate::WalkErr;
use rel_path::{Paths, RelPath, Text};
use std::alloc::Global;
use tree_dev::{DevErr, Entry, Tree};

/// How many components a path may have, and how many paths there may be.
#[derive(Drop)]
pub struct Bounds {
    pub depth: usize,
    pub most: usize,
}

/// What is looked for in a tree.
pub trait Choose {
    ghost choice: { Self → Choice };

    /// Whether a folder of this folder is entered.
    fn enters(&self, folder: &RelPath, name: &Text) -> bool
        ensures { result ≡ (choice self.now).enters folder.now name.now };

    /// Whether this file is wanted.
    fn wants(&self, path: &RelPath) -> bool
        ensures { result ≡ (choice self.now).wants path.now };
}

/// Adds the paths of the wanted files below the folder, in order, up to the first entry that is too deep or one too many.
#[cycle(descent)]
pub fn gather<T: Tree, P: Choose>(
    alloc: Global,
    tree: &mut T,
    choose: &P,
    bounds: &Bounds,
    folder: &RelPath,
    found: &mut Paths,
) -> Result<(), WalkErr>
    requires free { T.tells → (path : Path) → (P.choice choose.now).wants path ≡ true
        → (T.state tree.old).held path ≡ false }
    requires room { length found.old ≤ bounds.now.most }
    requires high { length folder.now ≤ bounds.now.depth }
    ensures looks { Looks (T.state tree.old) (T.state tree.new) }
    ensures room { length found.new ≤ bounds.now.most }
    ensures gathered { Gathered T.tells (T.state tree.old).files (T.state tree.old).held
        (P.choice choose.now) bounds.now.depth bounds.now.most folder.now everywhere found.old
        found.new result }
    ensures cause { HasCause (T.state tree.old).faults (T.state tree.new).faults result }
{
    let names = match tree.list(alloc, folder) {
        Ok(names) => names,
        Err(DevErr::Failed) => return Err(WalkErr::Failed),
        Err(DevErr::OutOfMemory) => return Err(WalkErr::OutOfMemory),
    };
    if folder.components().len() >= bounds.depth {
        return first_deep(folder, names.as_slice());
    }
    for entry in names.as_slice() {
        match visit(alloc, tree, choose, bounds, folder, entry, found) {
            Ok(()) => {}
            Err(stop) => return Err(stop),
        }
    }
    Ok(())
}

fn too_deep(folder: &RelPath, entry: &Entry) -> WalkErr
    requires { IsTrue (is_component entry.now.name) }
    ensures { IsDeepAt folder.now entry.now result }
{
    match folder.child(&entry.name) {
        Ok(path) => WalkErr::TooDeep { path },
        Err(_) => WalkErr::OutOfMemory,
    }
}

// The first of these names, where there is one, is too deep.
fn first_deep(folder: &RelPath, names: &[Entry]) -> Result<(), WalkErr>
    requires { All (λ entry. IsTrue (is_component entry.name)) names.now }
    ensures { FirstDeep folder.now names.now result }
{
    match names {
        [] => Ok(()),
        [first, ..] => Err(too_deep(folder, first)),
    }
}

#[cycle(descent)]
fn visit<T: Tree, P: Choose>(
    alloc: Global,
    tree: &mut T,
    choose: &P,
    bounds: &Bounds,
    folder: &RelPath,
    entry: &Entry,
    found: &mut Paths,
) -> Result<(), WalkErr>
    requires free { T.tells → (path : Path) → (P.choice choose.now).wants path ≡ true
        → (T.state tree.old).held path ≡ false }
    requires room { length found.old ≤ bounds.now.most }
    requires proper { IsProper (T.state tree.old).reach folder.now entry.now }
    requires deep { length folder.now < bounds.now.depth }
    requires there { T.tells → IsListed (T.state tree.old).files (T.state tree.old).held folder.now
        entry.now }
    ensures looks { Looks (T.state tree.old) (T.state tree.new) }
    ensures room { length found.new ≤ bounds.now.most }
    ensures gathered { Gathered T.tells (T.state tree.old).files (T.state tree.old).held
        (P.choice choose.now) bounds.now.depth bounds.now.most folder.now
        (is_at folder.now entry.now) found.old found.new result }
    ensures cause { HasCause (T.state tree.old).faults (T.state tree.new).faults result }
{
    if entry.folder {
        if !choose.enters(folder, &entry.name) {
            return Ok(());
        }
        return match folder.child(&entry.name) {
            Ok(inner) => gather(alloc, tree, choose, bounds, &inner, found),
            Err(_) => Err(WalkErr::OutOfMemory),
        };
    }
    let path = match folder.child(&entry.name) {
        Ok(path) => path,
        Err(_) => return Err(WalkErr::OutOfMemory),
    };
    if !choose.wants(&path) {
        return Ok(());
    }
    if found.as_slice().len() >= bounds.most {
        return Err(WalkErr::TooMany);
    }
    match found.push(path) {
        Ok(()) => Ok(()),
        Err(_) => Err(WalkErr::OutOfMemory),
    }
}
