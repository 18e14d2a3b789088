// The walk from the root folder.
ghost use Rattle.std.specs.Prelude.{◌≡◌, true, false, []};
ghost use Rattle.rel_path.specs.Paths.{Path};
ghost use Rattle.tree_dev.specs.Tree.{Looks};
ghost use Rattle.tree_walk.specs.Walked.{walk_choice, is_skipped, Walks};
ghost use Rattle.tree_walk.specs.Cause.{HasCause};

use crate::WalkErr;
use crate::traversal::{Bounds, Choose, gather};
use rel_path::limits::{MAX_COMPONENTS, MAX_FILES};
use rel_path::{Paths, RelPath, Text};
use std::alloc::Global;
use tree_dev::Tree;

/// Whether a folder of this name is never entered: `node_modules`, `.git` and `.turbo`.
pub fn is_skipped(name: &Text) -> bool
    ensures { result ≡ is_skipped name.now }
{
    let name = name.as_str();
    name == "node_modules" || name == ".git" || name == ".turbo"
}

// Every file, but below the folders that are never entered.
#[derive(Drop)]
struct Everything;

impl Choose for Everything {
    ghost choice = { λ _. walk_choice };

    fn enters(&self, _folder: &RelPath, name: &Text) -> bool {
        !is_skipped(name)
    }

    fn wants(&self, _path: &RelPath) -> bool {
        true
    }
}

/// The walked files, in order: every file of the tree, but those below a folder `node_modules`, `.git` or
/// `.turbo`. Going depth first with names ascending, the walk ends with `TooDeep` at the first entry of 65
/// components and with `TooMany` at the 200,001st file, whichever comes first. An entry is a file or a
/// folder, also one that is not entered.
pub fn walk<T: Tree>(alloc: Global, tree: &mut T) -> Result<Paths, WalkErr>
    requires none { (path : Path) → (T.state tree.old).held path ≡ false }
    ensures looks { Looks (T.state tree.old) (T.state tree.new) }
    ensures walks { Walks T.tells (T.state tree.old).files result }
    ensures cause { HasCause (T.state tree.old).faults (T.state tree.new).faults result }
{
    let bounds = Bounds {
        depth: MAX_COMPONENTS,
        most: MAX_FILES,
    };
    let root = RelPath::root(alloc);
    let mut found = Paths::new(alloc);
    match gather(alloc, tree, &Everything, &bounds, &root, &mut found) {
        Ok(()) => Ok(found),
        Err(stop) => Err(stop),
    }
}
