// Writing a file only where it differs.
ghost use Rattle.std.specs.Prelude.{◌≡◌, false, Some, OnOk, IfOk};
ghost use Rattle.rel_path.specs.Files.{SameBut};
ghost use Rattle.tree_dev.specs.Cause.{HasCause};
ghost use Rattle.tree_dev.specs.Tree.{Keeps, Looks};
ghost use Rattle.capture.specs.Kept.{is_just};

use rel_path::RelPath;
use std::alloc::Global;
use tree_dev::{DevErr, Found, Tree};

/// Writes a file, unless it stands there with these bytes already: then it is only read, so that
/// its time stays. A longer file is not read.
pub fn write_changed<T: Tree>(
    alloc: Global,
    tree: &mut T,
    path: &RelPath,
    bytes: &[u8],
) -> Result<(), DevErr>
    requires { (T.state tree.old).held path.now ≡ false }
    ensures keeps { Keeps (T.state tree.old) (T.state tree.new) }
    ensures others { T.tells
        → SameBut path.now (T.state tree.old).files (T.state tree.new).files }
    ensures written { T.tells
        → OnOk result ((T.state tree.new).files path.now ≡ Some bytes.now) }
    ensures same { T.tells → (T.state tree.old).files path.now ≡ Some bytes.now
        → Looks (T.state tree.old) (T.state tree.new) }
    ensures cause { HasCause (T.state tree.old).faults (T.state tree.new).faults result }
{
    if stands_there(alloc, tree, path, bytes)? {
        return Ok(());
    }
    tree.write(alloc, path, bytes)
}

// Whether these bytes stand at the path.
fn stands_there<T: Tree>(
    alloc: Global,
    tree: &mut T,
    path: &RelPath,
    bytes: &[u8],
) -> Result<bool, DevErr>
    requires { (T.state tree.old).held path.now ≡ false }
    ensures looks { Looks (T.state tree.old) (T.state tree.new) }
    ensures there { T.tells → IfOk result (λ there.
        there ≡ is_just bytes.now ((T.state tree.old).files path.now)) }
    ensures cause { HasCause (T.state tree.old).faults (T.state tree.new).faults result }
{
    match tree.read(alloc, path, bytes.len() as u64)? {
        Found::Here(found) => Ok(found.as_slice() == bytes),
        Found::Absent | Found::TooLong => Ok(false),
    }
}
