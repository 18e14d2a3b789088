// A tree of files, by what it means.
ghost use Rattle.std.specs.Prelude.{◌≡◌, ◌≤◌, false, Some, None, IfOk, OnOk};
ghost use Rattle.std.specs.List.{All};
ghost use Rattle.std.specs.List.Sorted.{IsStrictlySortedBy};
ghost use Rattle.rel_path.specs.Files.{SameBut};
ghost use Rattle.tree_dev.specs.Cause.{HasCause};
ghost use Rattle.tree_dev.specs.Tree.{TreeState, Keeps, Looks, within, HoldsNothing};
ghost use Rattle.tree_dev.specs.Names.{NamesIn, IsProper, entry_cmp};

use crate::{DevErr, Entries};
use rel_path::{Bytes, RelPath};
use std::alloc::Global;

/// What a read finds: no file, one with more bytes than were wanted, or these bytes.
#[derive(Debug, Drop)]
pub enum Found {
    Absent,
    TooLong,
    Here(Bytes),
}

/// A tree of files. What it holds is its `state`: the files; the paths that may change at any time, as
/// while a command runs that writes them; what the implementation keeps beside them; a bound on how deep
/// folders go, which ends every way down a tree; and a count of faults.
///
/// Clauses under `tells` hold where the state is what stands in the tree, as in memory. A real disk tells
/// nothing: other programs may change it at any time. The other clauses hold there too.
pub trait Tree {
    /// Whether `state` tells what stands in the tree.
    ghost tells: { Type 0 };

    /// What the implementation keeps beside the files.
    ghost Rest: { Type 0 };

    ghost state: { Self → TreeState Rest };

    /// The names in a folder, ascending, a file before a folder of the same name. A folder that is not
    /// there has none.
    fn list(&mut self, alloc: Global, folder: &RelPath) -> Result<Entries, DevErr>
        ensures looks { Looks (state self.old) (state self.new) }
        ensures ascend { IfOk result (λ names. IsStrictlySortedBy entry_cmp names) }
        ensures proper { IfOk result
            (λ names. All (IsProper (state self.old).reach folder.now) names) }
        ensures names { tells → IfOk result
            (λ names. NamesIn (state self.old).files (state self.old).held folder.now names) }
        ensures cause { HasCause (state self.old).faults (state self.new).faults result };

    /// The bytes at a path, where there are at most `limit` of them.
    fn read(&mut self, alloc: Global, path: &RelPath, limit: u64) -> Result<Found, DevErr>
        requires { (state self.old).held path.now ≡ false }
        ensures looks { Looks (state self.old) (state self.new) }
        ensures found { tells → IfOk result
            (λ found. found ≡ within limit ((state self.old).files path.now)) }
        ensures cause { HasCause (state self.old).faults (state self.new).faults result };

    /// Puts these bytes at the path, in the place of what was there, and makes the folders above it.
    /// After an error nothing is said of the path itself.
    fn write(&mut self, alloc: Global, path: &RelPath, bytes: &[u8]) -> Result<(), DevErr>
        requires { (state self.old).held path.now ≡ false }
        ensures keeps { Keeps (state self.old) (state self.new) }
        ensures others { tells → SameBut path.now (state self.old).files (state self.new).files }
        ensures written { tells → OnOk result ((state self.new).files path.now ≡ Some bytes.now) }
        ensures cause { HasCause (state self.old).faults (state self.new).faults result };

    /// Takes away what stands at the path, if anything does. After an error nothing is said of the path.
    fn remove(&mut self, alloc: Global, path: &RelPath) -> Result<(), DevErr>
        requires { (state self.old).held path.now ≡ false }
        ensures keeps { Keeps (state self.old) (state self.new) }
        ensures reach { (state self.new).reach ≤ (state self.old).reach }
        ensures others { tells → SameBut path.now (state self.old).files (state self.new).files }
        ensures removed { tells → OnOk result ((state self.new).files path.now ≡ None) }
        ensures cause { HasCause (state self.old).faults (state self.new).faults result };

    /// No path that may change is among the files.
    ghost apart: { (a : Self) → tells → HoldsNothing (state a) };
}
