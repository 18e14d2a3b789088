// The reading of a repository.
ghost use Rattle.std.specs.Prelude.{◌≡◌, false, IfOk};
ghost use Rattle.rel_path.specs.Paths.{Path};
ghost use Rattle.tree_dev.specs.Tree.{Looks};
ghost use Rattle.tree_walk.specs.Walked.{IsWalk};
ghost use Rattle.workspaces.specs.Space.{AreWalked};
ghost use Rattle.refusals.specs.Stops.{HasCause};
ghost use Rattle.repository.specs.Answers.{Reads};

use crate::Repository;
use crate::configs::setup_in;
use crate::lockfile::lockfile;
use crate::root_manifest::root_manifest;
use crate::space::{space_of, walked};
use refusals::Stop;
use std::alloc::Global;
use tree_dev::Tree;

/// Reads a repository. What is tried comes in this order, and the first refusal is answered:
///
/// 1. the root's `package.json`: `NoManifest`, `TooLarge`, `Manifest`;
/// 2. `package-lock.json`, which need not be there: `TooLarge`, `Lock`;
/// 3. the walk over the files: `TooDeep`, `TooMany`, whichever comes first;
/// 4. the globs of `workspaces`: `Glob`;
/// 5. the packages' manifests in the order of their folders: `TooLarge`, `Manifest`; then `Inside`, then `NameTwice`;
/// 6. the root's `turbo.json`, which need not be there: `TooLarge`, and `Config` or `Glob`;
/// 7. where it is there, the packages' in the order of their folders, of which any may be missing: `TooLarge`, and
///    `Config` or `Glob`.
///
/// A file of more than 256 MiB is `TooLarge`. The tree is only looked at.
pub fn read_repository<T: Tree>(alloc: Global, tree: &mut T) -> Result<Repository, Stop>
    requires none { (path : Path) → (T.state tree.old).held path ≡ false }
    ensures looks { Looks (T.state tree.old) (T.state tree.new) }
    ensures reads { T.tells → Reads (T.state tree.old).files result }
    ensures walk { IfOk result (λ r. IsWalk r.walk) }
    ensures walked { IfOk result (λ r. AreWalked r.walk r.packages.packages) }
    ensures cause { HasCause (T.state tree.old).faults (T.state tree.new).faults result }
{
    let root = match root_manifest(alloc, tree) {
        Ok(root) => root,
        Err(e) => return Err(e),
    };
    let lock = match lockfile(alloc, tree) {
        Ok(lock) => lock,
        Err(e) => return Err(e),
    };
    let walk = match walked(alloc, tree) {
        Ok(walk) => walk,
        Err(e) => return Err(e),
    };
    let packages = match space_of(alloc, tree, root, &walk) {
        Ok(packages) => packages,
        Err(e) => return Err(e),
    };
    match setup_in(alloc, tree, &packages) {
        Ok(config) => Ok(Repository {
            walk,
            packages,
            config,
            lock,
        }),
        Err(e) => Err(e),
    }
}
