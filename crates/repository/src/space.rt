// The walk and the workspace, with their faults as refusals.
ghost use Rattle.std.specs.Prelude.{◌≡◌, false, IfOk};
ghost use Rattle.rel_path.specs.Paths.{Path};
ghost use Rattle.tree_dev.specs.Tree.{Looks};
ghost use Rattle.manifest.specs.Manifest.{AreAscending};
ghost use Rattle.tree_walk.specs.Walked.{IsWalk};
ghost use Rattle.workspaces.specs.Space.{manifest_name, space_of, AreWalked};
ghost use Rattle.repository.specs.Steps.{at_root};
ghost use Rattle.refusals.specs.Stops.{HasCause};
ghost use Rattle.repository.specs.Answers.{AnswersWalk, AnswersSpace, walk_stop, space_stop};

use manifest::Manifest;
use refusals::{Refusal, Stop};
use rel_path::{Paths, RelPath};
use std::alloc::Global;
use tree_dev::Tree;
use tree_walk::{WalkErr, walk};
use workspaces::{Packages, SpaceErr, discover};

fn walk_refused(fault: WalkErr) -> Stop
    ensures { result ≡ walk_stop fault }
{
    match fault {
        WalkErr::TooDeep { path } => Stop::Refused(Refusal::TooDeep { path }),
        WalkErr::TooMany => Stop::Refused(Refusal::TooMany),
        WalkErr::Failed => Stop::Failed,
        WalkErr::OutOfMemory => Stop::OutOfMemory,
    }
}

/// The walked files. The refusals: `TooDeep`, `TooMany`.
pub(crate) fn walked<T: Tree>(alloc: Global, tree: &mut T) -> Result<Paths, Stop>
    requires none { (path : Path) → (T.state tree.old).held path ≡ false }
    ensures looks { Looks (T.state tree.old) (T.state tree.new) }
    ensures answers { T.tells → AnswersWalk (T.state tree.old).files result }
    ensures walk { IfOk result IsWalk }
    ensures cause { HasCause (T.state tree.old).faults (T.state tree.new).faults result }
{
    match walk(alloc, tree) {
        Ok(walk) => Ok(walk),
        Err(fault) => Err(walk_refused(fault)),
    }
}

fn space_refused(manifest: RelPath, fault: SpaceErr) -> Stop
    requires { manifest ≡ at_root manifest_name }
    ensures { result ≡ space_stop fault }
{
    let reason = match fault {
        SpaceErr::Glob { pointer, fault } => Refusal::Glob {
            path: manifest,
            pointer,
            fault,
        },
        SpaceErr::TooLarge { path } => Refusal::TooLarge { path },
        SpaceErr::Manifest { path, fault } => Refusal::Manifest { path, fault },
        SpaceErr::Inside { outer, inner } => Refusal::Inside { outer, inner },
        SpaceErr::NameTwice {
            name,
            first,
            second,
        } => Refusal::NameTwice {
            name,
            first,
            second,
        },
        SpaceErr::Failed => return Stop::Failed,
        SpaceErr::OutOfMemory => return Stop::OutOfMemory,
    };
    Stop::Refused(reason)
}

/// The packages of the workspace. The refusals: `Glob`, `TooLarge` and `Manifest`, `Inside`, `NameTwice`.
pub(crate) fn space_of<T: Tree>(
    alloc: Global,
    tree: &mut T,
    root: Manifest,
    walk: &Paths,
) -> Result<Packages, Stop>
    requires root { AreAscending root }
    requires none { (path : Path) → (T.state tree.old).held path ≡ false }
    ensures looks { Looks (T.state tree.old) (T.state tree.new) }
    ensures answers { T.tells
        → AnswersSpace (space_of (T.state tree.old).files walk.now root) result }
    ensures walked { IfOk result (λ packages. AreWalked walk.now packages.packages) }
    ensures cause { HasCause (T.state tree.old).faults (T.state tree.new).faults result }
{
    let manifest = match RelPath::root(alloc).join(alloc, "package.json") {
        Ok(path) => path,
        Err(_) => return Err(Stop::OutOfMemory),
    };
    match discover(alloc, tree, root, walk) {
        Ok(packages) => Ok(packages),
        Err(fault) => Err(space_refused(manifest, fault)),
    }
}
