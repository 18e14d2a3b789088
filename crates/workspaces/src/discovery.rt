// The packages of a workspace, found in a tree.
ghost use Rattle.std.specs.Prelude.{◌≡◌, ◌<◌, ◌^◌, false, length, AllPairs, IfOk, MatchResult, None};
ghost use Rattle.rel_path.specs.Paths.{Path};
ghost use Rattle.tree_dev.specs.Tree.{Looks};
ghost use Rattle.manifest.specs.Manifest.{AreAscending};
ghost use Rattle.workspaces.specs.Lists.{ascending};
ghost use Rattle.workspaces.specs.Order.{package_cmp};
ghost use Rattle.workspaces.specs.Space.{space_of, checks_fault, AreApart, AreWalked, Discovers};
ghost use Rattle.workspaces.specs.Reading.{DifferByFolder};
ghost use Rattle.workspaces.specs.Steps.{HasCause, MayRefuse, AscendingNames};

use crate::checks::{check_inside, check_twice, sorted_packages};
use crate::entries::read_globs;
use crate::folders::package_folders;
use crate::reading::read_packages;
use crate::{Package, Packages, SpaceErr};
use manifest::Manifest;
use rel_path::Paths;
use std::alloc::Global;
use tree_dev::Tree;

/// The packages in the order of their names, where none lies inside another and no two have one name.
fn checked(packages: Vec<Package>) -> Result<Vec<Package>, SpaceErr>
    requires { DifferByFolder packages.items }
    ensures found { MatchResult result
        (λ sorted. (checks_fault packages.items ≡ None)
        × (sorted.items ≡ ascending package_cmp packages.items))
        (MayRefuse (checks_fault packages.items)) }
    ensures names { IfOk result (λ sorted. AscendingNames sorted.items) }
    ensures apart { IfOk result
        (λ sorted. AllPairs (λ p q. AreApart p.folder q.folder) sorted.items) }
    ensures few { IfOk result (λ sorted. length sorted.items < 2 ^ 32) }
    ensures no_failure { HasCause 0 0 result }
{
    check_inside(packages.as_slice())?;
    let sorted = sorted_packages(packages)?;
    check_twice(sorted.as_slice())?;
    if sorted.len() > u32::MAX as usize {
        return Err(SpaceErr::OutOfMemory);
    }
    Ok(sorted)
}

/// The packages of the workspace with this root manifest, by the walked files of the tree, ascending.
///
/// A folder other than the root that holds a walked `package.json` is a package where the globs of `workspaces` take
/// it whole; a leading `./` and a trailing `/` of an entry are dropped, and one with a `!` in front then excludes. The
/// refusals come in this order: `Glob`, for the first entry that is no glob; `TooLarge` and `Manifest` of the first
/// package in the order of folders; `Inside`, for the least package folder that lies in another; `NameTwice`, for the
/// least name that two packages have, with the first two folders. Whatever the tree tells, the manifest of each package
/// is a walked file.
pub fn discover<T: Tree>(
    alloc: Global,
    tree: &mut T,
    root: Manifest,
    walk: &Paths,
) -> Result<Packages, SpaceErr>
    requires root { AreAscending root }
    requires held { (path : Path) → (T.state tree.old).held path ≡ false }
    ensures looks { Looks (T.state tree.old) (T.state tree.new) }
    ensures found { T.tells → Discovers (space_of (T.state tree.old).files walk.now root) result }
    ensures walked { IfOk result (λ space. AreWalked walk.now space.packages) }
    ensures cause { HasCause (T.state tree.old).faults (T.state tree.new).faults result }
{
    let globs = read_globs(alloc, &root)?;
    let folders = package_folders(alloc, &globs, walk.as_slice())?;
    let packages = match read_packages(alloc, tree, folders.as_slice()) {
        Ok(packages) => packages,
        Err(fault) => return Err(fault),
    };
    let packages = checked(packages)?;
    Packages::new(alloc, root, packages)
}
