// The packages in some folders, read from a tree.
ghost use Rattle.std.specs.Prelude.{◌≡◌, ◌⊎◌, ◌++◌, false, IfOk, IfSome, OnOk, Ok, Err, MatchResult};
ghost use Rattle.std.specs.List.Sorted.{IsStrictlySortedBy};
ghost use Rattle.rel_path.specs.Paths.{Path, path_cmp};
ghost use Rattle.tree_dev.specs.Tree.{Looks, within};
ghost use Rattle.workspaces.specs.Space.{manifest_in, package_of, package_at, packages_at, Discovers};
ghost use Rattle.rel_path.specs.Limits.{file_limit};
ghost use Rattle.workspaces.specs.Steps.{OnlyMemory, HasCause};
ghost use Rattle.workspaces.specs.Reading.{as_fault, IsReadIn, AreReadIn, with_package};

use crate::{Package, SpaceErr};
use manifest::{Manifest, ManifestErr};
use rel_path::limits::MAX_FILE_BYTES;
use rel_path::{RelPath, Text};
use std::alloc::Global;
use tree_dev::{DevErr, Found, Tree};

/// The package of the folder with that manifest.
fn package_of(alloc: Global, folder: &RelPath, manifest: Manifest) -> Result<Package, SpaceErr>
    ensures value { IfOk result (λ member. member ≡ package_of folder.now manifest) }
    ensures memory { OnlyMemory result }
{
    let name = match &manifest.name {
        Some(name) => name.copy()?,
        None => Text::read(alloc, "")?,
    };
    let folder = folder.copy()?;
    Ok(Package {
        name,
        folder,
        manifest,
    })
}

/// The manifest at the path is none, for that reason.
fn bad_manifest(path: RelPath, fault: ManifestErr) -> SpaceErr
    ensures { result ≡ as_fault path fault }
{
    match fault {
        ManifestErr::OutOfMemory => SpaceErr::OutOfMemory,
        fault => SpaceErr::Manifest { path, fault },
    }
}

/// The package in the folder, by what was found at the path of its manifest.
fn package_at(
    alloc: Global,
    folder: &RelPath,
    path: RelPath,
    found: Found,
) -> Result<Option<Package>, SpaceErr>
    requires { path ≡ manifest_in folder.now }
    ensures found { MatchResult result
        (λ member. package_at folder.now found ≡ Ok member)
        (λ e. (e ≡ SpaceErr.OutOfMemory) ⊎ (package_at folder.now found ≡ Err e)) }
    ensures own { IfOk result (λ member. IfSome member (IsReadIn folder.now)) }
    ensures no_failure { HasCause 0 0 result }
{
    match found {
        Found::Absent => Ok(None),
        Found::TooLong => Err(SpaceErr::TooLarge { path }),
        Found::Here(bytes) => match Manifest::read(alloc, bytes.as_slice(), false) {
            Ok(manifest) => Ok(Some(package_of(alloc, folder, manifest)?)),
            Err(fault) => Err(bad_manifest(path, fault)),
        },
    }
}

/// The package in the folder, if there is one.
fn read_package<T: Tree>(
    alloc: Global,
    tree: &mut T,
    folder: &RelPath,
) -> Result<Option<Package>, SpaceErr>
    requires { (path : Path) → (T.state tree.old).held path ≡ false }
    ensures looks { Looks (T.state tree.old) (T.state tree.new) }
    ensures found { T.tells → Discovers (package_at folder.now
        (within file_limit ((T.state tree.old).files (manifest_in folder.now)))) result }
    ensures own { IfOk result (λ member. IfSome member (IsReadIn folder.now)) }
    ensures cause { HasCause (T.state tree.old).faults (T.state tree.new).faults result }
{
    let path = match folder.join(alloc, "package.json") {
        Ok(path) => path,
        Err(_) => return Err(SpaceErr::OutOfMemory),
    };
    match tree.read(alloc, &path, MAX_FILE_BYTES) {
        Ok(found) => package_at(alloc, folder, path, found),
        Err(DevErr::Failed) => Err(SpaceErr::Failed),
        Err(DevErr::OutOfMemory) => Err(SpaceErr::OutOfMemory),
    }
}

fn push_some(packages: &mut Vec<Package>, member: Option<Package>) -> Result<(), SpaceErr>
    ensures pushed { OnOk result (packages.new.items ≡ packages.old.items ++ with_package member) }
    ensures memory { OnlyMemory result }
{
    if let Some(member) = member {
        packages.push(member)?;
    }
    Ok(())
}

/// The packages in these folders, in their order.
pub(crate) fn read_packages<T: Tree>(
    alloc: Global,
    tree: &mut T,
    folders: &[RelPath],
) -> Result<Vec<Package>, SpaceErr>
    requires held { (path : Path) → (T.state tree.old).held path ≡ false }
    requires ascend { IsStrictlySortedBy path_cmp folders.now }
    ensures looks { Looks (T.state tree.old) (T.state tree.new) }
    ensures found { T.tells → MatchResult result
        (λ packages. packages_at (T.state tree.old).files folders.now ≡ Ok packages.items)
        (λ e. (e ≡ SpaceErr.OutOfMemory)
        ⊎ ((e ≡ SpaceErr.Failed) ⊎ (packages_at (T.state tree.old).files folders.now ≡ Err e))) }
    ensures own { IfOk result (λ packages. AreReadIn folders.now packages.items) }
    ensures cause { HasCause (T.state tree.old).faults (T.state tree.new).faults result }
{
    let mut packages = Vec::new(alloc);
    for folder in folders {
        match read_package(alloc, tree, folder) {
            Ok(package) => push_some(&mut packages, package)?,
            Err(fault) => return Err(fault),
        }
    }
    Ok(packages)
}
