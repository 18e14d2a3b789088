// Sets of folders, found by their names.
ghost use Rattle.std.specs.Prelude.{◌≡◌, ◌||◌, length, is_some, IfOk, OnOk};
ghost use Rattle.rel_path.specs.Paths.{Path, path_eq, strip};
ghost use Rattle.listing.specs.Memory.{OnlyMemory};
ghost use Rattle.workspaces.specs.Reach.{AreBelow};
ghost use Rattle.workspaces.specs.Space.{owners};
ghost use Rattle.task_inputs.specs.Homes.{LieApart};
ghost use Rattle.pruned_files.specs.Folders.{is_folder, AreFoldersOf, AreAbove, IsBelowSome};
ghost use Rattle.pruned_files.specs.Calls.{owners_at};

use listing::ListErr;
use rel_path::Text;
use std::alloc::Global;
use std::collections::BTreeSet;
use workspaces::Packages;

/// Folders, each by its names from the root down.
pub(crate) type Folders = BTreeSet<Vec<Text>>;

fn copied(alloc: Global, names: &[Text]) -> Result<Vec<Text>, ListErr>
    ensures value { IfOk result (λ copy. copy.items ≡ names.now) }
    ensures memory { OnlyMemory result }
{
    let mut copy = Vec::new(alloc);
    for name in names {
        copy.push(name.copy()?)?;
    }
    Ok(copy)
}

fn add(alloc: Global, folders: &mut Folders, folder: &[Text]) -> Result<(), ListErr>
    ensures added { OnOk result ((other : Path) → is_folder folders.new other
        ≡ (is_folder folders.old other || path_eq other folder.now)) }
    ensures memory { OnlyMemory result }
{
    let names = copied(alloc, folder)?;
    folders.insert(names)?;
    Ok(())
}

/// Adds the folder and those that it lies in.
fn add_above(alloc: Global, folders: &mut Folders, folder: &[Text]) -> Result<(), ListErr>
    ensures added { OnOk result ((other : Path) → is_folder folders.new other
        ≡ (is_folder folders.old other || is_some (strip other folder.now))) }
    ensures memory { OnlyMemory result }
{
    add(alloc, folders, &folder[..0])?;
    for depth in 0..folder.len() {
        add(alloc, folders, &folder[..depth + 1])?;
    }
    Ok(())
}

/// Whether the folder is one of these.
pub(crate) fn has_folder(folders: &Folders, folder: &[Text]) -> bool
    ensures { result ≡ is_folder folders.now folder.now }
{
    folders.contains(folder)
}

/// Whether the path lies below one of the folders that is not the root's.
pub(crate) fn lies_in_some(folders: &Folders, path: &[Text]) -> bool
    ensures { IsBelowSome folders.now path.now result }
{
    for depth in 1..path.len() {
        if has_folder(folders, &path[..depth]) {
            return true;
        }
    }
    false
}

/// The folders of the owners of these numbers.
pub(crate) fn owner_folders(
    alloc: Global,
    packages: &Packages,
    numbers: &[u32],
) -> Result<Folders, ListErr>
    requires { AreBelow (length (owners packages.now)) numbers.now }
    ensures value { IfOk result (AreFoldersOf (owners_at packages.now numbers.now)) }
    ensures memory { OnlyMemory result }
{
    let mut folders = BTreeSet::new(alloc);
    for number in numbers {
        add(alloc, &mut folders, packages.folder(*number).components())?;
    }
    Ok(folders)
}

/// Those folders, and those that they lie in.
pub(crate) fn folders_above(
    alloc: Global,
    packages: &Packages,
    numbers: &[u32],
) -> Result<Folders, ListErr>
    requires { AreBelow (length (owners packages.now)) numbers.now }
    ensures value { IfOk result (AreAbove (owners_at packages.now numbers.now)) }
    ensures memory { OnlyMemory result }
{
    let mut folders = BTreeSet::new(alloc);
    for number in numbers {
        add_above(alloc, &mut folders, packages.folder(*number).components())?;
    }
    Ok(folders)
}

/// The folders of all packages.
pub(crate) fn package_folders(alloc: Global, packages: &Packages) -> Result<Folders, ListErr>
    ensures value { IfOk result (AreFoldersOf packages.now.packages) }
    ensures apart { LieApart packages.now.packages }
    ensures memory { OnlyMemory result }
{
    let mut folders = BTreeSet::new(alloc);
    for number in 0..packages.count() {
        add(alloc, &mut folders, packages.folder(number).components())?;
    }
    Ok(folders)
}
