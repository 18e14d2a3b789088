// The packages of which tasks take files from afar.
ghost use Rattle.std.specs.Prelude.{◌≡◌, IfOk, OnOk, length};
ghost use Rattle.workspaces.specs.Reach.{AreBelow};
ghost use Rattle.workspaces.specs.Space.{Space, IsProper, owners};
ghost use Rattle.repository.specs.Reading.{contents_of};
ghost use Rattle.kept_packages.specs.Kept.{has_root_task};
ghost use Rattle.kept_packages.specs.Needs.{Gains, Leads, GivesFile};
ghost use Rattle.kept_packages.specs.Steps.{OnlyMemory, IsIndex, IsHomeIn};

use crate::KeptErr;
use crate::folders::{Folders, number_above};
use crate::found::add_number;
use rel_path::{Places, RelPath};
use repository::Repository;
use std::alloc::Global;
use task_inputs::rooted;

/// Whether the root has a script with a definition.
pub(crate) fn has_root_task(alloc: Global, repository: &Repository) -> Result<bool, KeptErr>
    ensures value { IfOk result (λ has. has ≡ has_root_task (contents_of repository.now)) }
    ensures memory { OnlyMemory result }
{
    let packages = &repository.packages;
    let root = packages.name(packages.count());
    for script in packages.root().scripts.as_slice() {
        if repository
            .config
            .task_def(alloc, root, &script.0)?
            .is_some()
        {
            return Ok(true);
        }
    }
    Ok(false)
}

/// Adds the packages in whose folders the paths lie.
fn add_homes(folders: &Folders, paths: &[RelPath], found: &mut Vec<u32>) -> Result<(), KeptErr>
    ensures added { (space : Space) → IsProper space → IsIndex space folders.now → OnOk result
        (Gains space (IsHomeIn space paths.now) found.old.items found.new.items) }
    ensures memory { OnlyMemory result }
{
    for path in paths {
        add_number(found, number_above(folders, path.components()))?;
    }
    Ok(())
}

/// Adds the packages of which tasks of these owners take files through globs of the root or global ones. It goes once
/// through all walked files.
pub(crate) fn add_givers(
    alloc: Global,
    repository: &Repository,
    folders: &Folders,
    users: &Places,
    found: &mut Vec<u32>,
) -> Result<(), KeptErr>
    requires below { AreBelow (length (owners repository.now.packages)) users.now }
    requires proper { IsProper repository.now.packages }
    requires index { IsIndex repository.now.packages folders.now }
    ensures added { OnOk result (Gains repository.now.packages
        (Leads repository.now.packages (GivesFile (contents_of repository.now)) users.now)
        found.old.items found.new.items) }
    ensures memory { OnlyMemory result }
{
    let packages = &repository.packages;
    let paths = rooted(alloc, &repository.walk, packages, &repository.config, users)?;
    add_homes(folders, paths.as_slice(), found)
}
