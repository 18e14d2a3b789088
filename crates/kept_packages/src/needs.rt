// What owners need of one another.
ghost use Rattle.std.specs.Prelude.{◌<◌, ◌∷◌, [], length, IfOk, OnOk};
ghost use Rattle.workspaces.specs.Reach.{AreBelow};
ghost use Rattle.workspaces.specs.Space.{owners};
ghost use Rattle.repository.specs.Reading.{contents_of};
ghost use Rattle.kept_packages.specs.Needs.{Gains, Leads, IsEdge, IsOfRoot, NeedsOne, Needs};
ghost use Rattle.kept_packages.specs.Steps.{OnlyMemory, IsKnown};

use crate::KeptErr;
use crate::files::{add_givers, has_root_task};
use crate::folders::{Folders, index};
use crate::links::add_linked;
use crate::tasks::add_named;
use rel_path::{Places, Texts};
use repository::Repository;
use std::alloc::Global;
use workspaces::Packages;

/// What is asked of a repository once, for all owners.
#[derive(Drop)]
pub(crate) struct Known {
    pub(crate) folders: Folders,
    /// The names of tasks.
    pub(crate) names: Texts,
    /// Whether files are looked at: the root has a configured task.
    pub(crate) with_files: bool,
}

pub(crate) fn known_of(alloc: Global, repository: &Repository) -> Result<Known, KeptErr>
    ensures known { IfOk result (IsKnown (contents_of repository.now)) }
    ensures memory { OnlyMemory result }
{
    let folders = index(alloc, &repository.packages)?;
    let names = repository.config.names(alloc)?;
    let with_files = has_root_task(alloc, repository)?;
    Ok(Known {
        folders,
        names,
        with_files,
    })
}

/// Adds the packages that the owner depends on.
pub(crate) fn add_edges(
    packages: &Packages,
    owner: u32,
    found: &mut Vec<u32>,
) -> Result<(), KeptErr>
    requires { owner < length (owners packages.now) }
    ensures added { OnOk result (Gains packages.now
        (Leads packages.now (IsEdge packages.now) (owner ∷ [])) found.old.items found.new.items) }
    ensures memory { OnlyMemory result }
{
    found.extend_from_slice(packages.edges(owner).as_slice())?;
    Ok(())
}

/// Adds all packages where the owner is the root.
fn add_all(packages: &Packages, owner: u32, found: &mut Vec<u32>) -> Result<(), KeptErr>
    requires { owner < length (owners packages.now) }
    ensures added { OnOk result (Gains packages.now
        (Leads packages.now (IsOfRoot packages.now) (owner ∷ []))
        found.old.items found.new.items) }
    ensures memory { OnlyMemory result }
{
    if owner < packages.count() {
        return Ok(());
    }
    for p in 0..packages.count() {
        found.push(p)?;
    }
    Ok(())
}

/// Adds what the owner needs, but for packages of which its tasks take files.
fn add_needs(
    alloc: Global,
    repository: &Repository,
    known: &Known,
    owner: u32,
    found: &mut Vec<u32>,
) -> Result<(), KeptErr>
    requires owner { owner < length (owners repository.now.packages) }
    requires known { IsKnown (contents_of repository.now) known.now }
    ensures added { OnOk result (Gains repository.now.packages
        (Leads repository.now.packages (NeedsOne (contents_of repository.now)) (owner ∷ []))
        found.old.items found.new.items) }
    ensures memory { OnlyMemory result }
{
    add_edges(&repository.packages, owner, found)?;
    add_named(alloc, repository, known.names.as_slice(), owner, found)?;
    add_linked(alloc, repository, &known.folders, owner, found)?;
    add_all(&repository.packages, owner, found)
}

/// Adds what these owners need, but for packages of which their tasks take files.
fn add_all_needs(
    alloc: Global,
    repository: &Repository,
    known: &Known,
    users: &[u32],
    found: &mut Vec<u32>,
) -> Result<(), KeptErr>
    requires users { AreBelow (length (owners repository.now.packages)) users.now }
    requires known { IsKnown (contents_of repository.now) known.now }
    ensures added { OnOk result (Gains repository.now.packages
        (Leads repository.now.packages (NeedsOne (contents_of repository.now)) users.now)
        found.old.items found.new.items) }
    ensures memory { OnlyMemory result }
{
    for owner in users {
        add_needs(alloc, repository, known, *owner, found)?;
    }
    Ok(())
}

/// What these owners need.
pub(crate) fn needs_of(
    alloc: Global,
    repository: &Repository,
    known: &Known,
    users: &Places,
) -> Result<Vec<u32>, KeptErr>
    requires users { AreBelow (length (owners repository.now.packages)) users.now }
    requires known { IsKnown (contents_of repository.now) known.now }
    ensures needs { IfOk result (λ needs. Gains repository.now.packages
        (Leads repository.now.packages (Needs (contents_of repository.now)) users.now)
        [] needs.items) }
    ensures memory { OnlyMemory result }
{
    let mut needs = Vec::new(alloc);
    add_all_needs(alloc, repository, known, users.as_slice(), &mut needs)?;
    if known.with_files {
        add_givers(alloc, repository, &known.folders, users, &mut needs)?;
    }
    Ok(needs)
}
