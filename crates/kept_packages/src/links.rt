// The packages that installed packages are links to.
ghost use Rattle.std.specs.Prelude.{◌<◌, ◌∷◌, [], length, OnOk};
ghost use Rattle.workspaces.specs.Space.{Space, owners};
ghost use Rattle.repository.specs.Reading.{contents_of};
ghost use Rattle.kept_packages.specs.Needs.{Gains, Leads, HasLink};
ghost use Rattle.kept_packages.specs.Steps.{OnlyMemory, IsIndex, IsWrittenIn};

use crate::KeptErr;
use crate::folders::{Folders, number_by};
use crate::found::add_number;
use collect::starts_of;
use rel_path::Text;
use repository::Repository;
use std::alloc::Global;

/// Adds the packages whose folders the texts write.
fn add_written(
    alloc: Global,
    folders: &Folders,
    texts: &[Text],
    found: &mut Vec<u32>,
) -> Result<(), KeptErr>
    ensures added { (space : Space) → IsIndex space folders.now → OnOk result
        (Gains space (IsWrittenIn space texts.now) found.old.items found.new.items) }
    ensures memory { OnlyMemory result }
{
    for text in texts {
        add_number(found, number_by(alloc, folders, text)?)?;
    }
    Ok(())
}

/// Adds the packages to which some of the installed packages that the owner of this number uses are links. Without a
/// lockfile there are none.
pub(crate) fn add_linked(
    alloc: Global,
    repository: &Repository,
    folders: &Folders,
    owner: u32,
    found: &mut Vec<u32>,
) -> Result<(), KeptErr>
    requires owner { owner < length (owners repository.now.packages) }
    requires index { IsIndex repository.now.packages folders.now }
    ensures added { OnOk result (Gains repository.now.packages
        (Leads repository.now.packages (HasLink (contents_of repository.now)) (owner ∷ []))
        found.old.items found.new.items) }
    ensures memory { OnlyMemory result }
{
    let Some(lock) = &repository.lock else {
        return Ok(());
    };
    let starts = starts_of(alloc, &repository.packages, owner)?;
    let texts = lock.links(alloc, starts.as_slice())?;
    add_written(alloc, folders, texts.as_slice(), found)
}
