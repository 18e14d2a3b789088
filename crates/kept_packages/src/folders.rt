// Packages by their folders.
ghost use Rattle.std.specs.Prelude.{◌≡◌, ◌≢◌, IfOk, OnOk, Some, None, if◌then◌else◌};
ghost use Rattle.rel_path.specs.Paths.{Path, AreNames, path_eq};
ghost use Rattle.task_inputs.specs.Folders.{IsFound, number_at};
ghost use Rattle.workspaces.specs.Space.{Space, IsProper};
ghost use Rattle.kept_packages.specs.Steps.{OnlyMemory, IsIndex, IsNumber, IsWritten};

use crate::KeptErr;
use rel_path::{PathErr, RelPath, Text};
use std::alloc::Global;
use std::collections::BTreeMap;
use workspaces::Packages;

/// The numbers of packages by the names in their folders.
pub(crate) type Folders = BTreeMap<Vec<Text>, u32>;

fn names_of(alloc: Global, folder: &RelPath) -> Result<Vec<Text>, KeptErr>
    ensures value { IfOk result (λ names. names.items ≡ folder.now) }
    ensures names { IfOk result (λ names. AreNames folder.now) }
    ensures memory { OnlyMemory result }
{
    let mut names = Vec::new(alloc);
    for name in folder.components() {
        names.push(name.copy()?)?;
    }
    Ok(names)
}

/// Puts the number by the folder.
fn add_folder(
    alloc: Global,
    folders: &mut Folders,
    folder: &RelPath,
    number: u32,
) -> Result<(), KeptErr>
    ensures added { OnOk result ((other : Path) → number_at folders.new other
        ≡ (if path_eq other folder.now then Some number else number_at folders.old other)) }
    ensures names { OnOk result (AreNames folder.now) }
    ensures memory { OnlyMemory result }
{
    let names = names_of(alloc, folder)?;
    folders.insert(names, number)?;
    Ok(())
}

/// The number of each package by its folder.
pub(crate) fn index(alloc: Global, packages: &Packages) -> Result<Folders, KeptErr>
    ensures index { IfOk result (IsIndex packages.now) }
    ensures proper { IfOk result (λ folders. IsProper packages.now) }
    ensures memory { OnlyMemory result }
{
    let mut folders = BTreeMap::new(alloc);
    for p in 0..packages.count() {
        add_folder(alloc, &mut folders, packages.folder(p), p)?;
    }
    Ok(folders)
}

fn number_at(folders: &Folders, folder: &[Text]) -> Option<u32>
    ensures { result ≡ number_at folders.now folder.now }
{
    folders.get(folder).copied()
}

/// A text that writes no path is the folder of no package.
fn no_number(fault: PathErr) -> Result<Option<u32>, KeptErr>
    ensures none { IfOk result (λ number. number ≡ None) }
    ensures refused { OnOk result (fault ≢ PathErr.OutOfMemory) }
    ensures memory { OnlyMemory result }
{
    match fault {
        PathErr::Empty | PathErr::DotPart | PathErr::Slash => Ok(None),
        PathErr::OutOfMemory => Err(KeptErr::OutOfMemory),
    }
}

/// The package whose folder the text writes.
pub(crate) fn number_by(
    alloc: Global,
    folders: &Folders,
    text: &Text,
) -> Result<Option<u32>, KeptErr>
    ensures number { (space : Space) → IsIndex space folders.now
        → IfOk result (IsNumber space.packages (IsWritten text.now)) }
    ensures memory { OnlyMemory result }
{
    match RelPath::read(alloc, text.as_str()) {
        Ok(path) => Ok(number_at(folders, path.components())),
        Err(fault) => no_number(fault),
    }
}

/// The package in whose folder the path lies.
pub(crate) fn number_above(folders: &Folders, path: &[Text]) -> Option<u32>
    ensures { IsFound folders.now path.now result }
{
    let mut depth = path.len();
    while depth > 0 {
        depth -= 1;
        if let Some(number) = number_at(folders, &path[..depth]) {
            return Some(number);
        }
    }
    None
}
