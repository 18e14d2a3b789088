// What tasks of the root must not declare.
ghost use Rattle.std.specs.Prelude.{◌≡◌, map, IfOk};
ghost use Rattle.std.specs.List.{AllByRecursion};
ghost use Rattle.folder_globs.specs.Exclusions.{exclusion, IsFolder};
ghost use Rattle.workspaces.specs.Space.{IsProper};
ghost use Rattle.collect.specs.Parts.{package_folders};
ghost use Rattle.collect.specs.Steps.{OnlyMemory};

use crate::CollectErr;
use folder_globs::exclusion;
use rel_path::{RelPath, Text, Texts};
use std::alloc::Global;
use std::collections::BTreeSet;
use workspaces::Packages;

/// The folders of the packages, ascending.
fn folders_of(alloc: Global, packages: &Packages) -> Result<BTreeSet<RelPath>, CollectErr>
    ensures value { IfOk result (λ folders. folders.keys ≡ package_folders packages.now) }
    ensures proper { IfOk result (λ _. IsProper packages.now) }
    ensures memory { OnlyMemory result }
{
    let mut folders = BTreeSet::new(alloc);
    let mut p = packages.count();
    while p > 0 {
        p -= 1;
        folders.insert(packages.folder(p).copy()?)?;
    }
    Ok(folders)
}

/// The text that excludes what lies below the folder.
fn exclusion_of(alloc: Global, folder: &RelPath) -> Result<Text, CollectErr>
    ensures value { IfOk result (λ text. text ≡ exclusion folder.now) }
    ensures folder { IfOk result (λ _. IsFolder folder.now) }
    ensures memory { OnlyMemory result }
{
    // The components say of themselves that they are names.
    let _names = folder.components();
    Ok(exclusion(alloc, folder)?)
}

/// For each package one text that excludes what lies below its folder, ascending by folder.
pub(crate) fn exclusions_of(alloc: Global, packages: &Packages) -> Result<Texts, CollectErr>
    ensures value { IfOk result (λ texts. texts ≡ map exclusion (package_folders packages.now)) }
    ensures folders { IfOk result
        (λ _. AllByRecursion (λ p. IsFolder p.folder) packages.now.packages) }
    ensures proper { IfOk result (λ _. IsProper packages.now) }
    ensures memory { OnlyMemory result }
{
    let folders = folders_of(alloc, packages)?;
    let mut texts = Texts::new(alloc);
    for folder in &folders {
        texts.push(exclusion_of(alloc, folder)?)?;
    }
    Ok(texts)
}
