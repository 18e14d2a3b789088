// The owners that stay.
ghost use Rattle.std.specs.Prelude.{◌≡◌, length, IfOk};
ghost use Rattle.workspaces.specs.Lists.{places};
ghost use Rattle.workspaces.specs.Marks.{itself};
ghost use Rattle.workspaces.specs.Reach.{AreBelow};
ghost use Rattle.workspaces.specs.Space.{owners};
ghost use Rattle.repository.specs.Reading.{contents_of};
ghost use Rattle.kept_packages.specs.Answers.{Keeps};
ghost use Rattle.kept_packages.specs.Needs.{Reaches};
ghost use Rattle.kept_packages.specs.Steps.{OnlyMemory, IsKnown};

use crate::KeptErr;
use crate::front::{Front, add};
use crate::needs::{Known, known_of, needs_of};
use crate::targets::first_owners;
use rel_path::{Places, Texts};
use repository::Repository;
use std::alloc::Global;
use workspaces::{Packages, marked};

/// Marks the first owners, and with each owner what it needs. Owners that were found in one round wait for the next, so
/// that the files are gone through once for each round.
fn reached(
    alloc: Global,
    repository: &Repository,
    known: &Known,
    first: &[u32],
) -> Result<Vec<bool>, KeptErr>
    requires known { IsKnown (contents_of repository.now) known.now }
    requires first { AreBelow (length (owners repository.now.packages)) first.now }
    ensures reaches { IfOk result
        (λ marks. Reaches (contents_of repository.now) first.now marks.items) }
    ensures memory { OnlyMemory result }
{
    let owners = repository.packages.count() as usize + 1;
    let mut front = Front {
        marks: vec![in alloc; false; owners]?,
        waiting: Places::new(alloc),
    };
    add(&mut front, first)?;
    while !front.waiting.as_slice().is_empty() {
        let needs = needs_of(alloc, repository, known, &front.waiting)?;
        front.waiting = Places::new(alloc);
        add(&mut front, needs.as_slice())?;
    }
    Ok(front.marks)
}

/// The numbers of the owners that are marked, ascending.
fn numbers_of(alloc: Global, packages: &Packages, marks: &[bool]) -> Result<Places, KeptErr>
    requires { length marks.now ≡ length (owners packages.now) }
    ensures value { IfOk result (λ numbers. numbers ≡ places itself marks.now) }
    ensures memory { OnlyMemory result }
{
    let root = packages.count();
    let mut numbers = marked(alloc, &marks[..root as usize])?;
    if marks[root as usize] {
        numbers.push(root)?;
    }
    Ok(numbers)
}

/// The numbers of the owners that stay where the packages of these names are wanted, ascending: the packages in the
/// order of their names and, behind them, the root.
///
/// They are the targets, the packages that the root depends on, and with each owner the packages that it depends on, the
/// owners whose tasks its tasks name in `dependsOn` as `package#task`, and the packages to which some of the installed
/// packages that it uses are links (npm docs, "workspaces"). Where the root has a configured task, they are besides the
/// packages of which its tasks take files through globs that are relative to the root. With the root, which only a text
/// `//#task` keeps, they are all packages.
///
/// # Errors
/// `NoPackage` for the first of the names that no package has.
pub fn kept(alloc: Global, targets: &Texts, repository: &Repository) -> Result<Places, KeptErr>
    ensures { Keeps (contents_of repository.now) targets.now result }
{
    let packages = &repository.packages;
    let first = first_owners(alloc, targets.as_slice(), packages)?;
    let known = known_of(alloc, repository)?;
    let marks = reached(alloc, repository, &known, first.as_slice())?;
    numbers_of(alloc, packages, marks.as_slice())
}
