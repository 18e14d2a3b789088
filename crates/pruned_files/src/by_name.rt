// Owners in the order of their names.
ghost use Rattle.std.specs.Prelude.{◌≡◌, ◌<◌, ◌++◌, length, IfOk, OnOk};
ghost use Rattle.std.specs.List.{HoldsAt};
ghost use Rattle.workspaces.specs.Reach.{AreBelow};
ghost use Rattle.workspaces.specs.Space.{owners};
ghost use Rattle.pruned_files.specs.Lacks.{is_before_root};
ghost use Rattle.pruned_files.specs.Calls.{OnlyMemory, side_at, is_side, on_side, by_name};

use crate::CutErr;
use std::alloc::Global;
use workspaces::Packages;

/// The name of the root among the owners.
const ROOT_NAME: &str = "//";

/// Where an owner stands in the order of names.
#[derive(Clone, Copy)]
enum Side {
    BeforeRoot,
    Root,
    BehindRoot,
}

fn is_side(side: Side, other: Side) -> bool
    ensures { result ≡ is_side side other }
{
    matches!(
        (side, other),
        (Side::BeforeRoot, Side::BeforeRoot)
            | (Side::Root, Side::Root)
            | (Side::BehindRoot, Side::BehindRoot)
    )
}

fn is_before_root(packages: &Packages, owner: u32) -> bool
    requires { owner < length (owners packages.now) }
    ensures { HoldsAt (λ p. result ≡ is_before_root p) (owners packages.now) owner }
{
    packages.name(owner).as_str().cmp(ROOT_NAME).is_lt()
}

fn side_at(packages: &Packages, owner: u32) -> Side
    requires { owner < length (owners packages.now) }
    ensures { result ≡ side_at packages.now owner }
{
    if owner >= packages.count() {
        Side::Root
    } else if is_before_root(packages, owner) {
        Side::BeforeRoot
    } else {
        Side::BehindRoot
    }
}

/// Adds those of the owners that stand there.
fn add_side(
    ordered: &mut Vec<u32>,
    packages: &Packages,
    numbers: &[u32],
    side: Side,
) -> Result<(), CutErr>
    requires { AreBelow (length (owners packages.now)) numbers.now }
    ensures added { OnOk result (ordered.new.items
        ≡ ordered.old.items ++ on_side packages.now side numbers.now) }
    ensures memory { OnlyMemory result }
{
    for number in numbers {
        if is_side(side_at(packages, *number), side) {
            ordered.push(*number)?;
        }
    }
    Ok(())
}

/// The same owners in the order of their names, in which the root is called `//`.
pub(crate) fn by_name(
    alloc: Global,
    packages: &Packages,
    numbers: &[u32],
) -> Result<Vec<u32>, CutErr>
    requires { AreBelow (length (owners packages.now)) numbers.now }
    ensures value { IfOk result (λ ordered. ordered.items ≡ by_name packages.now numbers.now) }
    ensures memory { OnlyMemory result }
{
    let mut ordered = Vec::new(alloc);
    add_side(&mut ordered, packages, numbers, Side::BeforeRoot)?;
    add_side(&mut ordered, packages, numbers, Side::Root)?;
    add_side(&mut ordered, packages, numbers, Side::BehindRoot)?;
    Ok(ordered)
}
