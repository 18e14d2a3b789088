// What packages may not be to one another.
ghost use Rattle.std.specs.Prelude.{◌≡◌, IfOk, MatchResult, None, Some, false};
ghost use Rattle.workspaces.specs.Lists.{ascending};
ghost use Rattle.workspaces.specs.Order.{package_cmp};
ghost use Rattle.workspaces.specs.Space.{inside_fault, twice_fault, lies_below};
ghost use Rattle.workspaces.specs.Steps.{OnlyMemory, MayRefuse, HasCause, is_failed};
ghost use Rattle.workspaces.specs.Reading.{DifferByFolder};

use crate::{Package, SpaceErr};
use rel_path::RelPath;

fn lies_below(path: &RelPath, folder: &RelPath) -> bool
    ensures { result ≡ lies_below path.now folder.now }
{
    path.below(folder)
}

/// The one package lies inside the other.
fn inside(outer: &Package, inner: &Package) -> SpaceErr
    ensures refusal { MayRefuse (Some (SpaceErr.Inside outer.now.folder inner.now.folder)) result }
    ensures no_failure { is_failed result ≡ false }
{
    match (outer.folder.copy(), inner.folder.copy()) {
        (Ok(outer), Ok(inner)) => SpaceErr::Inside { outer, inner },
        _ => SpaceErr::OutOfMemory,
    }
}

/// The two packages have one name.
fn twice(first: &Package, second: &Package) -> SpaceErr
    ensures refusal { MayRefuse
        (Some (SpaceErr.NameTwice first.now.name first.now.folder second.now.folder)) result }
    ensures no_failure { is_failed result ≡ false }
{
    match (first.name.copy(), first.folder.copy(), second.folder.copy()) {
        (Ok(name), Ok(first), Ok(second)) => SpaceErr::NameTwice {
            name,
            first,
            second,
        },
        _ => SpaceErr::OutOfMemory,
    }
}

/// That of packages, in the order of their folders, none lies inside the one before it.
#[tactic(auto, unfolding(crate::specs::Space::inside_fault))]
pub(crate) fn check_inside(packages: &[Package]) -> Result<(), SpaceErr>
    ensures found { MatchResult result
        (λ _. inside_fault packages.now ≡ None) (MayRefuse (inside_fault packages.now)) }
    ensures no_failure { HasCause 0 0 result }
{
    let mut rest = packages;
    while let Some((first, more)) = rest.split_first() {
        if let Some((second, _)) = more.split_first() {
            if lies_below(&second.folder, &first.folder) {
                return Err(inside(first, second));
            }
        }
        rest = more;
    }
    Ok(())
}

/// That of packages, in the order of their names, none has the name of the one before it.
#[tactic(auto, unfolding(crate::specs::Space::twice_fault))]
pub(crate) fn check_twice(packages: &[Package]) -> Result<(), SpaceErr>
    ensures found { MatchResult result
        (λ _. twice_fault packages.now ≡ None) (MayRefuse (twice_fault packages.now)) }
    ensures no_failure { HasCause 0 0 result }
{
    let mut rest = packages;
    while let Some((first, more)) = rest.split_first() {
        if let Some((second, _)) = more.split_first() {
            if first.name == second.name {
                return Err(twice(first, second));
            }
        }
        rest = more;
    }
    Ok(())
}

/// The packages in the order of their names, and where these are equal of their folders.
pub(crate) fn sorted_packages(mut packages: Vec<Package>) -> Result<Vec<Package>, SpaceErr>
    requires { DifferByFolder packages.items }
    ensures value { IfOk result (λ sorted. sorted.items ≡ ascending package_cmp packages.items) }
    ensures memory { OnlyMemory result }
{
    packages.sort()?;
    Ok(packages)
}
