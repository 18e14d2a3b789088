// The owners to begin with.
ghost use Rattle.std.specs.Prelude.{◌≡◌, [], None, find, IfOk, IfErr};
ghost use Rattle.workspaces.specs.Space.{IsProper};
ghost use Rattle.kept_packages.specs.Answers.{is_unknown};
ghost use Rattle.kept_packages.specs.Needs.{Gains, IsFirst, IsTarget};
ghost use Rattle.kept_packages.specs.Steps.{MayRefuse};

use crate::KeptErr;
use crate::needs::add_edges;
use rel_path::Text;
use std::alloc::Global;
use workspaces::Packages;

/// The packages of these names.
fn target_numbers(alloc: Global, targets: &[Text], packages: &Packages) -> Result<Vec<u32>, KeptErr>
    requires { IsProper packages.now }
    ensures known { IfOk result
        (λ numbers. find (is_unknown packages.now.packages) targets.now ≡ None) }
    ensures numbers { IfOk result
        (λ numbers. Gains packages.now (IsTarget packages.now targets.now) [] numbers.items) }
    ensures refused { IfErr result (MayRefuse packages.now.packages targets.now) }
{
    let mut numbers = Vec::new(alloc);
    for target in targets {
        match packages.number_of(target) {
            Some(number) => numbers.push(number)?,
            None => {
                let name = target.copy()?;
                return Err(KeptErr::NoPackage { name });
            }
        }
    }
    Ok(numbers)
}

/// The targets, and the packages that the root depends on.
pub(crate) fn first_owners(
    alloc: Global,
    targets: &[Text],
    packages: &Packages,
) -> Result<Vec<u32>, KeptErr>
    ensures known { IfOk result
        (λ first. find (is_unknown packages.now.packages) targets.now ≡ None) }
    ensures first { IfOk result
        (λ first. Gains packages.now (IsFirst packages.now targets.now) [] first.items) }
    ensures refused { IfErr result (MayRefuse packages.now.packages targets.now) }
{
    let root = packages.count();
    let mut first = target_numbers(alloc, targets, packages)?;
    add_edges(packages, root, &mut first)?;
    Ok(first)
}
