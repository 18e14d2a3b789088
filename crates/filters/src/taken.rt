// What one filter takes.
ghost use Rattle.std.specs.Prelude.{◌≡◌, ℕ, false, IfOk, length, IsOkUnless};
ghost use Rattle.workspaces.specs.Marks.{is_marked};
ghost use Rattle.workspaces.specs.Members.{leads, leads_back};
ghost use Rattle.workspaces.specs.Reach.{is_in, AreBelow};
ghost use Rattle.filters.specs.Selection.{Takes, IsReachedIf};
ghost use Rattle.filters.specs.Sides.{AreNeighbours, LieBelow, is_taken};

use crate::FilterErr;
use crate::cores::core_places;
use crate::filter::Filter;
use crate::marks::mark;
use rel_path::Places;
use std::alloc::Global;
use workspaces::{Packages, marked};

/// What the packages of the set depend on, where that is asked for.
fn below_if(
    alloc: Global,
    asked: bool,
    packages: &Packages,
    set: &Places,
) -> Result<Places, FilterErr>
    requires { AreBelow (length packages.now.packages) set.now }
    ensures reached { IfOk result (IsReachedIf asked (leads packages.now.packages) set.now) }
    ensures below { IfOk result (AreBelow (length packages.now.packages)) }
    ensures memory { IsOkUnless result FilterErr.OutOfMemory }
{
    if asked {
        Ok(packages.below(alloc, set)?)
    } else {
        Ok(Places::new(alloc))
    }
}

/// What depends on the packages of the set, where that is asked for.
fn above_if(
    alloc: Global,
    asked: bool,
    packages: &Packages,
    set: &Places,
) -> Result<Places, FilterErr>
    requires { AreBelow (length packages.now.packages) set.now }
    ensures reached { IfOk result (IsReachedIf asked (leads_back packages.now.packages) set.now) }
    ensures below { IfOk result (AreBelow (length packages.now.packages)) }
    ensures memory { IsOkUnless result FilterErr.OutOfMemory }
{
    if asked {
        Ok(packages.above(alloc, set)?)
    } else {
        Ok(Places::new(alloc))
    }
}

/// The core of a filter, and what edges reach from it, where the filter asks for it.
#[derive(Drop)]
struct Neighbours {
    core: Places,
    below: Places,
    above: Places,
    /// What those depend on that depend on the core.
    around: Places,
}

fn neighbours_of(
    alloc: Global,
    filter: &Filter,
    packages: &Packages,
) -> Result<Neighbours, FilterErr>
    ensures value { IfOk result (AreNeighbours packages.now.packages filter.now) }
    ensures below { IfOk result (LieBelow (length packages.now.packages)) }
    ensures memory { IsOkUnless result FilterErr.OutOfMemory }
{
    let front = filter.front.has_dots();
    let back = filter.back.has_dots();
    let core = core_places(alloc, &filter.core, packages)?;
    let below = below_if(alloc, back, packages, &core)?;
    let above = above_if(alloc, front, packages, &core)?;
    let around = below_if(alloc, front && back, packages, &above)?;
    Ok(Neighbours {
        core,
        below,
        above,
        around,
    })
}

/// Marks what a filter takes, where `keeps` says whether the core stays.
fn mark_taken(marks: &mut [bool], neighbours: &Neighbours, keeps: bool)
    requires below { LieBelow (length marks.old) neighbours.now }
    requires none { (p : ℕ) → is_marked marks.old p ≡ false }
    ensures same { length marks.new ≡ length marks.old }
    ensures marks { (p : ℕ) → is_marked marks.new p ≡ is_taken neighbours.now keeps p }
{
    mark(marks, neighbours.around.as_slice(), true);
    mark(marks, neighbours.core.as_slice(), keeps);
    mark(marks, neighbours.above.as_slice(), true);
    mark(marks, neighbours.below.as_slice(), true);
}

/// The packages that the filter takes, ascending.
pub(crate) fn taken(
    alloc: Global,
    filter: &Filter,
    packages: &Packages,
) -> Result<Places, FilterErr>
    ensures takes { IfOk result (λ found. Takes packages.now.packages filter.now (is_in found)) }
    ensures below { IfOk result (AreBelow (length packages.now.packages)) }
    ensures memory { IsOkUnless result FilterErr.OutOfMemory }
{
    let neighbours = neighbours_of(alloc, filter, packages)?;
    let mut marks = vec![in alloc; false; packages.count() as usize]?;
    mark_taken(marks.as_mut_slice(), &neighbours, !filter.leaves_core());
    Ok(marked(alloc, marks.as_slice())?)
}
