// The parts that are kept, with their dependencies renumbered.
ghost use Rattle.std.specs.Prelude.{◌≡◌, ◌<◌, map, length, IfOk};
ghost use Rattle.std.specs.List.{AllByRecursion};
ghost use Rattle.listing.specs.Memory.{OnlyMemory};
ghost use Rattle.run_laws.specs.Picks.{rank};
ghost use Rattle.run_laws.specs.Closures.{renumbered, sub_parts};
ghost use Rattle.closures.specs.Places.{has, Ascend};

use listing::{ListErr, Listing, Part, PartIn};
use rel_path::Places;
use std::alloc::Global;

// How many places are kept below this one.
fn number_of(kept: &[usize], place: u32) -> u32
    requires { Ascend kept.now }
    ensures { result ≡ rank (has kept.now) place }
{
    kept.partition_point(|other| *other < place as usize) as u32
}

fn numbers_of(alloc: Global, kept: &[usize], deps: &[u32]) -> Result<Places, ListErr>
    requires { Ascend kept.now }
    ensures numbers { IfOk result (λ numbers. numbers ≡ map (rank (has kept.now)) deps.now) }
    ensures memory { OnlyMemory result }
{
    let mut numbers = Places::new(alloc);
    for dep in deps {
        numbers.push(number_of(kept, *dep))?;
    }
    Ok(numbers)
}

fn renumbered<'a>(alloc: Global, kept: &[usize], part: &'a Part) -> Result<PartIn<'a>, ListErr>
    requires { Ascend kept.now }
    ensures value { IfOk result (λ view. view ≡ renumbered (has kept.now) part.now) }
    ensures memory { OnlyMemory result }
{
    let numbers = numbers_of(alloc, kept, part.deps.as_slice())?;
    Ok(PartIn::new(part, numbers))
}

/// The parts at the places that are kept, in the same order.
pub fn parts_of<'a>(
    alloc: Global,
    listing: &'a Listing,
    kept: &[usize],
) -> Result<Vec<PartIn<'a>>, ListErr>
    requires ascend { Ascend kept.now }
    requires inner { AllByRecursion (λ place. place < length listing.now.parts) kept.now }
    ensures parts { IfOk result (λ parts. parts.items ≡ sub_parts listing.now (has kept.now)) }
    ensures memory { OnlyMemory result }
{
    let all = listing.parts.as_slice();
    let mut parts = Vec::with_capacity(alloc, kept.len())?;
    for place in kept {
        parts.push(renumbered(alloc, kept, &all[*place])?)?;
    }
    Ok(parts)
}
