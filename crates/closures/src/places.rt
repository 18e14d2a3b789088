// The places of a task and its ancestors.
ghost use Rattle.std.specs.Prelude.{◌≡◌, ◌<◌, ◌||◌, ℕ, IfOk, OnOk, MatchOption, length};
ghost use Rattle.std.specs.BTreeSet.{contains};
ghost use Rattle.std.specs.Ordering.{nat_cmp};
ghost use Rattle.listing.specs.Memory.{OnlyMemory};
ghost use Rattle.run_laws.specs.Ancestors.{IsLower};
ghost use Rattle.run_laws.specs.Closures.{in_closure};
ghost use Rattle.closures.specs.Places.{has, Ascend, IsLastBelow, HasNoneBelow};

use listing::{ListErr, Listing};
use std::alloc::Global;
use std::collections::BTreeSet;

fn add_all(set: &mut BTreeSet<usize>, places: &[u32]) -> Result<(), ListErr>
    ensures added { OnOk result
        ((j : ℕ) → contains nat_cmp set.new j ≡ (has places.now j || contains nat_cmp set.old j)) }
    ensures memory { OnlyMemory result }
{
    for place in places {
        set.insert(*place as usize)?;
    }
    Ok(())
}

// The last place of the set below this one.
fn last_below(set: &BTreeSet<usize>, place: usize) -> Option<usize>
    ensures { MatchOption result (HasNoneBelow (contains nat_cmp set.now) place)
        (IsLastBelow (contains nat_cmp set.now) place) }
{
    set.range(..place).next_back().copied()
}

// The places of the set, ascending.
fn in_order(alloc: Global, set: &BTreeSet<usize>) -> Result<Vec<usize>, ListErr>
    ensures ascend { IfOk result (λ places. Ascend places.items) }
    ensures same { IfOk result (λ places. has places.items ≡ contains nat_cmp set.now) }
    ensures memory { OnlyMemory result }
{
    let mut places = Vec::new(alloc);
    for place in set {
        places.push(*place)?;
    }
    Ok(places)
}

/// The places of the part at this place and of its ancestors, ascending. Dependencies stand at lower places, so it goes
/// on from the last place that it has not looked at.
pub fn ancestors(alloc: Global, listing: &Listing, place: usize) -> Result<Vec<usize>, ListErr>
    requires lower { IsLower listing.now }
    requires place { place < length listing.now.parts }
    ensures ascend { IfOk result (λ places. Ascend places.items) }
    ensures kept { IfOk result (λ places. has places.items ≡ in_closure listing.now place) }
    ensures memory { OnlyMemory result }
{
    let parts = listing.parts.as_slice();
    let mut kept = BTreeSet::new(alloc);
    kept.insert(place)?;
    let mut at = place + 1;
    while let Some(next) = last_below(&kept, at) {
        add_all(&mut kept, parts[next].deps.as_slice())?;
        at = next;
    }
    in_order(alloc, &kept)
}
