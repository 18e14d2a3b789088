// Ascending lists of places.
ghost use Rattle.std.specs.Prelude.{◌≡◌, ◌+◌, ◌++◌, length, IfOk, OnOk};
ghost use Rattle.listing.specs.Memory.{OnlyMemory};
ghost use Rattle.task_inputs.specs.Facts.{merged};

use listing::ListErr;
use std::alloc::Global;

fn push_all(places: &mut Vec<u32>, more: &[u32]) -> Result<(), ListErr>
    ensures pushed { OnOk result (places.new.items ≡ places.old.items ++ more.now) }
    ensures memory { OnlyMemory result }
{
    for place in more {
        places.push(*place)?;
    }
    Ok(())
}

/// The numbers of two ascending lists, ascending, each once.
pub(crate) fn union(alloc: Global, first: &[u32], second: &[u32]) -> Result<Vec<u32>, ListErr>
    ensures value { IfOk result (λ both. both.items
        ≡ merged (length first.now + length second.now) first.now second.now) }
    ensures memory { OnlyMemory result }
{
    let mut both = Vec::new(alloc);
    let mut xs = first;
    let mut ys = second;
    while let Some((x, more_xs)) = xs.split_first() {
        let Some((y, more_ys)) = ys.split_first() else {
            break;
        };
        if x < y {
            both.push(*x)?;
            xs = more_xs;
        } else if x == y {
            both.push(*x)?;
            xs = more_xs;
            ys = more_ys;
        } else {
            both.push(*y)?;
            ys = more_ys;
        }
    }
    push_all(&mut both, xs)?;
    push_all(&mut both, ys)?;
    Ok(both)
}
