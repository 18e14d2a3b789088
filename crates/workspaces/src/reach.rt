// What is reached over at least one edge.
ghost use Rattle.std.specs.Prelude.{◌≡◌, ◌<◌, ◌^◌, IfOk, OnOk, length};
ghost use Rattle.workspaces.specs.Lists.{places};
ghost use Rattle.workspaces.specs.Reach.{IsReached, leads_in, AreBelow, AreRowsBelow};
ghost use Rattle.workspaces.specs.Marks.{Adds, itself};

use rel_path::Places;
use std::alloc::{AllocError, Global};

// Which places were reached, and those of them whose edges are still to be followed.
#[derive(Drop)]
struct Front {
    reached: Vec<bool>,
    waiting: Vec<u32>,
}

/// Adds places, where they are new.
fn add(front: &mut Front, places: &[u32]) -> Result<(), AllocError>
    requires { AreBelow (length front.old.reached.items) places.now }
    ensures added { OnOk result (Adds places.now
        front.old.reached.items front.old.waiting.items
        front.new.reached.items front.new.waiting.items) }
{
    for place in places {
        let at = *place as usize;
        if !front.reached[at] {
            front.reached[at] = true;
            front.waiting.push(*place)?;
        }
    }
    Ok(())
}

/// The places that are marked, ascending. A mark stands for each place.
pub fn marked(alloc: Global, marks: &[bool]) -> Result<Places, AllocError>
    requires { length marks.now < 2 ^ 32 }
    ensures value { IfOk result (λ found. found ≡ places itself marks.now) }
{
    let mut found = Places::new(alloc);
    for (place, mark) in marks.iter().enumerate() {
        if *mark {
            found.push(place as u32)?;
        }
    }
    Ok(found)
}

/// What at least one edge reaches from some places, ascending. `edges` has a row for each place.
pub(crate) fn reached(alloc: Global, edges: &[Places], from: &[u32]) -> Result<Places, AllocError>
    requires few { length edges.now < 2 ^ 32 }
    requires rows { AreRowsBelow (length edges.now) edges.now }
    requires from { AreBelow (length edges.now) from.now }
    ensures reached { IfOk result (IsReached (leads_in edges.now) from.now) }
{
    let mut front = Front {
        reached: vec![in alloc; false; edges.len()]?,
        waiting: Vec::new(alloc),
    };
    for place in from {
        add(&mut front, edges[*place as usize].as_slice())?;
    }
    while let Some(place) = front.waiting.pop() {
        add(&mut front, edges[place as usize].as_slice())?;
    }
    marked(alloc, front.reached.as_slice())
}
