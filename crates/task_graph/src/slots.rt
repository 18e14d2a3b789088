// What is counted of each task while a graph is sorted.
ghost use Rattle.std.specs.Prelude.{◌≡◌, ◌||◌, ◌&&◌, ◌==◌, ◌<◌, ◌^◌, ℕ, [], true, length, IfOk, OnOk, if◌then◌else◌};
ghost use Rattle.std.specs.List.Sorted.{IsStrictlySortedBy};
ghost use Rattle.std.specs.Ordering.{nat_cmp};
ghost use Rattle.std.specs.BTreeSet.{contains};
ghost use Rattle.workspaces.specs.Reach.{is_in, AreBelow};
ghost use Rattle.task_graph.specs.Sorting.{slot_at, settled, Fits, is_ready};
ghost use Rattle.task_graph.specs.Memory.{OnlyMemory};

use crate::GraphErr;
use rel_path::Places;
use std::alloc::Global;
use std::collections::BTreeSet;

/// How many of a task's dependencies are not in the order yet, and where in it the others stand.
#[derive(Drop)]
pub(crate) struct Slot {
    pub(crate) unmet: usize,
    pub(crate) places: Places,
}

/// Nothing is in the order.
pub(crate) fn slots_of(alloc: Global, rows: &[Places]) -> Result<Vec<Slot>, GraphErr>
    ensures same { IfOk result (λ slots. length slots.items ≡ length rows.now) }
    ensures fits { IfOk result (λ slots. (n : ℕ) → Fits rows.now [] n (slot_at slots.items n)) }
    ensures memory { OnlyMemory result }
{
    let mut slots = Vec::new(alloc);
    for row in rows {
        slots.push(Slot {
            unmet: row.as_slice().len(),
            places: Places::new(alloc),
        })?;
    }
    Ok(slots)
}

/// The tasks that depend on none.
pub(crate) fn ready_of(alloc: Global, rows: &[Places]) -> Result<BTreeSet<u32>, GraphErr>
    requires { length rows.now < 2 ^ 32 }
    ensures value { IfOk result
        (λ ready. (n : ℕ) → contains nat_cmp ready n ≡ is_ready rows.now [] n) }
    ensures memory { OnlyMemory result }
{
    let mut ready = BTreeSet::new(alloc);
    for (task, row) in rows.iter().enumerate() {
        if row.as_slice().is_empty() {
            ready.insert(task as u32)?;
        }
    }
    Ok(ready)
}

/// A task has its place in the order: those that depend on it have one open dependency less.
pub(crate) fn settle(slots: &mut Vec<Slot>, users: &[u32], place: u32) -> Result<(), GraphErr>
    requires below { AreBelow (length slots.old.items) users.now }
    requires ascend { IsStrictlySortedBy nat_cmp users.now }
    requires unmet { (n : ℕ) → is_in users.now n ≡ true → 0 < (slot_at slots.old.items n).unmet }
    ensures same { OnOk result (length slots.new.items ≡ length slots.old.items) }
    ensures settled { OnOk result
        ((n : ℕ) → slot_at slots.new.items n
        ≡ (if is_in users.now n then settled place (slot_at slots.old.items n)
        else slot_at slots.old.items n)) }
    ensures memory { OnlyMemory result }
{
    for user in users {
        let slot = &mut slots[*user as usize];
        slot.unmet -= 1;
        slot.places.push(place)?;
    }
    Ok(())
}

/// Those without an open dependency are ready.
pub(crate) fn wake(ready: &mut BTreeSet<u32>, slots: &[Slot], users: &[u32]) -> Result<(), GraphErr>
    requires { AreBelow (length slots.now) users.now }
    ensures woken { OnOk result
        ((n : ℕ) → contains nat_cmp ready.new n
        ≡ (contains nat_cmp ready.old n
        || (is_in users.now n && ((slot_at slots.now n).unmet == 0)))) }
    ensures memory { OnlyMemory result }
{
    for user in users {
        if slots[*user as usize].unmet == 0 {
            ready.insert(*user)?;
        }
    }
    Ok(())
}
