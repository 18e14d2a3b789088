// Tasks that depend on one another in a circle, by numbers.
ghost use Rattle.std.specs.Prelude.{◌≡◌, ◌<◌, ◌^◌, ℕ, true, false, length, find, IfOk, MatchOption};
ghost use Rattle.std.specs.List.{list_any};
ghost use Rattle.workspaces.specs.Reach.{AreBelow, row_at};
ghost use Rattle.task_graph.specs.Rows.{AreRows};
ghost use Rattle.task_graph.specs.Sorting.{is_left};
ghost use Rattle.task_graph.specs.Ways.{IsLeastNumber, from_first, Circles};
ghost use Rattle.task_graph.specs.Memory.{OnlyMemory};

use crate::GraphErr;
use crate::slots::Slot;
use rel_path::Places;
use std::alloc::Global;

/// The least task that is left.
fn first_left(slots: &[Slot]) -> Option<u32>
    requires { length slots.now < 2 ^ 32 }
    ensures { MatchOption result ((n : ℕ) → is_left slots.now n ≡ false)
        (IsLeastNumber (is_left slots.now)) }
{
    for (task, slot) in slots.iter().enumerate() {
        if slot.unmet != 0 {
            return Some(task as u32);
        }
    }
    None
}

/// The least task left in a row.
fn next_left(row: &[u32], slots: &[Slot]) -> Option<u32>
    requires below { AreBelow (length slots.now) row.now }
    ensures { result ≡ find (is_left slots.now) row.now }
{
    for task in row {
        if slots[*task as usize].unmet != 0 {
            return Some(*task);
        }
    }
    None
}

/// What stands from the task on.
fn from_first(path: &[u32], task: u32) -> &[u32]
    ensures { result.now ≡ from_first task path.now }
{
    let mut rest = path;
    while let Some((first, others)) = rest.split_first() {
        if *first == task {
            return rest;
        }
        rest = others;
    }
    rest
}

fn copied_places(alloc: Global, numbers: &[u32]) -> Result<Places, GraphErr>
    ensures value { IfOk result (λ places. places ≡ numbers.now) }
    ensures memory { OnlyMemory result }
{
    let mut places = Places::new(alloc);
    for number in numbers {
        places.push(*number)?;
    }
    Ok(places)
}

/// The way from the least task left, from each to the least left that it depends on, from the task on that comes again. None
/// where no task is left.
pub(crate) fn cycle(
    alloc: Global,
    rows: &[Places],
    slots: &[Slot],
) -> Result<Option<Places>, GraphErr>
    requires rows { AreRows rows.now }
    requires same { length slots.now ≡ length rows.now }
    requires steps { (n : ℕ) → is_left slots.now n ≡ true
        → list_any (is_left slots.now) (row_at rows.now n) ≡ true }
    ensures cycle { IfOk result
        (λ found. MatchOption found ((n : ℕ) → is_left slots.now n ≡ false)
        (Circles rows.now (is_left slots.now))) }
    ensures memory { OnlyMemory result }
{
    let mut path = Vec::new(alloc);
    let mut seen = vec![in alloc; false; rows.len()]?;
    let mut next = first_left(slots);
    while let Some(task) = next {
        if seen[task as usize] {
            return Ok(Some(copied_places(alloc, from_first(path.as_slice(), task))?));
        }
        seen[task as usize] = true;
        path.push(task)?;
        next = next_left(rows[task as usize].as_slice(), slots);
    }
    Ok(None)
}
