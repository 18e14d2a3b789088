// The tables of a scheduler as they are at first.
ghost use Rattle.std.specs.Prelude.{◌≡◌, ◌+◌, ◌<◌, ◌≤◌, ◌^◌, ◌&&◌, ◌==◌, ℕ, [], true, length, map, nat_lt, ◌↔◌, All, IsTrue, IfOk, OnOk, if◌then◌else◌};
ghost use Rattle.run_core.specs.Core.{IsTopological};
ghost use Rattle.run_core.specs.Sets.{has};
ghost use Rattle.run_core.specs.Memory.{OnlyMemory};
ghost use Rattle.run_core.specs.Tables.{is_in, times, count_at, list_at};

use crate::error::CoreErr;
use crate::place_set::PlaceSet;
use rel_path::Places;
use std::alloc::Global;

// Whether all numbers are below another one.
fn are_below(list: &[u32], t: usize) -> bool
    ensures { IsTrue result ↔ All (λ d. d < t) list.now }
{
    list.iter().all(|d| (*d as usize) < t)
}

/// Whether all dependencies have lower numbers than the tasks that name them.
pub fn is_topological(deps: &[Places]) -> bool
    ensures { IsTrue result ↔ IsTopological deps.now }
{
    for t in 0..deps.len() {
        if !are_below(deps[t].as_slice(), t) {
            return false;
        }
    }
    true
}

/// The lists themselves.
pub fn copies(alloc: Global, lists: &[Places]) -> Result<Vec<Places>, CoreErr>
    ensures same { IfOk result (λ copies. copies.items ≡ lists.now) }
    ensures memory { OnlyMemory result }
{
    let mut copies = Vec::with_capacity(alloc, lists.len())?;
    for list in lists {
        copies.push(list.copy()?)?;
    }
    Ok(copies)
}

/// How many numbers each list has.
pub fn lengths(alloc: Global, lists: &[Places]) -> Result<Vec<usize>, CoreErr>
    ensures lengths { IfOk result (λ lengths. lengths.items ≡ map length lists.now) }
    ensures memory { OnlyMemory result }
{
    let lengths = lists
        .iter()
        .map(|list| list.as_slice().len())
        .collect(alloc)?;
    Ok(lengths)
}

// A task is a dependent of each of its dependencies.
fn add_dependent(lists: &mut [Places], deps: &[u32], task: u32) -> Result<(), CoreErr>
    requires { (d : ℕ) → is_in d deps.now ≡ true → d < length lists.old }
    ensures added { OnOk result
        ((d u : ℕ) → times u (list_at lists.new d)
        ≡ times u (list_at lists.old d) + (if u == task then times d deps.now else 0)) }
    ensures memory { OnlyMemory result }
{
    for d in deps {
        let list = &mut lists[*d as usize];
        list.push(task)?;
    }
    Ok(())
}

fn empty_lists(alloc: Global, count: usize) -> Result<Vec<Places>, CoreErr>
    ensures count { IfOk result (λ lists. length lists.items ≡ count) }
    ensures empty { IfOk result (λ lists. (t : ℕ) → list_at lists.items t ≡ []) }
    ensures memory { OnlyMemory result }
{
    let mut lists = Vec::with_capacity(alloc, count)?;
    for _ in 0..count {
        lists.push(Places::new(alloc))?;
    }
    Ok(lists)
}

/// The dependents of each task.
pub fn dependents_of(alloc: Global, deps: &[Places]) -> Result<Vec<Places>, CoreErr>
    requires few { length deps.now < 2 ^ 32 }
    requires lower { (t d : ℕ) → is_in d (list_at deps.now t) ≡ true → d < t }
    ensures count { IfOk result (λ lists. length lists.items ≡ length deps.now) }
    ensures mirrors { IfOk result
        (λ lists. (v u : ℕ) → times u (list_at lists.items v) ≡ times v (list_at deps.now u)) }
    ensures memory { OnlyMemory result }
{
    let mut lists = empty_lists(alloc, deps.len())?;
    for t in 0..deps.len() {
        add_dependent(&mut lists, deps[t].as_slice(), t as u32)?;
    }
    Ok(lists)
}

/// The tasks without dependencies.
pub fn first_ready(alloc: Global, unmet: &[usize]) -> Result<PlaceSet, CoreErr>
    requires { length unmet.now < 2 ^ 32 }
    ensures room { IfOk result (λ set. length unmet.now ≤ length set) }
    ensures ready { IfOk result
        (λ set. (t : ℕ) → has set t
        ≡ (nat_lt t (length unmet.now) && (count_at unmet.now t == 0))) }
    ensures memory { OnlyMemory result }
{
    let mut ready = PlaceSet::new(alloc, unmet.len())?;
    for t in 0..unmet.len() {
        if unmet[t] == 0 {
            ready.set(t, true);
        }
    }
    Ok(ready)
}
