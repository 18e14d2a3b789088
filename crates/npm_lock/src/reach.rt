// The numbers that are reached from some numbers by what they find: a work list.
ghost use Rattle.std.specs.Prelude.{◌≡◌, ◌<◌, ◌∷◌, ◌++◌, [], length, true, Some, IfOk, OnOk, MatchOption};
ghost use Rattle.npm_lock.specs.Reach.{mark, mark_all, AreBelow, AllBelow, HoldsItsFinds, IsReached, is_set};

use crate::finds::Finds;
use std::alloc::{AllocError, Global};
use std::marker::Model;

/// A set of numbers in the making, which contracts see as the flags of the numbers and the list of those whose finds
/// are not in the set yet.
#[derive(Drop)]
struct Work {
    set: Vec<bool>,
    todo: Vec<u32>,
}

impl Model for Work {
    ghost use Rattle.std.specs.Prelude.{List, Bool, ℕ};

    ghost Value = { List Bool × List ℕ };

    ghost view = { λ w. (w.set.items, w.todo.items) };
}

impl Work {
    fn new(alloc: Global, set: Vec<bool>) -> Work
        ensures { result ≡ (set.items, []) }
    {
        let todo = Vec::new(alloc);
        Work { set, todo }
    }

    fn mark(&mut self, number: u32) -> Result<(), AllocError>
        requires { number < length self.old.0 }
        ensures { OnOk result (self.new ≡ mark number self.old) }
    {
        if !self.set[number as usize] {
            self.todo.push(number)?;
            self.set[number as usize] = true;
        }
        Ok(())
    }

    fn mark_all(&mut self, found: &[Option<u32>]) -> Result<(), AllocError>
        requires { AreBelow (length self.old.0) found.now }
        ensures { OnOk result (self.new ≡ mark_all found.now self.old) }
    {
        let mut rest = found;
        while let Some((first, others)) = rest.split_first() {
            if let Some(number) = first {
                self.mark(*number)?;
            }
            rest = others;
        }
        Ok(())
    }

    fn next(&mut self) -> Option<u32>
        ensures set { self.new.0 ≡ self.old.0 }
        ensures todo { MatchOption result (self.old.1 ≡ [])
            (λ number. self.old.1 ≡ self.new.1 ++ number ∷ []) }
    {
        self.todo.pop()
    }

    fn into_set(self) -> Vec<bool>
        ensures { result.items ≡ self.0 }
    {
        self.set
    }
}

/// The flags of the numbers of a set and of those that are reached from the roots. What the numbers of the set find is
/// in it, so they are not gone through again.
pub(crate) fn reach(
    alloc: Global,
    finds: &[Finds],
    set: Vec<bool>,
    roots: &[Option<u32>],
) -> Result<Vec<bool>, AllocError>
    requires size { length set.items ≡ length finds.now }
    requires closed { HoldsItsFinds finds.now (is_set set.items) }
    requires roots { AreBelow (length finds.now) roots.now }
    requires finds { AllBelow (length finds.now) finds.now }
    ensures { IfOk result (λ now. IsReached finds.now set.items roots.now now.items) }
{
    let mut work = Work::new(alloc, set);
    work.mark_all(roots)?;
    while let Some(number) = work.next() {
        work.mark_all(finds[number as usize].as_slice())?;
    }
    Ok(work.into_set())
}
