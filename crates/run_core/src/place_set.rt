// A set of places whose least member is found without looking at all places.
ghost use Rattle.std.specs.Prelude.{◌≡◌, ◌≢◌, ◌+◌, ◌*◌, ◌/◌, ◌%◌, ◌^◌, ◌<◌, ◌≤◌, ◌||◌, ℕ, false, length, ◌==◌, if◌then◌else◌, IfOk, MatchOption};
ghost use Rattle.run_core.specs.Sets.{has, IsLeast};
ghost use Rattle.run_core.specs.Trees.{flag, AreRight, IsRight, IsPower};

use std::alloc::{AllocError, Global};
use std::marker::Model;

/// Numbers below a bound. It is a complete binary tree of flags: node `i` has the children `2 * i` and `2 * i + 1` and
/// tells whether one of them is set, and the leaves, from `leaves` on, are the numbers.
#[derive(Drop)]
pub struct PlaceSet {
    flags: Vec<bool>,
    leaves: usize,
}

impl Model for PlaceSet {
    ghost use Rattle.std.specs.Prelude.{List, Bool};

    ghost Value = { List Bool };

    ghost use Rattle.run_core.specs.PlaceSets.{members, IsTree};

    ghost view = { members };

    ghost invariant = { IsTree };
}

// The least power of two that is at least `count`.
fn power_above(count: usize) -> usize
    requires { count < 2 ^ 32 }
    ensures above { count ≤ result }
    ensures power { IsPower result }
    ensures small { result ≤ 2 ^ 33 }
{
    let mut power: usize = 1;
    while power < count {
        power *= 2;
    }
    power
}

/// Whether one of two things holds.
pub fn either(left: bool, right: bool) -> bool
    ensures { result ≡ (left || right) }
{
    left || right
}

// Makes the nodes above a node tell again what their children do.
fn mend_above(flags: &mut [bool], leaf: usize)
    requires even { length flags.old % 2 ≡ 0 }
    requires above { 1 ≤ leaf }
    requires below { leaf < length flags.old }
    requires others { (i : ℕ) → 1 ≤ i → 2 * i < length flags.old → i ≢ leaf / 2
        → IsRight flags.old i }
    ensures right { AreRight flags.new }
    ensures leaves { (i : ℕ) → length flags.old ≤ 2 * i → flag flags.new i ≡ flag flags.old i }
{
    let mut node = leaf;
    while node > 1 {
        node /= 2;
        flags[node] = either(flags[2 * node], flags[2 * node + 1]);
    }
}

// Sets a leaf or takes it back, and makes the nodes above it right.
fn write_leaf(flags: &mut [bool], leaf: usize, member: bool)
    requires even { length flags.old % 2 ≡ 0 }
    requires above { length flags.old ≤ 2 * leaf }
    requires below { leaf < length flags.old }
    requires right { AreRight flags.old }
    ensures right { AreRight flags.new }
    ensures leaves { (i : ℕ) → length flags.old ≤ 2 * i
        → flag flags.new i ≡ (if i == leaf then member else flag flags.old i) }
{
    flags[leaf] = member;
    mend_above(flags, leaf);
}

impl PlaceSet {
    /// The empty set, with room for the numbers below `count`.
    pub fn new(alloc: Global, count: usize) -> Result<PlaceSet, AllocError>
        requires { count < 2 ^ 32 }
        ensures room { IfOk result (λ set. count ≤ length set) }
        ensures empty { IfOk result (λ set. (p : ℕ) → has set p ≡ false) }
    {
        let leaves = power_above(count);
        let flags = vec![in alloc; false; 2 * leaves]?;
        Ok(PlaceSet { flags, leaves })
    }

    /// The least member.
    pub fn least(&self) -> Option<usize>
        ensures { MatchOption result ((p : ℕ) → has self.now p ≡ false) (IsLeast self.now) }
    {
        if !self.flags[1] {
            return None;
        }
        let mut node = 1;
        while node < self.leaves {
            let left = 2 * node;
            node = if self.flags[left] { left } else { left + 1 };
        }
        Some(node - self.leaves)
    }

    /// Puts a number into the set, or takes it out.
    pub fn set(&mut self, place: usize, member: bool)
        requires { place < length self.old }
        ensures room { length self.new ≡ length self.old }
        ensures member { (p : ℕ) → has self.new p
            ≡ (if p == place then member else has self.old p) }
    {
        write_leaf(&mut self.flags, self.leaves + place, member);
    }
}
