// What the end of a task does to the tasks that depend on it.
ghost use Rattle.std.specs.Prelude.{◌≡◌, ◌+◌, ◌<◌, ◌≤◌, ◌&&◌, ◌||◌, ◌==◌, ℕ, not, false, true, length, if◌then◌else◌};
ghost use Rattle.run_core.specs.Greedy.{Rules, AreLower};
ghost use Rattle.run_core.specs.Machine.{is_waiting, is_above};
ghost use Rattle.run_core.specs.Core.{states_in};
ghost use Rattle.run_core.specs.Sets.{has};
ghost use Rattle.run_core.specs.Tables.{is_in, is_left, times, count_at, list_at, Mirrors, IsClosed};

use crate::place_set::PlaceSet;
use crate::states::State;
use rel_path::Places;

fn is_waiting_at(states: &[State], t: usize) -> bool
    requires { t < length states.now }
    ensures { result ≡ is_waiting (states_in states.now t) }
{
    matches!(states[t], State::Waiting)
}

fn is_left_at(states: &[State], t: usize) -> bool
    requires { t < length states.now }
    ensures { result ≡ is_left (states_in states.now t) }
{
    matches!(states[t], State::Left)
}

// One dependency fewer is unmet. Where it was the last one of a task that waits, the task is ready.
fn serve_one(t: usize, states: &[State], unmet: &mut [usize], ready: &mut PlaceSet)
    requires unmet { 1 ≤ count_at unmet.old t }
    requires states { length unmet.old ≡ length states.now }
    requires room { length states.now ≤ length ready.old }
    ensures unmet { (u : ℕ) → count_at unmet.new u + (if u == t then 1 else 0)
        ≡ count_at unmet.old u }
    ensures ready { (u : ℕ) → has ready.new u
        ≡ (has ready.old u || ((u == t)
        && (is_waiting (states_in states.now u) && (count_at unmet.new u == 0)))) }
    ensures room { length ready.new ≡ length ready.old }
{
    unmet[t] -= 1;
    if unmet[t] == 0 && is_waiting_at(states, t) {
        ready.set(t, true);
    }
}

/// Tells the dependents of a task that it is settled well.
pub fn serve_each(dependents: &[u32], states: &[State], unmet: &mut [usize], ready: &mut PlaceSet)
    requires unmet { (u : ℕ) → times u dependents.now ≤ count_at unmet.old u }
    requires states { length unmet.old ≡ length states.now }
    requires room { length states.now ≤ length ready.old }
    ensures unmet { (u : ℕ) → count_at unmet.new u + times u dependents.now ≡ count_at unmet.old u }
    ensures ready { (u : ℕ) → has ready.new u
        ≡ (has ready.old u || (is_in u dependents.now
        && (is_waiting (states_in states.now u) && (count_at unmet.new u == 0)))) }
    ensures room { length ready.new ≡ length ready.old }
{
    for t in dependents {
        serve_one(*t as usize, states, unmet, ready);
    }
}

// Leaves a task, which waits then for its dependents to be left.
fn leave_one(t: usize, states: &mut [State], pending: &mut PlaceSet)
    requires below { t < length states.old }
    requires room { length states.old ≤ length pending.old }
    ensures states { (u : ℕ) → states_in states.new u
        ≡ (if u == t then State.Left else states_in states.old u) }
    ensures pending { (u : ℕ) → has pending.new u
        ≡ (has pending.old u || ((u == t) && not (is_left (states_in states.old u)))) }
    ensures room { length pending.new ≡ length pending.old }
{
    if !is_left_at(states, t) {
        states[t] = State::Left;
        pending.set(t, true);
    }
}

fn leave_each(dependents: &[u32], states: &mut [State], pending: &mut PlaceSet)
    requires below { (u : ℕ) → is_in u dependents.now ≡ true → u < length states.old }
    requires room { length states.old ≤ length pending.old }
    ensures states { (u : ℕ) → states_in states.new u
        ≡ (if is_in u dependents.now then State.Left else states_in states.old u) }
    ensures pending { (u : ℕ) → has pending.new u
        ≡ (has pending.old u ||
        (is_in u dependents.now && not (is_left (states_in states.old u)))) }
    ensures room { length pending.new ≡ length pending.old }
{
    for t in dependents {
        leave_one(*t as usize, states, pending);
    }
}

/// Leaves all tasks that have `from` as an ancestor. Each task waits in `pending` at most once over a whole run.
pub fn leave_above(dependents: &[Places], states: &mut [State], pending: &mut PlaceSet, from: usize)
    requires from { from < length states.old }
    requires tasks { length dependents.now ≡ length states.old }
    requires room { length states.old ≤ length pending.old }
    requires higher { (v u : ℕ) → is_in u (list_at dependents.now v) ≡ true → v < u }
    requires below { (v u : ℕ) → is_in u (list_at dependents.now v) ≡ true → u < length states.old }
    requires empty { (u : ℕ) → has pending.old u ≡ false }
    ensures empty { (u : ℕ) → has pending.new u ≡ false }
    ensures room { length pending.new ≡ length pending.old }
    ensures states { (g : Rules) → AreLower g → Mirrors g dependents.now
        → IsClosed g (states_in states.old)
        → (u : ℕ) → states_in states.new u
        ≡ (if is_above g u from then State.Left else states_in states.old u) }
{
    leave_each(dependents[from].as_slice(), states, pending);
    while let Some(t) = pending.least() {
        pending.set(t, false);
        leave_each(dependents[t].as_slice(), states, pending);
    }
}
