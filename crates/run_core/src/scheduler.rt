// The scheduler.
ghost use Rattle.std.specs.Prelude.{◌≡◌, ◌<◌, ◌^◌, ◌==◌, ◌&&◌, ◌↔◌, ℕ, IsTrue, true, false, length, slice_index_or, IfOk, if◌then◌else◌};
ghost use Rattle.run_core.specs.Greedy.{serves, stops};
ghost use Rattle.run_core.specs.Machine.{next as next_of, put, after_end, has_stopped, is_missed, least, runs, start_or_wait, wait_or_end, IsCalm};
ghost use Rattle.run_core.specs.Core.{IsTopological, rules, rules_in, states, states_in, has_command, Keeps};
ghost use Rattle.run_core.specs.Memory.{OnlyMemory};

use crate::dependents::{leave_above, serve_each};
use crate::error::CoreErr;
use crate::place_set::{PlaceSet, either};
use crate::states::{Mode, Next, State};
use crate::tables::{copies, dependents_of, first_ready, lengths};
use rel_path::Places;
use std::alloc::Global;
use std::marker::Model;

/// The states of the tasks of a run, which are named by their places, and what is to be done next.
///
/// All memory is taken when it is made. A call costs about the logarithm of the number of tasks, and that again for each
/// dependent of a task that ends; each task is left once at most over a whole run.
#[derive(Drop)]
pub struct Core {
    // What was given. The tables below stand for it while the run goes on.
    deps: Vec<Places>,
    commands: Vec<bool>,
    width: u32,
    mode: Mode,
    states: Vec<State>,
    // The tasks that depend on each task.
    dependents: Vec<Places>,
    // How many dependencies of each task are not settled well.
    unmet: Vec<usize>,
    ready: PlaceSet,
    missed: PlaceSet,
    // Left tasks whose dependents are to be left: none but while a failure spreads.
    pending: PlaceSet,
    running: usize,
    failed: bool,
}

impl Model for Core {
    ghost use Rattle.run_core.specs.Core.{Machine};

    ghost Value = { Machine };

    ghost use Rattle.run_core.specs.Inside.{machine, IsCore};

    ghost view = { machine };

    ghost invariant = { IsCore };
}

fn is_stopping(mode: Mode) -> bool
    ensures { result ≡ stops mode }
{
    match mode {
        Mode::Never => true,
        Mode::DependenciesSuccessful | Mode::Always => false,
    }
}

fn is_serving(mode: Mode, status: u8) -> bool
    ensures { result ≡ serves mode status }
{
    match mode {
        Mode::Never | Mode::DependenciesSuccessful => status == 0,
        Mode::Always => true,
    }
}

fn both(left: bool, right: bool) -> bool
    ensures { result ≡ (left && right) }
{
    left && right
}

fn set_state(states: &mut [State], t: usize, state: State)
    requires { t < length states.old }
    ensures { states_in states.new ≡ put (states_in states.old) t state }
{
    states[t] = state;
}

impl Core {
    /// Tasks by their places: the dependencies of each, whether it has a command, how many commands may run at once,
    /// and what a failure stops. All tasks wait.
    pub fn new(
        alloc: Global,
        deps: &[Places],
        runs: &[bool],
        width: u32,
        mode: Mode,
    ) -> Result<Core, CoreErr>
        requires same { length runs.now ≡ length deps.now }
        requires few { length deps.now < 2 ^ 32 }
        requires order { IsTopological deps.now }
        requires wide { 0 < width }
        ensures rules { IfOk result (λ core. rules core ≡ rules_in deps.now width mode) }
        ensures commands { IfOk result
            (λ core. has_command core ≡ (λ t. slice_index_or runs.now t false)) }
        ensures states { IfOk result (λ core. states core ≡ (λ t. State.Waiting)) }
        ensures memory { OnlyMemory result }
    {
        let unmet = lengths(alloc, deps)?;
        let ready = first_ready(alloc, &unmet)?;
        Ok(Core {
            deps: copies(alloc, deps)?,
            commands: Vec::from_slice(alloc, runs)?,
            width,
            mode,
            states: vec![in alloc; State::Waiting; deps.len()]?,
            dependents: dependents_of(alloc, deps)?,
            unmet,
            ready,
            missed: PlaceSet::new(alloc, deps.len())?,
            pending: PlaceSet::new(alloc, deps.len())?,
            running: 0,
            failed: false,
        })
    }

    /// What is to be done next.
    ///
    /// After a failure in mode `Never` it is to wait while a command runs, and nothing after that. Otherwise the least task
    /// that waits and whose dependencies are settled well is to be looked up; else, where fewer commands run than may, the
    /// least missed task is to be started; else it is to wait while a command runs. Settled well is a task that passed or
    /// ended with status 0, and in mode `Always` with any status.
    pub fn next(&self) -> Next
        ensures next { result ≡ next_of (rules self.now) (states self.now) }
        ensures calm { IsCalm (rules self.now) (states self.now) }
    {
        if self.is_stopped() {
            return self.wait_or_finish();
        }
        match self.ready.least() {
            Some(t) => Next::Lookup(t as u32),
            None => self.start_or_wait(),
        }
    }

    fn is_stopped(&self) -> bool
        ensures stopped { result ≡ has_stopped (rules self.now) (states self.now) }
        ensures calm { IsCalm (rules self.now) (states self.now) }
    {
        both(is_stopping(self.mode), self.failed)
    }

    fn start_or_wait(&self) -> Next
        ensures { result ≡ start_or_wait (rules self.now) (states self.now)
            (least (λ t. is_missed (states self.now t)) (rules self.now).size) }
    {
        if self.running >= self.width as usize {
            return self.wait_or_finish();
        }
        match self.missed.least() {
            Some(t) => Next::Start(t as u32),
            None => self.wait_or_finish(),
        }
    }

    fn wait_or_finish(&self) -> Next
        ensures { result ≡ wait_or_end (rules self.now) (states self.now) }
    {
        if self.running > 0 {
            Next::WaitFirst
        } else {
            Next::Finished
        }
    }

    /// Takes a task that was found in the cache, or that has no command.
    pub fn found(&mut self, t: u32)
        requires { next_of (rules self.old) (states self.old) ≡ Next.Lookup t }
        ensures states { states self.new ≡ put (states self.old) t State.Passed }
        ensures kept { Keeps self.old self.new }
    {
        let t = t as usize;
        set_state(&mut self.states, t, State::Passed);
        self.ready.set(t, false);
        let dependents = self.dependents[t].as_slice();
        serve_each(dependents, &self.states, &mut self.unmet, &mut self.ready);
    }

    /// Takes a task that was looked up and not found. Its command is to be started.
    pub fn missed(&mut self, t: u32)
        requires next { next_of (rules self.old) (states self.old) ≡ Next.Lookup t }
        requires runs { has_command self.old t ≡ true }
        ensures states { states self.new ≡ put (states self.old) t State.Missed }
        ensures kept { Keeps self.old self.new }
    {
        let t = t as usize;
        set_state(&mut self.states, t, State::Missed);
        self.ready.set(t, false);
        self.missed.set(t, true);
    }

    /// Takes the start of a task's command.
    pub fn started(&mut self, t: u32)
        requires { next_of (rules self.old) (states self.old) ≡ Next.Start t }
        ensures states { states self.new ≡ put (states self.old) t State.Running }
        ensures kept { Keeps self.old self.new }
    {
        let t = t as usize;
        set_state(&mut self.states, t, State::Running);
        self.missed.set(t, false);
        self.running += 1;
    }

    /// Takes the end of a running command. After a failure, in a mode other than `Always`, all tasks that have the task as
    /// an ancestor are left; of these none runs.
    pub fn ended(&mut self, t: u32, status: u8)
        requires { states self.old t ≡ State.Running }
        ensures states { states self.new ≡ after_end (rules self.old) (states self.old) t status }
        ensures runs { (u : ℕ) → runs (states self.new u)
            ≡ (if u == t then false else runs (states self.old u)) }
        ensures kept { Keeps self.old self.new }
    {
        let t = t as usize;
        set_state(&mut self.states, t, State::Ended(status));
        self.running -= 1;
        self.failed = either(self.failed, status != 0);
        if is_serving(self.mode, status) {
            let dependents = self.dependents[t].as_slice();
            serve_each(dependents, &self.states, &mut self.unmet, &mut self.ready);
        } else {
            leave_above(&self.dependents, &mut self.states, &mut self.pending, t);
        }
    }

    /// Whether nothing runs.
    pub fn idle(&self) -> bool
        ensures { IsTrue result ↔ ((t : ℕ) → runs (states self.now t) ≡ false) }
    {
        self.running == 0
    }

    /// How far a task has come.
    pub fn state(&self, t: u32) -> State
        requires { t < (rules self.now).size }
        ensures { result ≡ states self.now t }
    {
        self.states[t as usize]
    }
}
