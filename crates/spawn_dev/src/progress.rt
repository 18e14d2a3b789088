// What runs in a world in memory, and the steps so far.
ghost use Rattle.std.specs.Prelude.{◌≡◌, ◌∷◌, ◌++◌, ◌+◌, ◌<◌, ℕ, [], true, false, IfOk, OnOk, OnErr, Some, None, is_some, length, slice_index_or, IsTrue};
ghost use Rattle.std.specs.List.{remove};
ghost use Rattle.rel_path.specs.Paths.{Path};
ghost use Rattle.globs.specs.Outputs.{takes};
ghost use Rattle.globs.specs.OwnedFiles.{owns_all};
ghost use Rattle.tree_dev.specs.Cause.{OnlyMemory};
ghost use Rattle.spawn_dev.specs.Effects.{no_effect};
ghost use Rattle.spawn_dev.specs.Progress.{command_of, runs_at, will_at, held_at, owned_once, own_files, places_in, starts_in};
ghost use Rattle.spawn_dev.specs.Running.{are_distinct};
ghost use Rattle.spawn_dev.specs.Spawn.{put_at};

use crate::effect::{Effect, Running};
use crate::{Command, Ended, Step};
use rel_path::Places;
use std::alloc::Global;
use tree_dev::DevErr;

/// What runs, with what it will do, in order of start, and the steps so far.
#[derive(Drop)]
pub struct Progress {
    running: Vec<Running>,
    steps: Vec<Step>,
    starts: Places,
    // no two run at one place
    ghost distinct: { IsTrue (are_distinct command_of running.items) },
    // no two that run own one path
    ghost apart: { (path : Path) → owned_once running.items path ≡ true },
    // each will write files that it owns
    ghost owned: { own_files running.items ≡ true },
    ghost started: { starts ≡ starts_in steps.items },
}

// The command as a step has it, its place behind those of the earlier starts.
fn recorded(starts: &mut Places, command: &Command) -> Result<Command, DevErr>
    ensures value { IfOk result (λ started. started ≡ command.now) }
    ensures pushed { OnOk result (starts.new ≡ starts.old ++ command.now.place ∷ []) }
    ensures kept { OnErr result (starts.new ≡ starts.old) }
    ensures memory { OnlyMemory result }
{
    let started = command.copy()?;
    starts.push(command.place)?;
    Ok(started)
}

impl Progress {
    pub fn new(alloc: Global) -> Progress
        ensures running { result.running.items ≡ [] }
        ensures steps { result.steps.items ≡ [] }
    {
        Progress {
            running: Vec::new(alloc),
            steps: Vec::new(alloc),
            starts: Places::new(alloc),
        }
    }

    /// The command runs, and will do this.
    pub fn start(&mut self, command: Command, effect: Effect) -> Result<(), DevErr>
        requires fresh { runs_at self.old.running.items command.place ≡ None }
        requires owned { owns_all command.outs effect.files ≡ true }
        requires apart { (path : Path) → takes command.outs path ≡ true
            → held_at self.old.running.items path ≡ false }
        ensures runs { OnOk result
            (runs_at self.new.running.items
            ≡ put_at (runs_at self.old.running.items) command.place (Some command)) }
        ensures will { OnOk result
            (will_at self.new.running.items
            ≡ put_at (will_at self.old.running.items) command.place effect) }
        ensures held { (path : Path) → held_at self.new.running.items path ≡ true
            → takes command.outs path ≡ false → held_at self.old.running.items path ≡ true }
        ensures count { OnOk result
            (length self.new.running.items ≡ length self.old.running.items + 1) }
        ensures order { OnOk result
            (places_in self.new.running.items
            ≡ places_in self.old.running.items ++ command.place ∷ []) }
        ensures steps { OnOk result
            (self.new.steps.items ≡ self.old.steps.items ++ Step.Start command ∷ []) }
        ensures kept { OnErr result
            ((self.new.running.items ≡ self.old.running.items)
            × (self.new.steps.items ≡ self.old.steps.items)) }
        ensures memory { OnlyMemory result }
    {
        self.running.reserve(1)?;
        self.steps.reserve(1)?;
        let started = recorded(&mut self.starts, &command)?;
        self.steps.push(Step::Start(started)).unwrap();
        self.running.push(Running { command, effect }).unwrap();
        Ok(())
    }

    /// Takes one out of those that run, by its number in order of start.
    pub fn take(&mut self, index: usize) -> Running
        requires { index < length self.old.running.items }
        ensures taken { result ≡ slice_index_or self.old.running.items index result }
        ensures ran { runs_at self.old.running.items result.command.place ≡ Some result.command }
        ensures runs { runs_at self.new.running.items
            ≡ put_at (runs_at self.old.running.items) result.command.place None }
        ensures did { will_at self.old.running.items result.command.place ≡ result.effect }
        ensures will { will_at self.new.running.items
            ≡ put_at (will_at self.old.running.items) result.command.place no_effect }
        ensures owned { owns_all result.command.outs result.effect.files ≡ true }
        ensures held { (path : Path) → held_at self.new.running.items path ≡ true
            → held_at self.old.running.items path ≡ true }
        ensures freed { (path : Path) → held_at self.new.running.items path ≡ true
            → takes result.command.outs path ≡ false }
        ensures count { length self.old.running.items ≡ length self.new.running.items + 1 }
        ensures left { self.new.running.items ≡ remove self.old.running.items index }
        ensures steps { self.new.steps.items ≡ self.old.steps.items }
    {
        self.running.remove(index)
    }

    /// The end is a step.
    pub fn end(&mut self, end: Ended) -> Result<(), DevErr>
        ensures running { self.new.running.items ≡ self.old.running.items }
        ensures steps { OnOk result
            (self.new.steps.items ≡ self.old.steps.items ++ Step.End end ∷ []) }
        ensures kept { OnErr result (self.new.steps.items ≡ self.old.steps.items) }
        ensures memory { OnlyMemory result }
    {
        self.steps.push(Step::End(end))?;
        Ok(())
    }

    /// How many run.
    pub fn len(&self) -> usize
        ensures count { result ≡ length self.now.running.items }
        ensures some { 0 < result
            → (place : ℕ) × (is_some (runs_at self.now.running.items place) ≡ true) }
    {
        self.running.len()
    }

    pub fn starts(&self) -> &Places
        ensures { result.now ≡ starts_in self.now.steps.items }
    {
        &self.starts
    }
}
