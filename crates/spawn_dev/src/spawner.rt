// A tree in which commands run.
ghost use Rattle.std.specs.Prelude.{◌≡◌, ◌≤◌, ◌<◌, ℕ, true, false, length, IfOk, OnOk, OnErr};
ghost use Rattle.rel_path.specs.Limits.{log_limit};
ghost use Rattle.rel_path.specs.Paths.{Path};
ghost use Rattle.tree_dev.specs.Cause.{HasCause};
ghost use Rattle.spawn_dev.specs.Effects.{Seen, IsWellBehaved};
ghost use Rattle.spawn_dev.specs.Spawn.{Runs, live, IsBusy, IsIdle, IsOwned, KeepsClear, OwnsNothing, ReadsFree, SameTree, Starts, BeginsAs, Refuses, IsOver, EndsAs, KeepsWill};
ghost use Rattle.spawn_dev.specs.declared.effect.Effect.{Effect};

use crate::{Command, Ended};
use std::alloc::Global;
use tree_dev::{DevErr, Tree};

/// A tree in which commands run. What runs is its `runs`: the book, by which a command's effect follows from
/// what the command sees; the command that runs at each place, which holds told or not; the effect that each of
/// these will have, which is fixed at its start; the starts and ends so far; how many commands run; and a
/// count of faults. All of it is part of what the tree keeps beside its files, so the calls of `Tree` leave
/// it as it is. While a command runs, the paths that it owns are held.
pub trait Spawner: Tree {
    ghost Book: { Type 0 };

    /// What a command does that sees this.
    ghost effect: { Book → Seen → Effect };

    ghost runs: { Self → Runs Book };

    /// Starts a command at a place where none runs. No file that it owns may stand in the tree, no path that it owns
    /// may be owned or read by one that runs, and no path that it reads may be held. On an error nothing changed but the
    /// count of faults.
    fn start(&mut self, alloc: Global, command: Command) -> Result<(), DevErr>
        requires fresh { live (runs self.old) command.place ≡ false }
        requires absent { Self.tells → OwnsNothing command (Self.state self.old).files }
        requires clear { KeepsClear command (runs self.old) }
        requires reads { ReadsFree command (Self.state self.old).held }
        ensures tree { SameTree (Self.state self.old) (Self.state self.new) }
        ensures book { (runs self.new).book ≡ (runs self.old).book }
        ensures started { OnOk result (Starts command (runs self.old) (runs self.new)) }
        ensures begins { Self.tells
            → OnOk result (BeginsAs effect (Self.state self.old).files command (runs self.old)
            (runs self.new)) }
        ensures refused { OnErr result (Refuses (runs self.old) (runs self.new)) }
        ensures others { KeepsWill (runs self.old) (runs self.new) }
        ensures cause { HasCause (runs self.old).faults (runs self.new).faults result };

    /// Waits for the end of a command. Which of those that run ends is free. Whatever it answers, one of
    /// them runs no more, and every path that this one does not own is as before.
    fn wait(&mut self, alloc: Global) -> Result<Ended, DevErr>
        requires busy { IsBusy (runs self.old) }
        ensures tree { (Self.state self.new).faults ≡ (Self.state self.old).faults }
        ensures book { (runs self.new).book ≡ (runs self.old).book }
        ensures over { IfOk result
            (λ ended. IsOver ended.place (runs self.old) (runs self.new) (Self.state self.old).files
            (Self.state self.new).files) }
        ensures ends { Self.tells
            → IfOk result (λ ended. EndsAs ended (runs self.old) (runs self.new)
            (Self.state self.old).files (Self.state self.new).files) }
        ensures short { IfOk result (λ ended. length ended.log ≤ log_limit) }
        ensures failed { OnErr result
            ((place : ℕ) × IsOver place (runs self.old) (runs self.new) (Self.state self.old).files
            (Self.state self.new).files) }
        ensures unsaid { OnErr result ((runs self.new).steps ≡ (runs self.old).steps) }
        ensures others { KeepsWill (runs self.old) (runs self.new) }
        ensures cause { HasCause (runs self.old).faults (runs self.new).faults result };

    /// Whether a command has ended that was not waited for yet. It does not wait and changes nothing that is told, and
    /// either answer may come: it is for whoever has something else to do until the next end.
    fn has_ended(&mut self, alloc: Global) -> bool
        ensures state { Self.state self.new ≡ Self.state self.old }
        ensures runs { runs self.new ≡ runs self.old };

    /// Whether no command runs.
    fn is_idle(&self) -> bool
        ensures idle { result ≡ true → IsIdle (runs self.now) }
        ensures busy { result ≡ false → IsBusy (runs self.now) };

    /// What runs is part of what the tree keeps.
    ghost runs_by_rest: { (a b : Self) → (Self.state a).rest ≡ (Self.state b).rest → runs a ≡ runs b };

    /// Only what a running command owns is held.
    ghost held_by_running: { (a : Self) → (path : Path) → (Self.state a).held path ≡ true → IsOwned (runs a) path };

    /// What a command does is an effect of its task, by every book: a status below 256, and files that ascend by path
    /// and that the task owns.
    ghost well_behaved: { (book : Book) → IsWellBehaved (effect book) };
}
