// A world in memory whose commands may end before they are waited for.
ghost use Rattle.std.specs.Prelude.{List};
ghost use Rattle.spawn_dev.specs.Books.{effect_of};
ghost use Rattle.spawn_dev.specs.BookLaws.{behaves};
ghost use Rattle.spawn_dev.specs.Spawn.{Runs};
ghost use Rattle.spawn_dev.specs.WorldLaws.{held_is_owned};
ghost use Rattle.spawn_dev.specs.declared.book.Rule.{Rule};

use rel_path::RelPath;
use spawn_dev::{Command, Ended, MemWorld, Spawner};
use std::alloc::Global;
use tree_dev::{DevErr, Entries, Found, Tree};

/// A world in memory. Where it is `early`, a command has ended whenever one runs and it is asked.
#[derive(Drop)]
pub struct EarlyWorld {
    pub inner: MemWorld,
    pub early: bool,
}

impl Tree for EarlyWorld {
    ghost tells = { Unit {0} };

    ghost Rest = { Runs (List Rule) };

    ghost state = { λ w. ⟦<MemWorld as Tree>⟧.state w.inner };

    fn list(&mut self, alloc: Global, folder: &RelPath) -> Result<Entries, DevErr> {
        self.inner.list(alloc, folder)
    }

    fn read(&mut self, alloc: Global, path: &RelPath, limit: u64) -> Result<Found, DevErr> {
        self.inner.read(alloc, path, limit)
    }

    fn write(&mut self, alloc: Global, path: &RelPath, bytes: &[u8]) -> Result<(), DevErr> {
        self.inner.write(alloc, path, bytes)
    }

    fn remove(&mut self, alloc: Global, path: &RelPath) -> Result<(), DevErr> {
        self.inner.remove(alloc, path)
    }

    ghost apart = { λ a told path held. a.inner.absent path held };
}

impl Spawner for EarlyWorld {
    ghost Book = { List Rule };

    ghost effect = { effect_of };

    ghost runs = { λ w. ⟦<MemWorld as Spawner>⟧.runs w.inner };

    fn start(&mut self, alloc: Global, command: Command) -> Result<(), DevErr> {
        self.inner.start(alloc, command)
    }

    fn wait(&mut self, alloc: Global) -> Result<Ended, DevErr> {
        self.inner.wait(alloc)
    }

    fn has_ended(&mut self, _alloc: Global) -> bool {
        self.early && !self.inner.is_idle()
    }

    fn is_idle(&self) -> bool {
        self.inner.is_idle()
    }

    ghost runs_by_rest = { λ a b e. e };

    ghost held_by_running = { λ a path held. held_is_owned a.inner.book
        a.inner.progress.running.items a.inner.progress.steps.items a.inner.faults
        a.inner.progress.distinct path held };

    ghost well_behaved = { behaves };
}
