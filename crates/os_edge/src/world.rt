// The files below the current folder, and commands by the shell.
ghost use Rattle.std.specs.Prelude.{◌≡◌, []};
ghost use Rattle.spawn_dev.specs.Effects.{no_effect};
ghost use Rattle.spawn_dev.specs.EffectLaws.{no_effect_behaves};
ghost use Rattle.spawn_dev.specs.Spawn.{Runs};
ghost use Rattle.os_edge.specs.World.{runs_of, state_with};

use crate::faults::counted;
use crate::reports::told;
use crate::{files, folders};
use os_children::{Children, told_of_end};
use rel_path::RelPath;
use spawn_dev::{Command, Ended, Spawner};
use std::alloc::Global;
use std::os::fd::AsRawFd;
use std::process::{OpenProcess, Processes};
use std::rt::Files;
use std::time::Clock;
use tree_dev::{DevErr, Entries, Found, Tree};

/// The world of the system: the files below the current folder, and commands that `/bin/sh` runs. It tells no
/// contents. Its two counts of faults stand still at the last value of a u64.
#[derive(Drop)]
pub struct OsWorld<R: Processes> {
    rt: R,
    children: Children<R::Started>,
    tree_faults: u64,
    start_faults: u64,
}

impl<R: Files + Processes + Clock + Eprint + AllocGlobal + Clone + Drop> OsWorld<R>
where
    <R::Started as OpenProcess>::Stdout: AsRawFd,
{
    /// The world below the current folder, in which nothing was started. It takes no memory.
    pub fn new(rt: R, alloc: Global) -> OsWorld<R>
        ensures state { ⟦<OsWorld<R> as Tree>⟧.state result ≡ state_with (runs_of [] 0) 0 }
        ensures runs { ⟦<OsWorld<R> as Spawner>⟧.runs result ≡ runs_of [] 0 }
    {
        OsWorld {
            rt,
            children: Children::new(alloc),
            tree_faults: 0,
            start_faults: 0,
        }
    }
}

impl<R: Files + Processes + Clock + Eprint + AllocGlobal + Clone + Drop> Tree for OsWorld<R>
where
    <R::Started as OpenProcess>::Stdout: AsRawFd,
{
    ghost tells = { ⊥ };

    ghost Rest = { Runs (Unit {0}) };

    ghost state = { λ w. state_with (runs_of w.children w.start_faults) w.tree_faults };

    fn list(&mut self, alloc: Global, folder: &RelPath) -> Result<Entries, DevErr> {
        let outcome = folders::list(&self.rt, alloc, folder);
        let outcome = told(&self.rt, alloc, folder, "listed", outcome);
        counted(&mut self.tree_faults, outcome)
    }

    fn read(&mut self, alloc: Global, path: &RelPath, limit: u64) -> Result<Found, DevErr> {
        let outcome = files::read(&self.rt, alloc, path, limit);
        let outcome = told(&self.rt, alloc, path, "read", outcome);
        counted(&mut self.tree_faults, outcome)
    }

    fn write(&mut self, alloc: Global, path: &RelPath, bytes: &[u8]) -> Result<(), DevErr> {
        let outcome = files::write(&self.rt, alloc, path, bytes);
        let outcome = told(&self.rt, alloc, path, "written", outcome);
        counted(&mut self.tree_faults, outcome)
    }

    fn remove(&mut self, alloc: Global, path: &RelPath) -> Result<(), DevErr> {
        let outcome = files::remove(&self.rt, alloc, path);
        let outcome = told(&self.rt, alloc, path, "removed", outcome);
        counted(&mut self.tree_faults, outcome)
    }

    ghost apart = { λ a told path held. cc };
}

impl<R: Files + Processes + Clock + Eprint + AllocGlobal + Clone + Drop> Spawner for OsWorld<R>
where
    <R::Started as OpenProcess>::Stdout: AsRawFd,
{
    ghost Book = { Unit {0} };

    ghost effect = { λ _ _. no_effect };

    ghost runs = { λ w. runs_of w.children w.start_faults };

    fn start(&mut self, alloc: Global, command: Command) -> Result<(), DevErr> {
        let outcome = self.children.start(&self.rt, alloc, command);
        counted(&mut self.start_faults, outcome)?;
        Ok(())
    }

    fn wait(&mut self, alloc: Global) -> Result<Ended, DevErr> {
        let (command, outcome) = self.children.take(&self.rt, alloc);
        let outcome = told_of_end(&self.rt, &command, outcome);
        let place = command.place;
        let end = counted(&mut self.start_faults, outcome)?;
        Ok(Ended {
            place,
            status: end.status,
            log: end.log,
        })
    }

    fn has_ended(&mut self, alloc: Global) -> bool {
        self.children.has_ended(alloc)
    }

    fn is_idle(&self) -> bool {
        self.children.is_empty()
    }

    ghost runs_by_rest = { λ a b e. e };

    ghost held_by_running = { λ a path held. cc };

    ghost well_behaved = { λ book seen. no_effect_behaves seen.outs };
}
