// The children that run.
ghost use Rattle.std.specs.Prelude.{◌≡◌, ◌<◌, ◌∷◌, ◌++◌, [], None, true, false, length, OnOk, OnErr, IfErr, IsTrue};
ghost use Rattle.spawn_dev.specs.Running.{command_at, are_distinct};
ghost use Rattle.os_children.specs.Taking.{itself, IsTakenOut};

use crate::ends::ChildEnd;
use crate::reports::told_of_start;
use crate::running::Running;
use crate::shell::{shell, spawn};
use crate::waiting::Watch;
use spawn_dev::Command;
use std::alloc::Global;
use std::marker::Model;
use std::os::fd::AsRawFd;
use std::process::{OpenProcess, Processes};
use std::time::{Clock, Duration};
use std::{io, process};

// The system's error where a process has no more descriptors.
const TOO_MANY_OPEN: i32 = 24;

// A start that failed, with the command that wasn't started.
#[derive(Drop)]
struct Refused {
    command: Command,
    error: io::Error,
}

/// The children whose ends were not told yet, by their commands, oldest first. No two have one place.
#[derive(Drop)]
pub struct Children<P: OpenProcess> {
    running: Vec<Running<P>>,
    watch: Watch,
}

impl<P: OpenProcess> Model for Children<P> {
    ghost use Rattle.std.specs.Prelude.{List, IsTrue, map};
    ghost use Rattle.spawn_dev.specs.Running.{are_distinct};
    ghost use Rattle.spawn_dev.specs.declared.command.Command.{Command};
    ghost use Rattle.os_children.specs.Taking.{itself};

    ghost Value = { List Command };

    ghost view = { λ c. map (λ r. r.command) c.running.items };

    ghost invariant = { λ c. IsTrue (are_distinct itself (map (λ r. r.command) c.running.items)) };
}

impl<P: OpenProcess + Drop> Children<P> {
    /// None. It keeps the allocator and takes no memory.
    pub fn new(alloc: Global) -> Children<P>
        ensures { result ≡ [] }
    {
        Children {
            running: Vec::new(alloc),
            watch: Watch::new(alloc),
        }
    }

    pub fn is_empty(&self) -> bool
        ensures none { result ≡ true → self.now ≡ [] }
        ensures some { result ≡ false → 0 < length self.now }
    {
        self.running.is_empty()
    }
}

impl<P: OpenProcess + Drop> Children<P>
where
    P::Stdout: AsRawFd,
{
    /// Starts the command at a place where none runs. Where descriptors run out the others are read on until one
    /// of their pipes is at its end, and the start is tried again.
    pub fn start<R: Processes<Started = P> + Clock + Eprint>(
        &mut self,
        rt: &R,
        alloc: Global,
        command: Command,
    ) -> io::Result<()>
        requires { command_at itself self.old command.place ≡ None }
        ensures started { OnOk result (self.new ≡ self.old ++ command ∷ []) }
        ensures kept { OnErr result (self.new ≡ self.old) }
    {
        let mut shell = shell(alloc, &command)?;
        match self.try_start(rt, alloc, command, &mut shell) {
            Ok(()) => Ok(()),
            Err(refused) => self.start_again(rt, alloc, refused, &mut shell),
        }
    }

    fn start_again<R: Processes<Started = P> + Clock + Eprint>(
        &mut self,
        rt: &R,
        alloc: Global,
        refused: Refused,
        shell: &mut process::Command,
    ) -> io::Result<()>
        requires { command_at itself self.old refused.command.place ≡ None }
        ensures started { OnOk result (self.new ≡ self.old ++ refused.command ∷ []) }
        ensures kept { OnErr result (self.new ≡ self.old) }
    {
        if refused.error.raw_os_error() != Some(TOO_MANY_OPEN) {
            return Err(told_of_start(rt, &refused.command, refused.error));
        }
        if let Err(error) = self.close_one(rt, alloc) {
            return Err(told_of_start(rt, &refused.command, error));
        }
        match self.try_start(rt, alloc, refused.command, shell) {
            Ok(()) => Ok(()),
            Err(refused) => Err(told_of_start(rt, &refused.command, refused.error)),
        }
    }

    fn close_one<R: Clock + Eprint>(&mut self, rt: &R, alloc: Global) -> io::Result<()>
        ensures { self.new ≡ self.old }
    {
        self.watch.close_one(rt, alloc, self.running.as_mut_slice())
    }

    // Room is made before the child is, so that no child is lost.
    fn try_start<R: Processes<Started = P> + Clock>(
        &mut self,
        rt: &R,
        alloc: Global,
        command: Command,
        shell: &mut process::Command,
    ) -> Result<(), Refused>
        requires { command_at itself self.old command.place ≡ None }
        ensures started { OnOk result (self.new ≡ self.old ++ command ∷ []) }
        ensures kept { OnErr result (self.new ≡ self.old) }
        ensures back { IfErr result (λ refused. refused.command ≡ command) }
    {
        if let Err(e) = self.running.reserve(1) {
            let error = io::Error::from(e);
            return Err(Refused { command, error });
        }
        match spawn(rt, shell) {
            Ok(child) => {
                let since = rt.monotonic().unwrap_or(Duration::ZERO);
                let started = Running::new(alloc, command, child, since);
                self.running.push_reserved(started);
                Ok(())
            }
            Err(error) => Err(Refused { command, error }),
        }
    }

    // The place of one that has ended, or of the first where that can't be found.
    fn wait<R: Clock + Eprint>(&mut self, rt: &R, alloc: Global) -> usize
        requires { 0 < length self.old }
        ensures kept { self.new ≡ self.old }
        ensures place { result < length self.new }
    {
        self.watch.wait(rt, alloc, self.running.as_mut_slice())
    }

    /// Takes out whichever has ended first, once one has.
    pub fn take<R: Clock + Eprint>(
        &mut self,
        rt: &R,
        alloc: Global,
    ) -> (Command, io::Result<ChildEnd>)
        requires { 0 < length self.old }
        ensures taken { IsTakenOut result.0 self.old self.new }
        ensures distinct { IsTrue (are_distinct itself self.old) }
    {
        let place = self.wait(rt, alloc);
        self.running.remove(place).finish()
    }

    /// Whether one has ended that was not taken out yet, as far as that is seen without waiting. What is ready of
    /// their output is read meanwhile.
    pub fn has_ended(&mut self, alloc: Global) -> bool
        ensures { self.new ≡ self.old }
    {
        self.watch.has_ended(alloc, self.running.as_mut_slice())
    }
}
