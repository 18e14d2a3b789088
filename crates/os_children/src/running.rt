// A command that runs: its child, and what was read of its output.
ghost use Rattle.std.specs.Prelude.{◌≡◌, ◌≤◌, ◌+◌, ◌++◌, length, false, Ok, IfOk, IfSome, IfNone, max};
ghost use Rattle.std.specs.Io.{StartsWith, appended_bytes};
ghost use Rattle.std.specs.Io.KnownBytes.{Consumes};
ghost use Rattle.rel_path.specs.Limits.{log_limit};

use crate::ends::{ChildEnd, child_end};
use rel_path::limits::MAX_LOG_BYTES;
use spawn_dev::Command;
use std::alloc::Global;
use std::io;
use std::io::{ErrorKind, Read};
use std::os::fd::{AsRawFd, RawFd};
use std::process::{Child, OpenProcess};
use std::time::Duration;

// The most bytes that are read of a log. It is over the limit then.
const MOST: usize = MAX_LOG_BYTES + 1;

/// A command that runs. The pipe of its output is the child's `stdout`. It is closed once its end was read, once
/// a read failed, and once the log is over the limit.
#[derive(Drop)]
pub struct Running<P: OpenProcess> {
    pub command: Command,
    pub child: Child<P>,
    pub log: Vec<u8>,
    pub since: Duration,
    fault: Option<io::Error>,
    // The last look found the shell at its end, and the pipe open.
    outlived: bool,
}

impl<P: OpenProcess> Running<P> {
    pub fn new(alloc: Global, command: Command, child: Child<P>, since: Duration) -> Running<P>
        ensures { result.command ≡ command }
    {
        Running {
            command,
            child,
            log: Vec::new(alloc),
            since,
            fault: None,
            outlived: false,
        }
    }
}

impl<P: OpenProcess + Drop> Running<P>
where
    P::Stdout: AsRawFd,
{
    /// The pipe's descriptor, while it is open.
    pub fn descriptor(&self) -> Option<RawFd> {
        self.child.stdout.as_ref().map(|pipe| pipe.as_raw_fd())
    }

    /// Reads once by way of the buffer, which doesn't wait where the pipe is ready.
    pub fn read(&mut self, buf: &mut [u8])
        ensures { self.new.command ≡ self.old.command }
    {
        let Some(mut pipe) = self.child.stdout.take() else {
            return;
        };
        match read_some(&mut pipe, buf, &mut self.log) {
            Ok(true) => self.child.stdout = Some(pipe),
            Ok(false) => {}
            Err(error) => self.fault = Some(error),
        }
    }

    /// Closes the pipe where the shell had ended at the look before: a process that it left behind holds it.
    pub fn look(&mut self)
        ensures { self.new.command ≡ self.old.command }
    {
        if self.child.stdout.is_none() {
            return;
        }
        let ended = !matches!(self.child.try_wait(), Ok(None));
        if ended && self.outlived {
            drop(self.child.stdout.take());
        }
        self.outlived = ended;
    }

    /// Whether its pipe is closed, and a wait for its child would not take long.
    pub fn has_ended(&mut self) -> bool
        ensures { self.new.command ≡ self.old.command }
    {
        self.child.stdout.is_none() && !matches!(self.child.try_wait(), Ok(None))
    }

    /// Waits for the child. Where the pipe is open it is read to its end before. A read that failed is the outcome.
    pub fn finish(self) -> (Command, io::Result<ChildEnd>)
        ensures command { result.0 ≡ self.command }
        ensures log { IfNone self.child.stdout (IfOk result.1 (λ end. end.log ≡ self.log.items)) }
    {
        let Running {
            command,
            child,
            log,
            since: _,
            fault,
            outlived: _,
        } = self;
        let outcome = end_of(child, log);
        match fault {
            Some(error) => (command, Err(error)),
            None => (command, outcome),
        }
    }
}

fn end_of<P: OpenProcess + Drop>(mut child: Child<P>, log: Vec<u8>) -> io::Result<ChildEnd>
    ensures log { IfNone child.stdout (IfOk result (λ end. end.log ≡ log.items)) }
    ensures whole { IfOk result
        (λ end. IfSome child.stdout (λ pipe. IfSome (P.Stdout.remaining pipe)
        (λ bytes. end.log ≡ log.items ++ bytes))) }
{
    let log = match child.stdout.take() {
        Some(pipe) => read_on(pipe, log),
        None => Ok(log),
    };
    let status = child.wait()?;
    child_end(status, log?)
}

// One read of what the pipe gives, by way of the buffer: whether more may come. A signal counts as nothing read, and
// a log over the limit as an end.
fn read_some<F: Read>(pipe: &mut F, buf: &mut [u8], log: &mut Vec<u8>) -> io::Result<bool>
    ensures none_lost { IfOk result (λ _. Consumes (F.remaining pipe.old) (F.remaining pipe.new)
        (appended_bytes log.old.items log.new.items)) }
    ensures appends { StartsWith log.new.items log.old.items }
    ensures held { length log.new.items ≤ max (length log.old.items) (log_limit + 1) }
{
    let room = buf.len().min(MOST.saturating_sub(log.len()));
    let part = &mut buf[..room];
    match pipe.read(part) {
        Ok(count) => {
            log.extend_from_slice(&part[..count])?;
            Ok(count > 0)
        }
        Err(e) if e.kind() == ErrorKind::Interrupted => Ok(true),
        Err(e) => Err(e),
    }
}

// All that the pipe gives behind the log, within the limit and one byte.
fn read_on<F: Read + Drop>(pipe: F, mut log: Vec<u8>) -> io::Result<Vec<u8>>
    ensures whole { IfOk result (λ all. length all.items ≤ log_limit → IfSome (F.remaining pipe)
        (λ bytes. all.items ≡ log.items ++ bytes)) }
{
    let room = MOST.saturating_sub(log.len());
    pipe.take(room as u64).read_to_end(&mut log)?;
    Ok(log)
}
