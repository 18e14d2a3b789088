//! Commands of the system: each by a shell of its own, `/bin/sh`, their output read as it comes,
//! and their ends told as they come.
//!
//! What is waited for is `poll` over the pipes of all that run, so none is blocked by what it
//! wrote, and whichever ends first is told first. With a command of the script `echo hi; exit 3`:
//!
//! ```text
//! children.start(rt, alloc, command)?;      // no other may run at its place
//! children.has_ended(alloc)                 // false, or true once it has; this does not wait
//! children.take(rt, alloc)                  // (command, Ok(ChildEnd { status: 3, log: "hi\n" }))
//! children.is_empty()                       // true
//! ```
//!
//! The status is the exit code, and 255 where a signal ended the shell. The log has the bytes that
//! came through the pipe of the shell: its standard output, to which its text joins standard
//! error. Standard input is empty. The shell is given the pairs of the command as its environment,
//! and no others.
//!
//! `start` and the outcome of `take` fail with the system's error. After a `start` that failed the
//! children are as before. Where the process has no more descriptors, `start` reads on until a
//! pipe of the others is closed, and tries once more. A log of more than 64 MiB is `FileTooLarge`,
//! and want of memory is `OutOfMemory`. [`told_of_end`] writes a line for an error of `take` on
//! standard error, but not for want of memory.
#![tactic(auto)]

mod children;
mod ends;
mod progress;
mod reports;
mod running;
mod shell;
mod waiting;

pub use children::Children;
pub use ends::ChildEnd;
pub use reports::{is_fault, out_of_memory, told_of_end};
