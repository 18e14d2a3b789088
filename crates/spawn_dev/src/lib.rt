//! Starting commands and waiting for their ends, by what it means ([`Spawner`]), and a world in
//! memory ([`MemWorld`]), in which a [`Book`] says what commands do.
//!
//! [`shell_text`] writes the text by which a command runs. In the folder `a`, with the script
//! `tsc` and the word `-b`:
//!
//! ```text
//! exec </dev/null 2>&1
//! cd './a' || exit 127
//! PATH=node_modules/.bin:../node_modules/.bin${PATH:+:$PATH}
//! export PATH
//! sh -c 'tsc '\''-b'\''' || exit $?
//! ```
//!
//! A status is 0 to 255: 0 means success, and a command that a signal ended has 255. The log of an
//! end has at most 64 MiB. Calls of a world in memory count from 0, those of its tree among them.
//!
//! [`Spawner::has_ended`] asks without waiting whether there is an end to wait for; in memory there
//! is none before it is waited for.
//!
//! Errors are `Failed`, which the count of faults tells, and `OutOfMemory`. A `start` that fails
//! starts nothing. A `wait` that fails ends a command too; in memory it fails also where the log
//! is too long. [`shell_text`] fails for want of memory alone.
#![tactic(auto)]

mod book;
mod command;
mod effect;
mod evaluate;
mod progress;
mod shell;
mod spawner;
mod world;

pub use book::{Book, Piece, Pieces, Rule, Writes};
pub use command::{Command, Ended, Step};
pub use effect::Effect;
pub use shell::shell_text;
pub use spawner::Spawner;
pub use world::MemWorld;
