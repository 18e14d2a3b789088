//! The program: what leads from its words and its environment to its exit status.
//!
//! [`exit_status`] does it over any devices, and [`system_status`] over those of the system: the
//! words and the environment of the process, the files below the current folder, and standard
//! output. For the words `run build --frob` the two lines are on standard output and on standard
//! error, and the status is 1:
//!
//! ```text
//! turbo: words: Unknown 2
//! turbo: word 2 is "--frob"
//! ```
//!
//! Words behind the program's name count from 0. The status is that of a run which came to its
//! end, the greatest of its tasks, and 1 for every other answer than `Done`.
//!
//! Where a word is not UTF-8 a line on standard output says so, and the status is 1. Where memory
//! is wanting a line on standard error says so, and the status is 1. On standard error there is
//! advice besides where a word was refused, and where a store is to be deleted. The functions have
//! no errors: each [`Outcome`] has an answer.
#![tactic(auto)]

mod advice;
mod paths;
mod status;
mod system;

pub use status::{Outcome, exit_status};
pub use system::{System, system_status};
