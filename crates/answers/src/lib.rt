//! What the program answers, and what it prints in the place of what was asked for.
//!
//! The exit status is that of the run, and 1 for every other answer. For some answers of
//! [`Answer`], the status and what is printed:
//!
//! ```text
//! Done { status: 0 }                    0    the page
//! Done { status: 3 }                    3    the page, in which a task failed
//! Refused(NoSuchTask { name: test })    1    turbo: no task test
//! StoreFault                            1    turbo: the store failed
//! SinkFault                             1
//! OutOfMemory                           1
//! ```
//!
//! [`refuse`] puts the line of a refusal and answers `Refused`; where that fails it answers
//! `SinkFault` or `OutOfMemory`. [`tell`] tries once to put the line of a device that failed and
//! has no error. [`tell_stop`] does the one for a refusal and the other for a tree that failed,
//! with `TreeFault` as the answer; for want of memory it puts nothing.
//!
//! `specs/` says what answers say of the devices (`Answers`), what the devices hold at a moment
//! (`Moments`), and what has been printed when a fault ends a call (`Stops`).
#![tactic(auto)]

mod answer;
mod telling;

pub use answer::Answer;
pub use telling::{refuse, tell, tell_stop};
