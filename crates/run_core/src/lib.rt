//! Which task of a run is to be looked up, started or waited for next: a machine over the tasks' numbers.
//!
//! Tasks are named by their places in plan order. [`Core::next`] says what is to be done:
//!
//! ```text
//! Lookup(0)   look it up: it is in the cache (`found`), or it is not (`missed`)
//! Start(0)    start its command (`started`)
//! WaitFirst   wait for whichever command ends first (`ended`, with its status)
//! Finished    nothing runs, and nothing is left to do
//! ```
//!
//! A failure stops what comes, or what stands on the task, or nothing, as the mode says.
#![tactic(auto)]

mod dependents;
mod error;
mod laws;
mod place_set;
mod scheduler;
mod states;
mod tables;

pub use error::CoreErr;
pub use laws::{greedy_law, next_law, reported_law, run_law};
pub use scheduler::Core;
pub use states::{Mode, Next, State, Step};
pub use tables::is_topological;
