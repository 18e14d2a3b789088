//! A run of a plan over its devices: tasks are looked up in the cache and replayed, or their
//! commands started and waited for, as many at once as the plan says; results are put into the
//! cache, and the page is printed as it comes.
//!
//! For the tasks `ui#build`, whose command ends with status 2, and `web#build`, which depends on
//! it, in the mode `Never`, [`run`] answers `Ok(2)`, and the page is
//!
//! ```text
//! ui:build: cache miss, executing 6cfeeb1ca2d72c4c
//! ui:build: built ui
//! ui:build: failed with status 2
//!
//!  Tasks:    0 successful, 2 total
//! Cached:    0 cached, 2 total
//! Failed:    ui#build
//! ```
//!
//! The answer is the greatest status, and 0 where no task failed: a failed task is no error. Of
//! several faults the first is answered, after all running commands were waited for: `TreeFault`,
//! `StoreFault`, `StartFault`, `SinkFault`, or `OutOfMemory`.
//!
//! The cache may hold results back while commands run; `settling` says when these are put. Where
//! the cache may still be used they are put before `run` answers.
//!
//! Keys of tasks that will be looked up are hashed while commands run, by `hashing`.
//!
//! `specs/Answers` has what `run` says beside what a plan's run is to leave; the other files of
//! `specs/` say how the tables of `run_board` go with what runs, and what a run leaves where it
//! stops.
#![tactic(auto)]

mod draining;
mod ending;
mod hashing;
mod looking;
mod rounds;
mod running;
mod settling;
mod starting;
mod turns;

pub use running::run;
pub use task_devices::RunErr;
