//! Which tasks a finished run reports and which it starts, told by its steps alone (Turborepo's
//! `--continue`).
//!
//! Tasks are numbered from 0 in the order of the plan. A step is the start of a task, or its end
//! with a status, and an end with another status than 0 is a failure. Of three tasks that are all
//! to run, one at a time, let 1 depend on 0, and let 0 end with status 1 and the others with 0. In
//! each mode these are the steps, and the tasks that are reported:
//!
//! ```text
//! Never                     Start 0, End 0 1                                            0
//! DependenciesSuccessful    Start 0, End 0 1, Start 2, End 2 0                          0, 2
//! Always                    Start 0, End 0 1, Start 1, End 1 0, Start 2, End 2 0        0, 1, 2
//! ```
//!
//! By [`unreported_law`] a task that is not reported has its reason in a failure: with `Never` the
//! first failure ended before the task was started or settled, with `DependenciesSuccessful` an
//! ancestor of the task failed; with `Always` all are reported. By [`all_reported_law`] a run in
//! which nothing fails reports all tasks. By [`starts_law`] a run starts what it reports of the
//! tasks that are to run, each once.
//!
//! Each law is the contract of a function that does nothing and has no errors.
#![tactic(auto)]

mod laws;

pub use laws::{all_reported_law, starts_law, unreported_law};
