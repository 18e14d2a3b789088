//! The plan of a run: which tasks it has, in which order, and what each depends on, by the words
//! of the command line, the environment and the repository.
//!
//! Let the packages be `ui`, and `web`, which depends on it, and let `turbo.json` have `build`
//! with `"dependsOn": ["^build"]` and `test` with `"dependsOn": ["build"]`. Then [`plan_run`]
//! answers for
//!
//! ```text
//! run build    0 ui#build, 1 web#build (on 0)
//! run test     0 ui#build, 1 ui#test (on 0), 2 web#build (on 0), 3 web#test (on 2)
//! ```
//!
//! with ten commands at once, the mode `Never`, and files of up to 256 MiB that are put into the
//! cache, as the words say nothing else. Tasks are named by their places, counted from 0.
//!
//! `Stop::Refused` has the first reason why there is no plan: `Filter` or `NoPackage` for a
//! filter; `NoSuchTask`, `NoSuchDependency`, `Cycle` and `Persistent` for tasks; then
//! `LockMissing`, `TooLarge` and `TooMuch`, as `collect` refuses. `Stop::Failed` comes where the
//! tree failed, and `Stop::OutOfMemory` at any time.
//!
//! `specs/Plans.antt` says which plan that is, or why there is none.
#![tactic(auto)]

mod collecting;
mod definitions;
mod graphing;
mod passing;
mod planning;
mod preparing;
mod selection;
mod settings;
mod wanted;

pub use planning::plan_run;
