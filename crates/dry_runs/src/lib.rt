//! A dry run of a plan: what a run would do with each task, and what the cache holds of it.
//!
//! [`dry`] puts a block for each task into the sink, in the order of the plan. For `web#build`,
//! which depends on `ui#build` and whose result the cache holds, it is
//!
//! ```text
//! web#build
//!   hash = dbc6c47d27ff2f9f
//!   cache = HIT
//!   command = make web
//!   dependencies = ui#build
//! ```
//!
//! `hash` has the first 16 hexadecimal digits of the SHA-256 of the task's key. `cache` is `HIT`,
//! `MISS`, `BYPASS` where nothing is looked up for the task, and `NONE` where it has no script;
//! the command is `<NONEXISTENT>` then. Each task is looked up once at most.
//!
//! `StoreFault` comes where the cache failed, `SinkFault` where the output did, and `OutOfMemory`
//! at any time; no other error of [`RunErr`] comes. Whole blocks were put then, and of the next
//! one some first part.
#![tactic(auto)]

mod dry_run;

pub use dry_run::dry;
pub use task_devices::RunErr;
