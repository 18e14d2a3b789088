//! The plan of a run: its tasks with their parts and definitions, the command, the key, the log
//! file and the lines of each, and what a run of it is to leave. There is no device here.
//!
//! Tasks are named by their places, counted from 0, and dependencies have lower ones. Of
//! `ui#build` in the folder `packages/ui`, which wrote `made`, and of `web#build`, which depends
//! on it:
//!
//! ```text
//! log_path     packages/ui/.turbo/turbo-build.log
//! block        ui:build: cache miss, executing ba7816bf8f01cfea
//!              ui:build: made
//! dry_block    web#build
//!                hash = ba7816bf8f01cfea
//!                cache = HIT
//!                command = tsc -b
//!                dependencies = ui#build
//! ```
//!
//! A fingerprint is the 32 bytes of SHA-256 of the key, of which [`digits`] answers the first 8 as
//! 16 hexadecimal digits. `limit` is in bytes, `width` in commands. [`PlanErr`] is want of memory
//! alone.
//!
//! `specs/` says when a plan is valid (`Plans`), which command a task has (`Commands`), what is to
//! become of each task (`Results`), what the page is (`Pages`) and what that of a dry run
//! (`DryPages`), what a run leaves (`Answers`), and how often one that only looks tasks up may
//! read the cache (`Costs`). `Stories`, `StoryLaws` and `Halts` are for whoever proves a loop: how
//! a run came to where it is, what each of its moves does to that, and what is kept where one
//! fails.
#![tactic(auto)]

mod command;
mod dry_text;
mod error;
mod keys;
mod laws;
mod lists;
mod log_file;
mod page_text;
mod plan;
mod report;
mod reports;
mod tables;

pub use error::PlanErr;
pub use keys::digits;
pub use laws::{halt_law, story_law};
pub use lists::{PairLists, TaskDefs};
pub use plan::Plan;
pub use report::Report;
pub use reports::Reports;
