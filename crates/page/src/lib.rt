//! What a run prints: the block of each task, the summary and the blocks of a dry run (Turborepo docs, "run": logs
//! behind the names of their tasks, `outputLogs`, `--dry`, and the summary).
//!
//! `specs/` defines each line by what it holds: of tasks (`Tasks`), of blocks (`Blocks`), of summaries (`Summaries`) and
//! of dry runs (`DryBlocks`).
//!
//! ```text
//! ui:build: cache miss, executing 10ce2ab64b806b52
//! ui:build: compiled
//! web:build: cache miss, executing 652a9b8655888dd7
//!
//!  Tasks:    2 successful, 2 total
//! Cached:    0 cached, 2 total
//! ```
//!
//! Each line stands behind the package and the name of its task; the numbers are the first sixteen
//! digits of the key's SHA-256. [`block`] makes a task's lines, [`summary`] the last ones, [`dry_block`]
//! what `--dry` says of a task, and [`emit`] puts bytes into a sink.
#![tactic(auto)]

mod blocks;
mod dry;
mod error;
mod output;
mod summaries;
mod tasks;

pub use blocks::{Mark, Note, block};
pub use dry::{DryMark, dry_block};
pub use error::PageErr;
pub use output::emit;
pub use summaries::summary;
pub use tasks::{joined, task_name};
