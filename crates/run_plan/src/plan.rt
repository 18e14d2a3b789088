// What is to be run.
use crate::lists::{PairLists, TaskDefs};
use listing::Listing;
use run_core::Mode;
use turbo_config::{LogMode, TaskIds};

/// What is to be run. Tasks are named by their places, of which dependencies have lower ones.
#[derive(Debug, Drop)]
pub struct Plan {
    /// The tasks by package and name.
    pub ids: TaskIds,
    /// The definition of each task.
    pub defs: TaskDefs,
    /// The part of each task, and the input files.
    pub listing: Listing,
    /// The variables that are passed on to each task's command and do not count.
    pub given: PairLists,
    /// How many commands may run at once (`--concurrency`).
    pub width: u32,
    /// What a failure stops (`--continue`).
    pub mode: Mode,
    /// Whether nothing is looked up in the cache (`--force`).
    pub force: bool,
    /// Which lines of the tasks are shown, where the command line says so (`--output-logs`).
    pub logs: Option<LogMode>,
    /// The most bytes of a file that is put into the cache.
    pub limit: u64,
}
