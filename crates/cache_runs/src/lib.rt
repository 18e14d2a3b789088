//! A run of a plan over a cache, whatever keeps it, answered as the program answers.
//!
//! [`run_over`] runs a plan or, with `--dry`, says what a run would do, and prints the page as it
//! comes. It answers:
//!
//! ```text
//! Done { status: 0 }    no task failed; of a dry run always
//! Done { status: 3 }    3 is the greatest status of a task that failed
//! TreeFault             a file failed, and `turbo: a file could not be read or written` was tried
//! StoreFault            the cache failed, and `turbo: the store failed` was tried
//! StartFault            a command could not be started or waited for, and its line was tried
//! SinkFault             the output failed
//! OutOfMemory           nothing more was printed
//! ```
//!
//! The cache is handed over and handed back. While commands run, results are held back, and several
//! are put at once. It refuses nothing. The cache has to be one that may be used (`whole`) and in
//! which nothing is due, and is one still after `Done`. Of a run that was stopped, results that could
//! not be put any more may be lost. What a run leaves of files, pairs and page is defined in
//! `run_plan`; `specs/` says what is answered (`Steps`), what a run begins with and is trusted in
//! (`Openings`) and what is left where it was stopped (`Stops`).
#![tactic(auto)]

mod running;

pub use running::run_over;
