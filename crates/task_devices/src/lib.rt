//! What is done to the devices of a run for one task: its files are removed, put back or taken,
//! its log file is written, its command started and waited for, and its result looked up in the
//! cache or kept there. The cache may hold results back, and [`settle`] puts these. For a task that
//! the cache lacks the calls come in this order:
//!
//! ```text
//! look_up(alloc, key, outs, cache)?                         None
//! clear_owned(alloc, plan, 0, world)?                       the files that it owns are gone
//! start(alloc, command, world)?
//! wait(alloc, world)?                                       Ended { place: 0, status: 0, log }
//! keep_log(alloc, plan, 0, log, world)?                     packages/ui/.turbo/turbo-build.log
//! keep(alloc, plan, &ended, true, key, world, cache)?       Note::Stored
//! settle(alloc, cache)?                                     the result lasts, whatever crashes
//! ```
//!
//! Where it was found, [`put_back`] puts its files in place and answers its log. Tasks are named
//! by their places in the plan, counted from 0. [`keep`] answers by a note why a result was not
//! put: a file over the plan's limit in bytes, a path that another task declares too, or a full
//! store.
//!
//! Each fault is answered as that of its device: `TreeFault` of files, `StoreFault` of the cache,
//! `StartFault` of a command that could not be started or waited for, `SinkFault` of the output.
//! `OutOfMemory` may come at any time.
#![tactic(auto)]

mod commands;
mod error;
mod files;
mod finding;
mod keeping;
mod printing;
mod settling;

pub use commands::{start, wait};
pub use error::RunErr;
pub use files::{clear_owned, keep_log, put_back};
pub use finding::look_up;
pub use keeping::keep;
pub use printing::put_text;
pub use settling::settle;
