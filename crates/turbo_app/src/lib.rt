//! The whole program over devices: what `turbo` does with its words, environment, files, store and
//! output. What [`turbo`] prints, and the status of its answer, by the words behind its name:
//!
//! ```text
//! help                     usage: turbo [run] <task>... [options] [-- words]     0
//! run build                the page of the run, or of `--dry` what it would do   its status
//! run                      turbo: words: NoTask                                  1
//! prune web                 - Added ui, and a line for each package that stays   0
//! sample 3                 what four runs of three made packages started         0
//! compact --keep=2         kept 2 of 4                                           0
//! ```
//!
//! No words at all stand for `help`. Words count from 0. The status of a run is the greatest of
//! its tasks, and 0 where none failed; that of every other answer than `Done` is 1.
//!
//! `Refused` has the reason, `TreeFault`, `StoreFault`, `StartFault` and `SinkFault` say which
//! device failed, and `OutOfMemory` may come at any time. After a fault of the tree, the store or
//! of starting commands its text is tried once.
//!
//! `specs/` says what words ask for and why they are refused (`Asking`), what a call leaves that
//! came to its end (`Outcomes`) or was stopped (`Stops`), and what a crash leaves of the stores
//! meanwhile (`Images`). `answers` says what answers say of the devices, `run_orders`,
//! `prune_orders`, `compact_orders` and `sample` what becomes of an order to run, to prune, to
//! compact and to sample.
#![tactic(auto)]

mod help;
mod laws;
mod sampling;
mod top;

pub use answers::Answer;
pub use laws::{image_law, truth_law};
pub use refusals::{Refusal, StoreFile};
pub use run_orders::run_order;
pub use top::turbo;
