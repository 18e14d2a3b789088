//! Orders to run, over devices: the plan that is asked for, and its run over the stores that the
//! order uses.
//!
//! Where it says nothing else, those are the store and the spare one into which it is compacted.
//! The one with the greater generation is current, and the store where they are equal: a run looks
//! results up in it, and puts its own there. The other one is at most opened, and has to be a store
//! as well.
//!
//! With an access to the second store (`--cache`), that is read or put into beside the current one,
//! as `second_runs` says it; with `--shared` the store of the run is the shared file, as
//! `file_runs` says it, and no other is opened. A device that the order does not use is handed back
//! as it was.
//!
//! In a repository without a `turbo.json`, whose only package `a` has the script `build`,
//! `echo hi`, [`run_order`] prints for the order `run build` over two empty stores
//!
//! ```text
//! a:build: cache miss, executing a0c70b87e818fd6a
//! a:build: hi
//!
//!  Tasks:    1 successful, 1 total
//! Cached:    0 cached, 1 total
//! ```
//!
//! and answers `Done { status: 0 }` with the four devices, of which the first holds the result. The
//! digits are the first 16 of the SHA-256 of the task's key, in hexadecimal.
//!
//! The refusals of the repository and of the plan come first, then those of the store, of the spare
//! one and of the second one, or that of the shared file: `NotAStore`, and `Damaged` with the byte
//! of the file, counted from 0, at which the broken frame begins. `TreeFault`, `StoreFault` (of any
//! of the stores), `StartFault`, `SinkFault` and `OutOfMemory` say what failed. All devices are
//! handed back, whatever is answered.
//!
//! `specs/` says what an order asks for and why it is refused (`Asking`), what a call leaves that
//! came to its end (`Outcomes`) or was stopped (`Stops`), and what a crash leaves of the stores
//! meanwhile (`Images`).
#![tactic(auto)]

mod asking;
mod orders;
mod over_current;
mod over_store;
mod planned;
mod uses;

pub use orders::run_order;
pub use uses::{Uses, uses_of};
