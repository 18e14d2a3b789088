//! A run of a plan over two stores, a local one and a second one, as `--cache` asks for them.
//!
//! [`run_second`] runs a plan, or with `--dry` says what a run would do, over a cache that reads
//! the two stores and puts into them as an [`Access`](cli_words::Access) says. The local store is
//! the current one of two devices, the store and the spare one. Let the local store be empty, and
//! the second one have the results of both tasks of a plan. For `--cache=local:rw,remote:r`
//!
//! ```text
//! let access = Access { local_reads: true, local_puts: true,
//!     second_reads: true, second_puts: false };
//! let (answer, store, spare, second) =
//!     run_second(alloc, access, false, &plan, world, store, spare, second, out);
//! ```
//!
//! finds both, starts nothing and answers `Done { status: 0 }`: what is found in the second store
//! is not copied into the local one, and neither gets a pair. Had it found nothing, both results
//! would stand in the local store, and with `remote:rw` in both.
//!
//! [`open_for_plan`] opens a device as a store for such a run: it foresees the plan's keys alone.
//!
//! Without access to the local store the store and the spare one are not opened. All devices are
//! handed back whatever the answer is. Reasons to refuse come in this order: the store is no store
//! or a damaged one (`NotAStore`, `Damaged`), then the spare one, then the second one. Bytes of a
//! store count from 0. `TreeFault`, `StoreFault`, `StartFault` and `SinkFault` say which device
//! failed, where `StoreFault` stands for any of the three stores, and `OutOfMemory` may come at
//! any time.
//!
//! What is promised of one device holds where all of them tell what they hold, though one alone
//! may be meant.
//!
//! `specs/` says what the devices hold at a moment (`Moments`, `Opened`), what a call leaves that
//! came to its end (`Outcomes`), was refused (`Refused`) or was stopped (`Stops`), and what a crash
//! leaves of each device meanwhile (`Images`); of that [`image_law`] says what follows (`Laws`).
#![tactic(auto)]

mod foreseen;
mod laws;
mod opened;
mod opening;
mod runs;

pub use foreseen::open_for_plan;
pub use laws::image_law;
pub use runs::run_second;
