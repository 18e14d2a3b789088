//! Orders to compact, over devices: of two stores the current one is compacted into the other one.
//!
//! Let the current store have four pairs, of which two have one key. What [`compact_order`] prints
//! for three orders, one after another, the last one where the spare file is something else:
//!
//! ```text
//! compact             kept 3 of 4
//! compact --keep 2    kept 2 of 3
//! compact             turbo: the spare file is no store
//! ```
//!
//! It answers `Done { status: 0 }` for the first two, and `Refused` for the last one. Reasons to
//! refuse come in this order: the first file is no store, or a damaged one (`NotAStore`,
//! `Damaged`); then the spare file; then the current store has the last generation
//! (`LastGeneration`), or what is kept lacks room (`NoRoom`). `StoreFault` says that one of the
//! two devices failed, `SinkFault` that the output did, and `OutOfMemory` may come at any time.
//! Both devices are handed back.
//!
//! `specs/` says why an order is refused (`Asking`), what is left and printed (`Outcomes`), what
//! the steps answer (`Steps`), and what has been printed when a fault ends a call (`Stops`).
#![tactic(auto)]

mod orders;
mod renewing;

pub use orders::compact_order;
