//! Two stores of a repository, the store and the spare one into which it is compacted, as the
//! program speaks of them: what they hold, and what is answered where one of them is no store.
//!
//! ```text
//! not_current(First(NotAStore))      turbo: the store file is no store
//! not_current(Spare(Damaged 9))      turbo: the spare store is damaged at 9
//! not_current(Failed)                turbo: the store failed
//! ```
//!
//! The first two are refusals, and the third is `StoreFault`. Where the output fails as a refusal
//! is put, `SinkFault` is answered. After want of memory nothing is put.
//!
//! `specs/` says what two stores hold of which one is current (`Stores`), why files are no stores
//! (`Refused`), and what follows of bytes (`Facts`). Bytes of a store count from 0.
#![tactic(auto)]

mod answering;

pub use answering::{not_current, unopened};
