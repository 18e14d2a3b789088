//! A cache that holds results back and puts several at once.
//!
//! [`Held`] is a [`Cache`](cache_api::Cache) over another one. A pair that is handed over with
//! `give` is kept in memory while there is ample room for it and for those that are due already.
//! What is due is put by one call of the cache below: by `settle`, by `put_all`, or where one more
//! pair would be too much to hold. So a store waits for its disk once for all of them.
//!
//! ```text
//! held.give(alloc, a, left)?;     // Stored: nothing is written
//! held.give(alloc, b, right)?;    // Stored: nothing is written
//! held.is_due(&b.as_key());       // true: settle before it is looked up
//! held.settle(alloc)?;            // one append with both pairs
//! ```
//!
//! A crash leaves all pairs of the cache below, and none to all of those that are due. After
//! `Failed` nothing is due any more, after `OutOfMemory` all is as before; in both cases the cache
//! is then to be opened again.
//!
//! `specs/` says what is held back (`Due`), what the cache is to its callers (`Held`), and why it
//! is one (`Laws`).
#![tactic(auto)]

mod cache;
mod due;
mod held;

pub use held::{HELD_BYTES, Held};
