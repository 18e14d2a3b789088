//! Two stores of which one is current, and compaction of the current one into the other.
//!
//! A store has a generation, and of two stores the one with the greater generation is current, the
//! first where they are equal. [`current`] says which it is. [`compact`] writes the pairs worth
//! keeping of the current store into the other one and then tells there the next generation, so
//! that whatever a crash leaves, the current one of the two has the pairs that there were or those
//! that are kept:
//!
//! ```text
//! let (side, store, spare) = current(alloc, store, spare);      // Ok(Side::First)
//! let (kept, store, spare) = compact(alloc, store, spare, Some(2));
//! // Ok(Kept { kept: 2, before: 4 }): from now on the spare store is the current one
//! ```
//!
//! Kept is each pair whose value is an artifact and whose key does not stand again later among
//! those; of these the last so many, or all. [`chain_law`] says what holds of stores that follow
//! one another by runs and compactions.
//!
//! Both devices are handed back, whatever is answered. [`CurrentErr`] and [`CompactErr`] tell which
//! of them is no store, where room is lacking (`NoRoom`), that there is no further generation
//! (`LastGeneration`, and then nothing was written), that a device failed, or want of memory.
//!
//! `specs/` defines what is kept (`Chosen`), which store is current (`Current`), what lacks room
//! (`Room`), what is left of devices (`Left`), when what is answered (`Answers`), and what follows
//! what (`Chains`).
#![tactic(auto)]

mod choose;
mod currents;
mod error;
mod faults;
mod fill;
mod held;
mod kept;
mod laws;
mod picks;
mod quick;
mod renewal;
mod side;
mod source;
mod steps;

pub use currents::current;
pub use error::{CompactErr, CurrentErr};
pub use kept::Kept;
pub use laws::{PairRule, chain_law};
pub use renewal::compact;
pub use side::Side;
