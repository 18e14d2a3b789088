//! Worked examples of the run without a cache, of keys and of what a store holds, computed by plain programs whose contracts
//! are the definitions.
#![tactic(auto)]

mod book;
#[cfg(test)]
mod graphs;
mod keys;
#[cfg(test)]
mod outcomes;
mod program;
#[cfg(test)]
mod stores;
#[cfg(test)]
mod trees;
mod worlds;

pub use book::{Piece, Rule, Write};
pub use keys::closure;
pub use program::{clean, seen_at};
pub use worlds::{cleared, log_name, over};
