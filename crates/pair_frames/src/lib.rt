//! Pairs as frames of a store: which pairs frames stand for, and as which frames a pair is put.
//!
//! Nothing runs here. A file of an artifact or of a key text is a content where it has at least
//! [`MIN_CONTENT_BYTES`] bytes (64) and at most 256 MiB. A pair is put as a frame for each
//! content that no frame keeps yet, and one record of kind 4, in which contents are named by
//! their numbers, counted from 0 among the frames of kind 2. For the key `k` and the artifact
//! with the log `hi` and a line feed, and a file `a/x` of 64 bytes, put into an empty store:
//!
//! ```text
//! kind 2   key SHA-256 of the 64 bytes    value the 64 bytes
//! kind 4   key SHA-256 of `k`             value the pieces of key and value:
//!          key     Literal, 1 byte: k
//!          value   Literal, 22 bytes: 03000000 hi. 01000000 03000000 a/x 40000000
//!                  Content 0
//! ```
//!
//! The dot is the line feed. Another pair with the same file adds a record alone, which names
//! content 0. In the record the counts, the lengths and the numbers of contents have eight bytes,
//! the least first. Frames of the kinds 1 (whole), 3 and 4 stand for a pair each, and all others
//! for none.
//!
//! `specs/` defines the texts of a pair as runs (`Runs`), the pairs of frames (`Pairs`) and the
//! frames of a put (`Puts`). What these settle (`Laws`) are the contracts of functions that do
//! nothing and do not fail; lemmas for the crates above stand in `Joins`, `Cuts`, `Steps` and
//! `Reading`.
#![tactic(auto)]

mod laws;
mod limits;

pub use laws::{pairs_law, put_law, runs_law, several_law};
pub use limits::{MAGIC_BYTES, MIN_CONTENT_BYTES};
