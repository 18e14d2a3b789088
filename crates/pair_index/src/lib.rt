//! The pairs of a log by number: where each stands, how long its key is, and the fingerprints.
//!
//! [`Index`] is read from a log, or learns what was put. [`Keys`] finds the pairs that may have a
//! key, from the last to the first, by the key's fingerprint where keys of its length are
//! foreseen, and else by its length. [`SeenPairs`] says which pairs a look-up is to see. Pairs
//! and frames are numbered from 0, and lengths are in bytes. With the keys `k`, `m` and `k` in
//! the frames 1, 2 and 3, behind a content:
//!
//! ```text
//! index.frame(0), index.frame(3)      Some(1), None
//! all lengths foreseen                `k` is sought by its fingerprint: last 2, before it 0
//! keys of 160 bytes alone foreseen    `k` is sought by its length: last 2, then 1, then 0
//! first: 1, own: [2]                  the pairs 0 and 2 are seen, and 1 is not
//! ```
//!
//! Where keys are sought by fingerprint, `last` and `before` answer places among the fingerprints
//! that are kept, and `number` tells the pair at a place.
//!
//! The keys of a log are read in batches, and those of a batch are hashed side by side. Reading a
//! log answers `Failed`, where the device failed, or `OutOfMemory`. `reserve` fails for want of
//! memory alone, and learning does not fail where it made room.
//!
//! `specs/` says what is kept of keys (`Keys`) and of frames (`Index`), what a batch has (`Batch`),
//! which lengths are foreseen (`Lengths`), which pairs are seen (`Seen`), and how often a look-up
//! may read a log (`Costs`).
#![tactic(auto)]

mod batch;
mod index;
mod keys;
mod seen;

pub use index::Index;
pub use keys::Keys;
pub use seen::{Numbers, SeenPairs};
