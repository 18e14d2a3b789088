//! Pairs as frames that are to be appended.
//!
//! A pair is put as a frame for each content that none keeps yet, and a record that names the
//! contents. [`stage_all`] makes these frames for several pairs and writes nothing: contents that
//! the log keeps or that were staged before are named, and the others are staged once, without a
//! copy. The files of all pairs are hashed together, before the first is staged. A pair whose
//! frames do not fit in the room is left out. For an empty log, and two pairs with the keys `k`
//! and `m`, each with a log of 3 bytes and the same file `a/x` of 64 bytes:
//!
//! ```text
//! need_of_pair        222: 106 for the content, 116 for the record
//! stage_all, 338      Stored, Stored: content, record, record
//! stage_all, 337      Stored, Full: content, record
//! stage_all, 221      Full, Full: no frames
//! ```
//!
//! The room and all sizes are in bytes, each frame with one gate. A sum of more than 2^64 - 1 is
//! told as that number.
//!
//! Want of room is no error: it is told of each pair (`Full`). Errors are `Failed`, where the
//! device failed as it was read, and `OutOfMemory`. [`learn_all`] takes the contents that were
//! appended into the pool, and does not fail where there is room.
#![tactic(auto)]

mod contents;
mod cutting;
mod frame;
mod hashing;
mod kept;
mod learning;
mod lists;
mod pieces;
mod putting;
mod staged;

pub use frame::StagedFrame;
pub use learning::learn_all;
pub use putting::{need_of_pair, stage_all};
pub use staged::Staged;
