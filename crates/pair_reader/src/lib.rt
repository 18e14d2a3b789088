//! The pairs in a log's frames, read.
//!
//! A pair stands in one frame, whole or as pieces: a piece is bytes in the frame itself, or names
//! a content of the log's pool. [`key_text_at`] tells a key's length and text, [`pair_at`]
//! reads a pair whole, and [`given`] tells where the artifact of a pair stands, with none of the
//! bytes of its files read if they are contents. Frames are numbered from 0; lengths and places
//! are in bytes, the latter from the beginning of the file. Let frame 0 be a content of 64 bytes,
//! and frame 1 the record (as `pair_frames` has it) of the key `k` and an artifact with a log of
//! 3 bytes and that content as its file `a/x`. For a task that owns `a/x`:
//!
//! ```text
//! key_text_at, frame 1, All           length 1, and the text `k`
//! key_text_at, frame 1, Only [160]    length 1, and no text
//! pair_at, frame 1                    `k`, and the artifact's text
//! given, frame 1, `k`                 the log is 3 bytes at 203, and `a/x` is 64 bytes at 50
//! given, frame 1, `m`                 None
//! ```
//!
//! [`given`] answers `None` also where the value is no artifact, or the task does not own all of
//! its files. All calls ask for a frame of the log that stands for a pair. Errors are `Failed`,
//! where the device failed, and `OutOfMemory`.
//!
//! `specs/` says which pair stands in a frame and how often is read for it (`Frames`), how pieces
//! stand in the text of the frames (`Standing`) and in a record (`Sources`), how they are parts
//! of an artifact's text (`Parts`), and what the calls answer (`Answers`).
#![tactic(auto)]

mod calls;
mod compare;
mod hit;
mod key;
mod pair;
mod parse;
mod parts;
mod piece;
mod walk;
mod wanted;

pub use hit::given;
pub use key::{KeyText, key_text_at};
pub use pair::pair_at;
pub use wanted::Lengths;
