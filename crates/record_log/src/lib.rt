//! A log of frames in a store's device. A frame counts once the gate in front of it was opened.
//!
//! The file is eight bytes of magic, one gate, and then frames, each with the gate of the next
//! one. A gate is one byte: 1 is open, and the first other one ends the log. A frame is its kind,
//! the lengths of key and value, the key and the value. A length has four bytes, and in kind 4
//! eight, the least first. The pair of `k` and `vv` as the only frame is 22 bytes:
//!
//! ```text
//!  0  TURBSTO1             magic
//!  8  01                   a gate, open
//!  9  01                   kind 1, a pair (2 content, 3 and 4 record, 5 generation)
//! 10  01000000 02000000    the lengths of key and value
//! 18  k vv
//! 21  00                   the next gate, closed
//! ```
//!
//! Offsets are in bytes and frames are numbered, both from 0. At most nine bytes are an empty
//! log. An append writes its frames behind the last gate, which stays closed, syncs, opens it,
//! and syncs. So whatever a crash leaves has the frames from before, or these and all the new
//! ones.
//!
//! Errors are [`LogErr`]. `open` and `resume` answer `NotAStore` for more than nine bytes without
//! the magic, and `Damaged` where no frame stands behind an open gate, with the offset behind
//! that gate (9 for the first one). An append answers `Full` with the bytes needed and those
//! free, of at most 2^40 in the file. All that use the device may answer `Failed`, where it
//! failed, and `OutOfMemory`. After an append that answered `Failed` the device is to be opened
//! again.
#![tactic(auto)]

mod error;
mod frame;
mod kind;
mod log;
mod mark;
mod number;
mod open;
mod piece;
mod scan;
mod seat;
mod steps;
mod window;

pub use error::{LogErr, Unopened};
pub use frame::{Frame, NewFrame, need_of};
pub use kind::{CONTENT, DIGEST_BYTES, GENERATION, LONG_RECORD, PAIR, RECORD, head_of, is_long};
pub use log::Log;
pub use mark::LogMark;
pub use piece::{PieceRef, count_at, piece_at, put_count, put_piece, record_law};
