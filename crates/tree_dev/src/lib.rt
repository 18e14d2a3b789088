//! A tree of files ([`Tree`]) and a sink for bytes ([`Sink`]) by what they mean, and both in
//! memory ([`MemTree`], [`MemSink`]). Of a tree in memory with the files `b`, `b/c` and `a`, which
//! has the bytes `one`:
//!
//! ```text
//! list the root      a, b, and the folder b: ascending, a file before a folder of its name
//! list x             nothing: a folder that is not there has no names
//! read a, limit 3    Here(one)
//! read a, limit 2    TooLong
//! read x, limit 9    Absent
//! ```
//!
//! A sink in memory whose call 1 fails has `abef` after puts of `ab`, `cd` and `ef`.
//!
//! A limit is in bytes. Calls of a device in memory count from 0, and `fails` has the numbers of
//! those that fail. [`DevErr`]`::Failed` comes where the device failed and counted a fault; the
//! count stops at 2^64 - 1. `OutOfMemory` may come at any call that takes memory. After an error
//! of `write` or `remove` nothing is said of the path itself, and after `Failed` a sink may have
//! some first part of the bytes; in memory the files and the sink's bytes stay as they were.
#![tactic(auto)]

mod entries;
mod error;
mod listing;
mod memory;
mod sink;
mod tree;
mod turns;

pub use entries::{Entries, Entry};
pub use error::DevErr;
pub use memory::{MemTree, bytes_at};
pub use sink::{MemSink, Sink};
pub use tree::{Found, Tree};
pub use turns::{Turns, count_fault};
