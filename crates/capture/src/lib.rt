//! The files that a task owns, out of a tree and into it: they are removed before its command
//! runs, and taken as its result when it has ended. A stored result is put in their place from
//! memory, or file by file from a cache: then a file that stands there with its bytes is left as
//! it is.
//!
//! A task of the folder `p` has `"outputs": ["dist/**", "!dist/deep/**"]`, and each file has 4
//! bytes:
//!
//! ```text
//! p/dist/deep/x    not owned
//! p/dist/a.js      owned
//! p/dist/b.js      owned
//!
//! take, limit 4    p/dist/a.js and p/dist/b.js, with the log
//! take, limit 3    TooLarge, p/dist/a.js
//! clear            removes p/dist/a.js and p/dist/b.js
//! ```
//!
//! A file that another task of its package declares too is not owned, so it is not removed. Where
//! one stands there [`take`] answers `Shared` with the least such path, and no `TooLarge`. The
//! limit is in bytes of one file, and `TooLarge` has the least owned path over it.
//!
//! [`clear`] and [`restore`] answer neither of these. The other errors are `Failed`, where the
//! tree failed, and `OutOfMemory`; [`restore_hit`] tells a fault of the tree (`TreeFault`) from
//! one of the cache (`StoreFault`). All three leave what the task does not own as it was,
//! whatever they answer.
#![tactic(auto)]

mod choices;
mod clearing;
mod error;
mod hits;
mod lacking;
mod restoring;
mod taking;
mod writing;

pub use clearing::clear;
pub use error::{CapErr, HitErr};
pub use hits::restore_hit;
pub use restoring::restore;
pub use taking::take;
pub use writing::write_changed;
