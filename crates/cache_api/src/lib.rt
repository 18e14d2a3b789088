//! What a cache of task results is: a list of pairs, a key and the text of an artifact each.
//!
//! An [`Artifact`] is what a task left: its log, and the files that it owns with their paths. Its
//! text ([`Artifact::text`]) has strings behind their lengths and lists behind their counts. A
//! number has four bytes, the least first. The log `l` with the files `a/b` (one byte, `x`) and
//! `a-b` (no bytes) is 32 bytes:
//!
//! ```text
//! 01000000 l                  the log
//! 02000000                    two files
//! 03000000 a/b 01000000 x     a path, and the bytes of its file
//! 03000000 a-b 00000000       paths ascend component by component
//! ```
//!
//! [`Artifact::read`] answers `None` exactly where bytes are no such text, as with a byte behind
//! it or with paths that don't ascend. [`Artifact::text`] answers `OutOfMemory` for a string or
//! list of 2^32 or more bytes or members.
//!
//! [`Cache`] is the trait over which runs are proved. `find` answers the artifact of the last
//! pair with that key whose value is an artifact all of whose files the task owns, `lookup` where
//! that stands (a [`Hit`]), and both `None` without such a pair. `put_all` adds pairs behind the
//! others, `put` one, and `give` one that is handed over. The first pairs last, whatever crashes;
//! of the others, which are due, a crash leaves the first, none to all. Only `give` leaves a pair
//! due, `settle` puts what is due, and `is_due` tells whether to settle before a look-up.
//!
//! Errors are [`CacheErr`]: `Full` where a single pair does not fit (the pairs are as before),
//! `Failed` where a device failed, and `OutOfMemory`. After the last two the cache may have to be
//! opened again.
//!
//! `specs/` defines the text of an artifact (`Artifacts`), how bytes are read as one (`Reading`),
//! what a look-up finds (`Found`), what is said of hits (`Hits`), the clock (`Moments`), and what
//! the calls of a cache leave and answer (`Pairs`, `Cache`).
#![tactic(auto)]

mod artifact;
mod cache;
mod error;
mod hit;
mod key;
mod puts;
mod reading;
mod room;
mod writing;

pub use artifact::{Artifact, artifact_law, owns_all};
pub use cache::Cache;
pub use error::CacheErr;
pub use hit::{Hit, HitFile, HitFiles};
pub use key::{Key, OwnKey};
pub use puts::{NewPair, Put, Puts};
pub use reading::path_in;
pub use room::{ROOM_BESIDE, ROOM_FOR_A_BYTE, ample_room};
