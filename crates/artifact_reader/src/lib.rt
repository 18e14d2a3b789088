//! An artifact from the parts of its text in a store, without what its files hold.
//!
//! A stored artifact's text stands in a store as parts one after another: some are known, their
//! bytes were read, and of others only the place and the length. What has to be read of the text
//! is what stands between the bytes of files: lengths, counts and paths. [`read_parts`] reads the
//! text from its parts as a [`Hit`](cache_api::Hit), the places of its log and files, and copies
//! none of their bytes. Places are offsets and lengths in bytes. For the log `l` and a file `a/b`
//! of 100 bytes:
//!
//! ```text
//! parts    Known, 20 bytes at 500: 01000000 l 01000000 03000000 a/b 64000000
//!          Unknown, 100 bytes at 200
//! answer   Hit: the log is 1 byte at 504, and `a/b` is 100 bytes at 200
//! ```
//!
//! The answer is `Unknown` where something that has to be read is in a part that is not known
//! (here if the first part were not): the caller asks again with all parts known. It is
//! `NoArtifact` where the text is none, as when it ends early or a path does not stand behind the
//! one before it. The only error is `OutOfMemory`.
//!
//! `specs/` says what parts show of a text (`Parts`), how they are gone over (`Cursors`) and read
//! (`Reads`), and what an artifact read from them is (`Artifacts`).
#![tactic(auto)]

mod artifact;
mod cursor;
mod part;
mod reading;
mod stop;

pub use artifact::{Reading, read_parts};
pub use part::Part;
