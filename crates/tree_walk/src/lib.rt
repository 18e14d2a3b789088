//! Going through a tree of files in order ([`gather`]), and the walk over a whole repository
//! ([`walk`]).
//!
//! Names ascend by their bytes, a file before a folder of its name, and each folder's files stand
//! together. The walk does not enter folders `node_modules`, `.git` and `.turbo`:
//!
//! ```text
//! files: node_modules/m/x  b/z  b-c  b  b/node_modules/y  .turbo/l  node_modules.js
//! walk:  b  b/z  b-c  node_modules.js
//! ```
//!
//! A path of the walk has at most 64 components, and there are at most 200,000 files; [`gather`]
//! takes such limits as [`Bounds`]. The first of these ends it, as [`WalkErr`]: `TooDeep`, with
//! the path of an entry that has one component too many, which may also be a folder that is not
//! entered; `TooMany`, at the first file too many; `Failed`, where a folder could not be listed;
//! `OutOfMemory`, at any time.
#![tactic(auto)]

mod error;
mod traversal;
mod walk_root;

pub use error::WalkErr;
pub use traversal::{Bounds, Choose, gather};
pub use walk_root::{is_skipped, walk};
