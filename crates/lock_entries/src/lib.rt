//! What an npm lockfile (package-lock.json, `lockfileVersion` 3) says of each location, read from
//! its JSON value.
//!
//! `specs/` defines the entries (`Entries`), the numbers that no 64 bits hold (`Floats`) and the
//! order of refusals (`Lockfile`).
//!
//! ```text
//! {"lockfileVersion": 3, "packages": {
//!   "node_modules/a": {"link": true, "resolved": "packages/a"},
//!   "": {"dependencies": {"x": "2"}, "peerDependencies": {"y": "1"}}}}
//! ```
//!
//! [`read_entries`] gives two entries, ascending by the bytes of the location: the empty one has
//! the names `x` and `y`, of which `y` is soft, and `node_modules/a` the link `packages/a`.
//!
//! The first of these is answered: `WrongKind` at the top or at `/lockfileVersion`; `Version`,
//! where that is not 3; `Number`, where one anywhere is not whole or needs more than 64 bits;
//! `WrongKind` at `/packages` or below it. Of several pointers (RFC 6901) the least by its
//! bytes counts. `OutOfMemory` may come at any time, and comes for 2^32 entries or more.
//! [`read_entries`] never answers `NotJson`, which is for callers that read the text.
#![tactic(auto)]

mod entry;
mod error;
mod floats;
mod lockfile;
mod parts;

pub use entry::{Entry, Name, Names};
pub use error::LockErr;
pub use lockfile::{packages_of, read_entries};
