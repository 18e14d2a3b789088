//! npm's lockfile (package-lock.json, `lockfileVersion` 3): what a name finds from a location.
//!
//! A name is looked up from a location as Node.js does: in `node_modules` of the folder, and of each
//! folder above it.
//!
//! ```text
//! "packages": {
//!   "":                                  the root
//!   "packages/web":                      a package of the workspace
//!   "node_modules/ui":                   { "resolved": "packages/ui", "link": true }
//!   "node_modules/left":                 { "version": "1.0.0" }
//!   "packages/web/node_modules/left":    { "version": "2.0.0" }
//! }
//! ```
//!
//! From `packages/web` the name `left` finds the last location, from `packages/ui` it finds
//! `node_modules/left`, and `ui` leads to the folder `packages/ui`. [`Lock`] answers what some starts
//! reach over any number of dependencies, cuts a lockfile to what stays of it, and writes it. What many
//! questions have in common is reached once: [`Lock::reached`] keeps it, and [`Lock::externals_beyond`]
//! goes on from there. `LockErr` says why a file is no lockfile, `ExtErr` which name finds nothing.
#![tactic(auto)]

mod cut;
mod error;
mod externals;
mod finds;
mod lock;
mod lookup;
mod reach;
mod reached;
mod start;
mod texts;

pub use error::ExtErr;
pub use lock::Lock;
pub use lock_entries::LockErr;
pub use reached::Reached;
pub use start::Start;
