//! Which paths a glob, a list of globs and the output set of a task take.
//!
//! `specs/` says it twice: as relations in the words of the rules (`Matches`, `Takes`, `Declares`,
//! `Owned`, `Shared`), and as tests that compute (`matches`, `list_takes`, `declares`, `takes`,
//! `shares`), which other crates cite in equations. Each public call that decides ensures both.
//! `glob_syntax` has the grammar.
//!
//! ```text
//! src/**                           matches `src` and `src/a/b`
//! src/*                            matches neither of them
//! dist                             matches `dist/a/b` too: it has no wildcards
//! ["!dist/*.map", "dist"]          takes `dist/a.js`, not `dist/a.map`, in either order
//! ["a", "!b/{c", "["]              `At` index 1: `OpenBrace` at 3
//! ```
//!
//! A task in `packages/ui` with the outputs `**` and `!*.log`, beside one with `coverage`, owns
//! `packages/ui/dist/a.js` and shares `packages/ui/coverage/x`.
//!
//! [`Glob`] refuses a text with [`GlobErr`], [`GlobList`] the first bad text with
//! [`ListGlobErr`]`::At`. An index counts texts, a place characters, both from 0, a leading `!`
//! too. `OutOfMemory` may come at any call that takes memory, and comes where an index is no
//! `u32`.
#![tactic(auto)]

mod error;
mod glob;
mod list;
mod out_set;

pub use error::ListGlobErr;
pub use glob::Glob;
pub use glob_syntax::GlobErr;
pub use list::{GlobList, GlobLists};
pub use out_set::{OutSet, OutSets};
