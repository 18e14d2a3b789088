//! Pruning: the files of a repository that given packages need are written below `out` (Turborepo
//! docs, "prune").
//!
//! Let `web` depend on `ui`, and no package on `docs`. For the name `web` [`prune`] prints two
//! lines, and writes the files of `ui` and `web` and some of the root; for containers it writes
//! them below `out/full`, and below `out/json` those that an installation needs:
//!
//! ```text
//!  - Added ui
//!  - Added web
//!
//! out/package.json               out/full/package.json               out/json/package.json
//! out/packages/ui/package.json   out/full/packages/ui/package.json   (so below out/json too)
//! out/packages/ui/src/a.js       out/full/packages/ui/src/a.js       (none below out/json)
//! ```
//!
//! Files are written in the order of their paths, those of `out/full` before those of `out/json`,
//! and the lines are put after the last. Nothing outside `out` changes, whatever comes.
//!
//! Nothing is written where a name is that of no package (`NoPackage`), a walked file stands
//! below `out` already (`OutTaken`), or the lockfile lacks a name (`Missing`), in this order.
//! `TooLarge` comes for a file of more than 256 MiB; those in front of it were written.
//! `TreeFailed` and `SinkFailed` come where the tree or the output failed, and `OutOfMemory` at
//! any time.
//!
//! `specs/` says what stands where afterwards (`Folders`, `Answers`), why nothing is written, and
//! what is printed.
#![tactic(auto)]

mod copying;
mod error;
mod lines;
mod out_folder;
mod planning;
mod pruning;
mod writing;

pub use error::PruneErr;
pub use pruning::prune;
