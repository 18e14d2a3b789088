//! Orders to prune, over devices: the repository is read, and the files that given packages need
//! are written below `out` (Turborepo docs, "prune").
//!
//! Let `web` depend on `ui`. What [`prune_order`] prints for three orders, one after another:
//!
//! ```text
//! prune web      - Added ui
//!                - Added web
//! prune web     turbo: already there: out/package.json
//! prune nope    turbo: no package nope
//! ```
//!
//! It answers `Done { status: 0 }` for the first and `Refused` for the others. The repository's
//! own refusals come first; then `NoPackage`, `OutTaken`, and `LockMissing` for a name that the
//! lockfile lacks, where nothing was written; then `TooLarge` for a file of more than 256 MiB,
//! where those in front of it were written. `TreeFault` and `SinkFault` say which device failed,
//! and `OutOfMemory` may come at any time.
//!
//! [`once_law`] says that a repository is pruned, or one reason refuses it.
//!
//! `specs/` says why an order is refused (`Asking`), what is left of the files (`Outcomes`), and
//! what has been printed when a fault ends a call (`Stops`).
#![tactic(auto)]

mod laws;
mod orders;

pub use laws::once_law;
pub use orders::prune_order;
