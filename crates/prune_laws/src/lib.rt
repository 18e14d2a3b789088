//! A task of a pruned repository depends on what it depends on in the whole one: its closure, and
//! so its key and its outcome, are the same.
//!
//! Of the packages `docs`, `ui` and `web` let `web` depend on `ui`, and `build` on `^build`. After
//! `run build` and `prune web`, a run in `out` over the same store finds both results:
//!
//! ```text
//! run build --filter=web    ui:build: cache hit, replaying logs ...
//!                           web:build: cache hit, replaying logs ...
//! ```
//!
//! The laws hold of a task that has a script and whose owner stays, for two plans of one
//! environment in which such tasks get the same words behind `--`, where the lockfile, which is
//! cut, is no input of such a task. [`prune_law`] says that the closures are equal, and
//! [`outcome_law`] that the outcomes in the run without a cache and the key texts are. Places of
//! tasks count from 0 in each plan, and may differ in the two.
//!
//! `specs/Laws.antt` says so; each law is the contract of a function that does nothing and has no
//! errors.
#![tactic(auto)]

mod laws;

pub use laws::{outcome_law, prune_law};
