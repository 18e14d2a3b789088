//! A repository of two packages that is pruned for one of them. All that the laws of `prune_plans`
//! ask for holds of it together, so that they speak of some repository.
//!
//! The root has no `turbo.json` and no lockfile, and its workspaces are the folders `a` and `b`, of
//! which `a` has a script `t`:
//!
//! ```text
//! prune a               out has package.json and a/package.json, and b is left out
//! run t --filter=a      one task, a#t
//! ```
//!
//! [`premises_hold`] says so. It is a function that does nothing and has no errors; its repository
//! stands in `proofs/Sample.antt`.
#![tactic(auto)]

mod laws;

pub use laws::premises_hold;
