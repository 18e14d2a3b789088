//! Facts without code on which the prune law stands: orders in which the least always comes next,
//! closures of listings, paths below folders, ignore rules, definitions of tasks, lockfiles that
//! are cut, and the packages of a workspace.
//!
//! `proofs/` has them. Paths are lists of components there. That a path is a folder or lies in it,
//! `is_in` of `Strips`, and that it lies below it, `lies_below` of `workspaces`, are at these
//! values:
//!
//! ```text
//! path                  folder         is_in    lies_below
//! packages/ui/src       packages/ui    true     true
//! packages/ui           packages/ui    true     false
//! packages/uis/src      packages/ui    false    false
//! ```
//!
//! There is nothing to call, and so there are no errors.
#![tactic(auto)]
