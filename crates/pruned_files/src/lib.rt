//! The files of a repository that is made of a part of another one, and its lockfile (Turborepo
//! docs, "prune").
//!
//! For the packages that stay these are their own files, the root's manifest, `turbo.json`,
//! `.npmrc` and ignore files, what tasks ask for from anywhere, and the lockfile, cut to what is
//! reached from what stays. Files that tasks declare as outputs are left out. Where `web` and `ui`
//! stay, `docs` does not, `dist/**` is declared, and `web` uses `y`, which has an `x` of its own:
//!
//! ```text
//! pruned_paths    package-lock.json, package.json, packages/ui/package.json,
//!                 packages/ui/src/a.js, packages/web/package.json,
//!                 packages/web/src/a.js, turbo.json
//! layer_paths     package-lock.json, package.json, packages/ui/package.json,
//!                 packages/web/package.json
//! cut_lock        of `packages` the root's entry, node_modules/ui, node_modules/web,
//!                 node_modules/y, node_modules/y/node_modules/x, packages/ui, packages/web
//! ```
//!
//! Owners are named by numbers, counted from 0: the packages by their names, and the root behind
//! them.
//!
//! [`cut_lock`] fails with `Missing` where an owner that stays misses a name in the lockfile that
//! is neither optional nor a peer, and with `OutOfMemory`. The other calls fail for want of memory
//! alone.
//!
//! `specs/` says which files stay and what becomes of the lockfile (`Pruned`, `Cut`), what the
//! files that stay say (`pruned_contents`), which of them an installation needs (`Layers`), and
//! what the calls answer (`Calls`).
#![tactic(auto)]

mod by_name;
mod cut;
mod error;
mod folders;
mod layers;
mod places;
mod root_files;
mod staying;

pub use cut::cut_lock;
pub use error::CutErr;
pub use layers::layer_paths;
pub use root_files::is_lockfile;
pub use staying::pruned_paths;
