//! What `turbo.json` says: the reading of a root's file and of a package's, with the first fault by
//! its place, and how two entries for one task are merged (Turborepo, "Configuring turbo.json" and
//! "Package Configurations"). Which entries speak of a task of a package is said by
//! `task_definitions`.
//!
//! `specs/` says it in two steps: what the bytes of a file mean (`root_of`, `package_of`), and how
//! one entry is put over another (`over`) and is a definition (`def_of`).
//!
//! ```text
//! { "globalEnv": ["CI"],
//!   "tasks": {
//!     "build": { "dependsOn": ["^build"], "outputs": ["dist/**"] },
//!     "web#build": { "cache": false },
//!     "//#lint": {}
//!   } }
//! ```
//!
//! This is read as the global keys and three entries, by their keys. A package's own file has
//! `"extends": ["//"]` and no key with a `#`. Its entries are put over those of the root: each key
//! of one takes the place of the root's, and the first `$TURBO_EXTENDS$` in an array stands for the
//! root's array. The first fault is answered by [`ConfigErr`], with a pointer.
#![tactic(auto)]

mod entry;
mod error;
mod files;
mod glob_fault;
mod keys;
pub mod names;
mod task_id;
mod tasks;
mod values;

pub use entry::{Entry, LogMode, TaskDef};
pub use error::ConfigErr;
pub use files::{Globals, PackageConfig, RootConfig};
pub use task_id::{TaskId, TaskIds};
pub use tasks::Tasks;
