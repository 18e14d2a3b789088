//! Which packages have to stand in a repository that is made of a part of another one: those that
//! are named, those that the root depends on, and what these need in turn (Turborepo docs,
//! "prune").
//!
//! Owners are named by their numbers, counted from 0: the packages in the order of their names,
//! and the root behind them. With `docs` 0, `ui` 1 and `web` 2, which depends on `ui`, [`kept`]
//! answers
//!
//! ```text
//! web                                                        1, 2
//! ui, where the root depends on docs                         0, 1
//! web, where a task of web has docs#gen in its dependsOn     0, 1, 2
//! nope                                                       NoPackage { name: nope }
//! ```
//!
//! Where a task of an owner that stays has a text `//#task` in its `dependsOn`, the root stays,
//! and with it all packages.
//!
//! `NoPackage` comes for the first name that no package has, and `OutOfMemory` at any time.
//!
//! `specs/Kept.antt` says which they are, as the least set of owners that is closed;
//! `specs/Needs.antt` says it by what one owner needs of another.
#![tactic(auto)]

mod error;
mod files;
mod folders;
mod found;
mod front;
mod keeping;
mod links;
mod needs;
mod targets;
mod tasks;

pub use error::KeptErr;
pub use keeping::kept;
