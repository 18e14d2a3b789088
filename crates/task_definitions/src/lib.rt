//! Which definition a task of a package has, by the turbo.json of the root, those of packages, and
//! the scripts (Turborepo, "Configuring turbo.json" and "Package Configurations").
//!
//! `specs/` says it in two steps: what is handed in, by name (`setup_of`), and what it says of a
//! task (`task_def`) and of the names of tasks (`AreNames`). What the bytes of a file mean, and how
//! one entry for a task is put over another, is said by `turbo_config`.
//!
//! ```text
//! root     { "tasks": { "build": { "outputs": ["dist/**"] },
//!                       "web#build": { "cache": false },
//!                       "//#lint": {} } }
//! docs     { "extends": ["//"],
//!            "tasks": { "build": { "outputs": ["$TURBO_EXTENDS$", "site/**"] } } }
//!
//! build of web     the second entry, in the place of the first whole: not cached, no outputs
//! build of docs    the first entry, with the outputs dist/** and site/**
//! lint of //       the third entry; no package has a task lint
//! names            build, lint
//! ```
//!
//! Without a turbo.json of the root a task has the default definition, where some package has a
//! script of its name. The only error of this crate is `OutOfMemory` of
//! [`ConfigErr`](turbo_config::ConfigErr).
#![tactic(auto)]

mod config;
mod definition;
mod laws;
mod task_names;

pub use config::Config;
pub use laws::definition_law;
