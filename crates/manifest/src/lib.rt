//! Manifests: what a task runner reads of a `package.json` (npm docs, "package.json").
//!
//! `specs/` defines each part (`Parts`), why a text is no manifest (`Faults`), and the manifest that bytes write
//! (`Manifest`).
//!
//! ```text
//! { "name": "web",
//!   "scripts": { "build": "tsc" },
//!   "dependencies": { "ui": "^1.0.0" } }
//! ```
//!
//! gives the name, the scripts and the maps of dependencies, each ascending by name; of a root also the
//! globs of `workspaces`. `version` is only tried, and all other members are read over. The first
//! fault is answered: `NotJson`, `WrongKind` with a pointer, `NoName`, `OtherManager`.
#![tactic(auto)]

mod error;
mod manifest;
mod parts;

pub use error::ManifestErr;
pub use manifest::Manifest;
