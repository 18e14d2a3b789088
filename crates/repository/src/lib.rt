//! What a repository is: its walked files, the packages of its workspace, what its turbo.json
//! files say, and its lockfile, read through a tree. With these files
//!
//! ```text
//! package.json                    {"workspaces": ["packages/**"]}
//! turbo.json                      {"tasks": {"build": {"outputs": ["dist"]}}}
//! packages/one/package.json       {"name": "z", "scripts": {"build": "make"}}
//! packages/two/package.json       {"name": "a", "scripts": {"test": "try"}}
//! ```
//!
//! [`read_repository`] answers the four paths in order, the packages `a` and `z`, a configuration
//! of the task `build`, and no lockfile.
//!
//! It refuses, in this order: `NoManifest` and `Manifest` for the root's `package.json`; `Lock`;
//! `TooDeep` for a path of more than 64 components and `TooMany` for more than 200,000 files;
//! `Glob` for an entry of `workspaces`; `Manifest`, `Inside` and `NameTwice` for the packages;
//! `Config` and `Glob` for the `turbo.json` files. A file of more than 256 MiB is `TooLarge` in
//! its turn. The refusal comes as `Stop::Refused`; `Stop::Failed` comes where the tree failed, and
//! `Stop::OutOfMemory` at any time.
//!
//! `specs/Reading.antt` says which repository files make, or why they make none.
#![tactic(auto)]

mod configs;
mod lockfile;
mod reading;
mod repository;
mod root_manifest;
mod space;

pub use reading::read_repository;
pub use repository::Repository;
