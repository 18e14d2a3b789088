//! Globs that take a folder out of a list of globs: for each folder one text that excludes exactly what lies below it.
//!
//! `specs/` has the text (`Exclusions`), and what a list of globs takes with such texts behind it (`Laws`).
//!
//! ```text
//! packages/a    !packages/a/**/*
//! x[1]          !x\[1\]/**/*
//! ```
#![tactic(auto)]

mod text;

pub use text::{exclusion, exclusion_law};
