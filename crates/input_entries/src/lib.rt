//! The entries of a task's `inputs`: how a list of them is read, and which paths its globs match (Turborepo docs,
//! "Configuring turbo.json", `inputs`, `$TURBO_DEFAULT$` and `$TURBO_ROOT$`).
//!
//! An entry is a glob, relative to the folder of the task's owner or, behind `$TURBO_ROOT$/`, to the root folder. A `!`
//! in front of either makes it one that excludes. The entry `$TURBO_DEFAULT$` stands for the owner's default files.
//!
//! ```text
//! ["$TURBO_DEFAULT$", "!docs/**", "$TURBO_ROOT$/tsconfig.json"]
//! ```
//!
//! is the default files and two globs: one of the owner's folder that excludes, and one of the root.
//!
//! What an entry and a path below a folder mean stands in `Entries` of `specs/`. The only error is
//! `ListErr::OutOfMemory`.
#![tactic(auto)]

mod entries;
mod relative;

pub use entries::{Base, InputGlob, InputList, any_reaches, any_wide, has_wide};
pub use relative::rest_where;
