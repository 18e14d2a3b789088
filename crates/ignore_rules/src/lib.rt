//! Which files the ignore files of a tree leave out (the format of git's `.gitignore`).
//!
//! `specs/` says it from the bytes of a file on: its lines, the rule that a line writes (`rules_of`), what a rule takes,
//! and which paths are ignored, as a relation (`Ignored`) and as a test (`is_ignored`).
//!
//! A line is a pattern. Of the lines that take a path the last one decides, and what lies below a
//! folder that is left out is left out.
//!
//! ```text
//! # what tools make
//! dist/           folders of this name, at any depth
//! *.log           files and folders with such a name
//! !keep.log       but not this one
//! /build          `build` beside the ignore file alone
//! docs/*.tmp      such names in `docs` beside the ignore file
//! a/**/b          `b` at any depth below `a`
//! ```
//!
//! No text is refused: a line that writes no pattern takes nothing. Want of memory is the only error.
#![tactic(auto)]

mod error;
mod ignore;
mod line;
mod part;
mod rule;
mod sign;
mod stack;

pub use error::IgnoreErr;
pub use ignore::Ignore;
pub use stack::Stack;
