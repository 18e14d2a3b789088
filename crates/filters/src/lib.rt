//! Which packages of a workspace the words of `--filter` select (Turborepo docs, "Filtering packages").
//!
//! `specs/Words.antt` says what a word writes, and `specs/Selection.antt` which packages filters select.
//!
//! ```text
//! web            the package of this name
//! @acme/*        the packages whose names the pattern takes
//! ./packages/a   the package in this folder; a glob takes several
//! web...         `web` and what it depends on
//! ...web         `web` and what depends on it
//! web^...        what `web` depends on, without it
//! !docs          all without `docs`
//! ```
//!
//! Without a filter that takes in, all packages are taken. `FilterErr` says which word does not read or
//! names no package.
#![tactic(auto)]

mod cores;
mod error;
mod filter;
mod marks;
mod selection;
mod taken;
mod words;

pub use error::FilterErr;
pub use filter::{Core, End, Filter};
pub use selection::{select, selected};
