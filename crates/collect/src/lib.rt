//! The listing of some tasks of a workspace: what the result of each depends on, with the bytes of
//! their input files, read through a tree. With these files, of which `.gitignore` has three
//! lines, and a `turbo.json` that says nothing of `inputs`
//!
//! ```text
//! .gitignore             dist, !dist/keep.txt, package.json
//! p/a/package.json       {"name": "a", "scripts": {"build": "x"}}
//! p/a/dist/keep.txt
//! p/a/x
//! ```
//!
//! the part of `a#build` has the folder `p/a`, the script `x`, and the inputs `p/a/package.json`
//! and `p/a/x`: nothing below an ignored folder is an input by default.
//!
//! The parts of a listing stand in the order of the wanted tasks and are named by their places,
//! counted from 0; dependencies have lower ones.
//!
//! [`collect`] refuses with `Missing` where the lockfile lacks a name that the owner of a task
//! needs, which is neither optional nor a peer; then with `TooLarge` for an ignore file or an
//! input of more than 256 MiB; then with `TooMuch` and the bytes of all inputs together, where
//! these are more than 1 GiB. `Failed` comes where the tree failed, and `OutOfMemory` at any time.
//! [`uses_of`] fails with `Missing` and `OutOfMemory`, and [`starts_of`] with `OutOfMemory`.
//!
//! `specs/` says it as relations: what a part holds (`Parts`), the files and the whole
//! (`Listings`), and what is answered instead (`Refusals`).
#![tactic(auto)]

mod collecting;
mod error;
mod exclusions;
mod laws;
mod marks;
mod parts;
mod reading;
mod rules;
mod scripts;
mod tasks;
mod uses;
mod wanted;

pub use collecting::collect;
pub use error::CollectErr;
pub use laws::listing_law;
pub use uses::{starts_of, uses_of};
pub use wanted::Wanted;
