//! The text of a glob: its faults, and the alternatives that it writes.
//!
//! The steps of reading are lists in `specs/`: characters with quotes (`Marks`), tokens and
//! classes (`Tokens`), pieces in and between braces (`Pieces`), parts of alternatives (`Parts`).
//!
//! ```text
//! *             any run of characters of one component, also none
//! ?             one character
//! [!a-c]        one character that is not `a` to `c`; without `!`, one that is
//! src/**        `**` as a whole component: any number of components, also none
//! {a,b/c}/d     the alternatives `a/d` and `b/c/d`
//! \*            the character `*`
//! éé[a/b]       `OpenClass` at 2: the class meets a `/` or the end
//! é{a,b         `OpenBrace` at 1: no `}` follows
//! {a,{b}        `Nested` at 3: braces in braces
//! a/../b        `Climbs` at 2: a component is `..`
//! ```
//!
//! A place counts characters of the text from 0, or from the `start` that the caller gives. `Wide`
//! comes at the `{` with which there are more than 256 alternatives. Of several faults the one
//! with the least place is answered, and `OutOfMemory` may come at any call that takes memory.
#![tactic(auto)]

mod atom;
mod braces;
mod characters;
mod class;
mod climb;
mod error;
mod expand;
mod mark;
mod part;
mod piece;
mod read;
mod token;

pub use atom::{Atom, Class, Name};
pub use class::{Negation, class_of, ends_class};
pub use error::GlobErr;
pub use mark::{Mark, read_marks};
pub use part::{Alternative, Part, spells_path};
pub use read::read_alternatives;
