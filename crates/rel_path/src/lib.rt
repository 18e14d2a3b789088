//! Texts, byte strings, relative paths and small lists of them, which contracts see as lists, the
//! words in which all crates speak of files (`specs/`), and the limits that all of them keep.
//!
//! A [`RelPath`] is the list of its components below the root folder, which is the empty list. Its
//! text has a `/` between each two components. No component is empty, `.` or `..`, or has a `/`.
//!
//! ```text
//! read a/.b         the components `a` and `.b`
//! read ""           `Empty`: no text writes the root
//! read a/./b        `DotPart`
//! read a//b         `Slash`: a component is empty
//! join a and b/c    `Slash`: a name is one component
//! a/b < a-b         components are compared one after another, each by its bytes
//! a/b below a       true; `a` is not below `a`
//! ```
//!
//! Of a text the first bad component is answered. Sizes and offsets count bytes, offsets from 0;
//! `MAX_COMPONENTS`, `MAX_FILES`, `MAX_ALTERNATIVES` and `MAX_WIDTH` count what they name. Each
//! limit is the most that may be. Memory may be wanting at any call that takes some
//! ([`PathErr`]`::OutOfMemory`, else `AllocError`). A list stays as it was where `push` fails.
#![tactic(auto)]

mod bytes;
mod chars;
mod error;
mod held;
pub mod limits;
mod lists;
mod path;
mod span;
mod text;

pub use bytes::Bytes;
pub use chars::split_first_char;
pub use error::PathErr;
pub use lists::{Files, Pairs, Paths, Places, Texts};
pub use path::{RelPath, is_component};
pub use span::{Span, Spans};
pub use text::Text;
