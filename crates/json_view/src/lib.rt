//! JSON texts, looked up by pointers (RFC 6901), and JSON with comments.
//!
//! A [`View`] reads a text once and answers what stands at a pointer: a text, texts, a flag, a whole
//! number, the names of the members, pairs of texts, or the value itself. Nothing there is `None`;
//! something of another kind is `WrongKind`, with the pointer. With
//!
//! ```text
//! {"name": "web", "scripts": {"build": "tsc", "test": "jest"}}
//! ```
//!
//! `text_at` gives `web` at `/name` and `None` at `/version`, `keys_at` gives `build` and `test` at
//! `/scripts`, and `flag_at` refuses `/name`. [`plain_json`] makes JSON of a text with comments and
//! trailing commas, each byte in its place.
#![tactic(auto)]

mod bytes;
mod error;
mod look;
mod pairs;
mod plain;
mod pointer;
mod view;

pub use error::{JsonErr, Shape};
pub use look::{texts_of, wrong_kind};
pub use pairs::pairs_of;
pub use plain::plain_json;
pub use pointer::pointer_to;
pub use view::View;
