//! Small tables of names, each with the kind of its value and its place.
//!
//! A [`Row`] has a name, what the name takes ([`Kind`]), and the place that its value goes to, a
//! number up to 255. Several names may share a place. [`KeyTable`] finds the row of a name:
//!
//! ```text
//! let table = KeyTable::new([key_row!("dependsOn", Words, 0), key_row!("cache", Flag, 6)]);
//! table.find("cache")        Some: the row `cache`, a `Flag`, with the place 6
//! table.find("depends")      None: a name has to be there whole
//! table.find("dependson")    None: names are compared byte by byte
//! ```
//!
//! No two rows may have one name, which `new` requires. No call takes memory or has an error.
#![tactic(auto)]

mod row;
mod table;

pub use row::{AsEntry, Kind, Row};
pub use table::KeyTable;
