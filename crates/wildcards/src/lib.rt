//! Patterns whose items are runs or take one element each: what such a pattern takes, as a
//! relation and as a test, and the walk that decides it.
//!
//! `specs/` has the definitions. Items are of any type that says which of them are runs and what
//! the others take ([`Item`]); what they take are the elements of a list that is gone over from
//! its first on ([`Elements`]). A run takes any number of elements, also none, and a pattern has
//! to take the whole list. Where items and elements are bytes, `*` is a run and every other byte
//! takes itself:
//!
//! ```text
//! spells(a*c, abbc)    true: `*` takes `bb`
//! spells(a*c, ac)      true: `*` takes nothing
//! spells(a*c, abcd)    false: no item takes `d`
//! spells(*, "")        true
//! spells("", a)        false: an empty pattern takes the empty list alone
//! spells(?, a)         false: `?` takes itself
//! ```
//!
//! [`spells`] has no errors. The walk is in constant space and takes no memory.
#![tactic(auto)]

mod bytes;
mod elements;
mod item;
mod matching;

pub use elements::Elements;
pub use item::Item;
pub use matching::spells;
