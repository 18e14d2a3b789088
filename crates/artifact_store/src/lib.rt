//! A cache in a log: contents once, a record a pair, and the fingerprints of the pairs' keys.
//!
//! [`Store`] opens a device as a log and is a [`Cache`](cache_api::Cache) over it. It keeps an
//! index of the pairs (`pair_index`), so that a look-up reads only pairs that may have its key. A
//! store that rests hands its device back with a [`StoreMark`], by which it is opened again. With
//! an artifact of a log of 3 bytes and no files, and a store that was opened on a device without
//! bytes:
//!
//! ```text
//! store.find(alloc, b"key", &outs)        // None
//! store.put(alloc, b"key", &artifact)     // the device has 107 bytes
//! store.find(alloc, b"key", &outs)        // the artifact
//! store.find(alloc, b"k", &outs)          // None
//! store.count()                           // 1
//! ```
//!
//! An opening that fails hands the device back with an [`OpenErr`]: `NotAStore` for more than
//! nine bytes that don't begin as a store does, `Damaged` with the offset, counted from 0, of the
//! kind of a frame that is none, `Failed` where the device failed, or `OutOfMemory`. The errors
//! of the other calls are those of a cache; `whole` tells whether the store may be used still.
//! `free` is in bytes, and a store grows to at most 2^40 of them.
//!
//! `specs/` says which pairs the bytes of a store stand for (`Pairs`), what its openings answer
//! (`Opened`), what a mark tells (`Marks`), what becomes of pairs that are put (`Outcomes`), what
//! a store is to its callers (`Store`), when it answers what (`Answers`), what its images stand
//! for (`Laws`), and that there is no room where a pair is not put (`Fits`). As a cache it has all
//! its room for sure, all its pairs last, and nothing is ever due.
#![tactic(auto)]

mod cache;
mod error;
mod hits;
mod look;
mod mark;
mod pairs;
mod put;
mod store;

pub use error::OpenErr;
pub use mark::StoreMark;
pub use pair_index::{Numbers, SeenPairs};
pub use pair_reader::Lengths;
pub use store::Store;
