//! The listing of a run: the input files and, for each task, what its result depends on. Its key
//! text, from which the listing can be told, and the fingerprint of a key text.
//!
//! `specs/` defines the key text field by field (`KeyText`) and the printed digits of a
//! fingerprint (`Fingerprint`). With one file `a` that has the byte `x`, and no tasks:
//!
//! ```text
//! TURBKEY1          eight bytes
//! 01 00 00 00       one file
//! 01 00 00 00 61    its path, behind the length
//! 01 00 00 00 78    its bytes, behind the length
//! 00 00 00 00       no parts
//! ```
//!
//! Lengths are in bytes and counts in members, each a `u32` in little-endian order. The
//! fingerprint is the SHA-256 of the key text (FIPS 180-4), of which [`short`] gives the first 16
//! hexadecimal digits: `ba7816bf8f01cfea` for the bytes `abc`.
//!
//! An [`Excerpt`] is a listing whose files and parts lie in another one. Its key text is written
//! straight from there.
//!
//! [`ListErr`]`::OutOfMemory` is the one error. It comes also where a text or list has 2^32 bytes
//! or members or more.
#![tactic(auto)]

mod coded;
mod digest;
mod error;
mod excerpt;
mod key;
mod part;

pub use digest::{fingerprint, short};
pub use error::ListErr;
pub use excerpt::{Excerpt, FileIn, PartIn};
pub use key::{key_text, key_text_law};
pub use part::{Listing, Part, Parts};
