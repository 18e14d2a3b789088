//! Numbers by digests: from 32 bytes to the numbers that have them.
//!
//! A digest is the 32 bytes of SHA-256 (FIPS 180-4), of a content or of a key. Digests are numbered from 0 on as they are
//! pushed, and several numbers may have one digest. The walk from `last` by `before` comes to each number of a digest once,
//! the greatest first:
//!
//! ```text
//! index.push(a)?;    // 0
//! index.push(b)?;    // 1
//! index.push(a)?;    // 2
//! index.last(&a)     // Some(2)
//! index.before(2)    // Some(0)
//! index.before(0)    // None
//! index.last(&c)     // None
//! ```
//!
//! `push` and `reserve` fail for want of memory alone, and the digests stay then.
#![tactic(auto)]

mod index;

pub use index::PrintIndex;
