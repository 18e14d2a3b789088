//! The contents of a log, each kept once.
//!
//! A content is the value of a frame of kind 2, whose key is the SHA-256 of the value as its
//! writer computed it. The pool finds a content by its digest and then compares the bytes, so it
//! trusts no digest. It holds the places of the frames and their digests, and no bytes of
//! contents. Contents are numbered from 0 among themselves ([`BlobId`]). With the pool of an
//! empty log:
//!
//! ```text
//! pool.keep(alloc, &mut log, b"one")    // number 0: a frame is appended
//! pool.keep(alloc, &mut log, b"two")    // number 1: another one
//! pool.keep(alloc, &mut log, b"one")    // number 0: nothing is appended
//! pool.kept(alloc, &mut log, b"six")    // None
//! pool.count()                          // 2
//! ```
//!
//! `len` and `span` are in bytes, the latter from the beginning of the file.
//!
//! Errors are those of the log: `Failed` and `OutOfMemory`, and from `keep` also `Full`, where
//! the frame takes more bytes than are free. After an error of `keep` the pool has what it had.
#![tactic(auto)]

mod digest;
mod pool;

pub use pool::{BlobId, Pool};
