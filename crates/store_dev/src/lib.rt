//! The device of a store: a file as it reads, and what a crash at any moment may leave of it.
//!
//! The layers above are proved over the trait [`StoreDevice`]. [`MemStore`] is such a device in
//! memory, with failing calls and crashes for tests, and [`FuseStore`] one whose calls fail from
//! some call on. Of a device in memory with the bytes `abc`, all synced:
//!
//! ```text
//! write_at(2, XYZ)    it reads as `abXYZ`
//! crash(., 1)         leaves `ab..`: what was written is filled, one byte past the old end kept
//! crash(., 0)         leaves `ab.`
//! sync()
//! crash(., 0)         leaves `abXYZ`
//! ```
//!
//! Offsets and lengths are in bytes, offsets from 0; numbers of failing calls count from 0. A
//! write has to begin at the end or before it, and to end at 2^62 or before.
//!
//! [`StoreErr`]`::Failed` comes where the device failed and counted it: a written range may hold
//! any bytes then, as may the buffer of a read. `OutOfMemory` comes from `write_at` and `crash`
//! alone, and leaves the bytes as they were.
#![tactic(auto)]

mod device;
mod fuse;
mod memory;
mod step;

pub use device::{StoreDevice, StoreErr};
pub use fuse::FuseStore;
pub use memory::MemStore;
