//! A cache over two stores, a local one and a second one.
//!
//! [`Relay`] is a [`Cache`](cache_api::Cache) over two [`Store`](artifact_store::Store)s, of
//! which one may be missing. An [`Access`](cli_words::Access) says which of them it reads and
//! which it puts into. A look-up asks the store first whose pairs stand last, then the other one,
//! and [`Hit::side`](cache_api::Hit) says which has the hit: 0 the local one, 1 the second one.
//! What is found in the second store is not copied. A pair is put into each store that is put
//! into, the second one first, or into none where one of them has no room for it.
//!
//! ```text
//! let (local_reads, local_puts, second_reads, second_puts) = (true, true, true, false);
//! let access = Access { local_reads, local_puts, second_reads, second_puts };
//! let mut relay = Relay::new(Some(local), Some(second), access);
//! if relay.find(alloc, key, outs)?.is_none() {
//!     relay.put(alloc, key, &artifact)?;
//! }
//! let (local, second) = relay.parts();
//! ```
//!
//! Where there is ample room for all pairs of a call, each store takes them in one append. Else
//! they are put one after another, each by what its frames need behind those before it.
//!
//! Errors are those of a cache. `Failed` comes where one of the devices failed, which the sum of
//! their counts tells. After an error the pairs of the relay are as before. Where the second
//! store had taken some already, or a device failed, the relay may no longer be used: the stores
//! are to be opened again, and may have more.
//!
//! The pairs of the relay are told where both devices tell their bytes. What is found in one of
//! the stores, and what each call leaves of it and of all images of its device, is told where
//! that device alone tells, whatever the other one does: a call that reads leaves its pairs, a
//! call that puts leaves its pairs and a first part of those that it was given, all of them where
//! the answer is Ok. Both stores are given the same pairs. By [`taken_law`] the same is so of all
//! calls of a run together.
//!
//! `specs/` says when stores serve an access (`Access`), what a store that may be missing is
//! (`Stores`, `Parts`), what the two have behind their first pairs (`Behind`, `Agree`), which
//! pairs are put (`Puts`), what a relay is to its callers (`Relays`), that there is no room where
//! a pair is not put (`Rooms`), what its calls leave of it (`Calls`, `Rests`) and of one store
//! (`Devices`), and what its images say of each device (`Laws`), which [`device_law`] and
//! [`full_law`] tell their callers. As a cache it has all its room for sure, all its pairs last,
//! and nothing is ever due.
#![tactic(auto)]

mod cache;
mod laws;
mod look;
mod part;
mod put;
mod relay;
mod room;

pub use laws::{device_law, full_law, taken_law};
pub use relay::{LOCAL, Relay, SECOND};
