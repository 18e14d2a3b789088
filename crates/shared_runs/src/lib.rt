//! Several runs over one store, one at a time.
//!
//! [`Shared`] is a file whose turn a run takes and gives back: while it holds the turn it has the
//! file's device, and the others wait. [`MemShared`] is such a file in memory, into which other
//! runs put pairs between the turns. [`SharedStore`] is a [`Cache`](cache_api::Cache) of one run in
//! such a file. It sees the pairs of its first turn and those that it puts itself, whatever others
//! append meanwhile:
//!
//! ```text
//! let store = SharedStore::open(alloc, shared)?;   // the first turn: the pairs that the file has
//! store.put(alloc, key, &artifact)?;   // a turn: reads what others appended, appends, syncs
//! store.find(alloc, key, &outs)?;      // finds it, and no pair that others put since the opening
//! let shared = store.shared();         // the turn is not held
//! ```
//!
//! `TurnErr` says why a turn was not taken or not given back well: the file failed and counted it,
//! or memory was wanting. A call of a cache answers `Failed` where the file or its device failed,
//! which is counted, and where the file is found to be no store any more. After an error the cache
//! is to be opened again, and takes no further turn.
//!
//! As a cache all its pairs last, and nothing is ever due. None of its room is sure, since others
//! may take it at any moment: so nothing is held back over such a file.
//!
//! A cache counts how often its calls read frames of the file (`SharedStore::probes`): those that a
//! look-up reads, the places of a hit, and what a put compares. To read what others appended is
//! part of taking a turn, and is not counted.
//!
//! In the machine of `shared_views` the opening of a file is the entering of a run, and each call
//! is events of others and then its own, whoever the others are (`specs/Steps`). So the laws of the
//! machine hold of every cache here. `seen_law` says what a run sees: the pairs that the file had
//! as it entered, and then its own, in order, and no later pair of others. `comes_law` says that
//! whatever comes, there are events of others that bring it, so that none of this is said of
//! nothing.
//!
//! `specs/` says what bytes stand for beside those of another moment (`Frames`), what taking and
//! giving a turn leave (`Turns`), what a file in memory holds and will hold (`Others`, `History`,
//! `MemShared`), what a run sees of a file and what an image says of it (`Views`), what it is as a
//! cache (`Shared`), which events its calls are (`Steps`), what its opening answers (`Opened`), and
//! what its turns leave (`Passing`, `Passes`).
#![tactic(auto)]

mod appended;
mod cache;
mod first;
mod laws;
mod memory;
mod others;
mod own;
mod passing;
mod store;
mod turn;
mod turns;

pub use laws::{comes_law, seen_law};
pub use memory::MemShared;
pub use others::{OtherPut, OtherPuts};
pub use store::SharedStore;
pub use turn::{Shared, TurnErr};
