//! Cases of whole runs as data: a file is a group of cases over one repository, JSON with the members of `Group`. Beside
//! the format stand what its texts mean: what commands do, files that are made, calls of devices that fail, bytes as
//! texts, and the count of the cases that differ.
#![tactic(auto)]

mod bytes;
mod commands;
mod faults;
mod format;
mod many;
mod tally;

pub use bytes::{bytes_of, pairs_in, text_of};
pub use commands::book_of;
pub use faults::{Fault, Faults, StoreFaults, faults_of};
pub use format::{
    Case, Commands, Contents, Device, Does, Fails, Group, Many, Patch, Source, Step, Sweep, Wanted,
};
pub use many::push_many;
pub use tally::Tally;
