//! The devices of the system: the files below the current folder and commands by the shell
//! ([`OsWorld`]), the file of the store ([`OsStore`]), standard output ([`OsSink`]), and the words
//! and the environment that the program was given.
//!
//! ```text
//! turbo run build      [`words`]         run, build
//! PATH=/bin            [`environment`]   the pair of PATH and /bin
//! A=b=c                                  the pair of A and b=c
//! =x                                     left out, and so is an entry without `=`
//! ```
//!
//! Paths are those below the current folder; the store stands at [`STORE_PATH`],
//! `.turbo/store.turb`. Limits of files are in bytes, and the bytes of the store count from 0. No
//! folder with 4,096 components or more is listed.
//!
//! Asked whether a command has ended, the world reads what is ready of the output of those that
//! run, and does not wait; where that cannot be done the answer is no.
//!
//! `words` fails with `NotUtf8` where a word is not UTF-8, and `environment` leaves such entries
//! out; both fail with `OutOfMemory`. A call of a device that fails answers `Failed` and is
//! counted, in the world for files and commands apart. What failed of files and the store is said
//! in a line on standard error, where that can be done. Want of memory is `OutOfMemory` and is not
//! counted, but for the store and the output, of which each error is `Failed`. A file or folder
//! that is not there is no error of reading, listing and removing.
#![tactic(auto)]

mod arguments;
mod backing;
mod faults;
mod files;
mod folders;
mod reports;
mod sink;
mod store;
mod streams;
mod warnings;
mod world;

pub use arguments::{WordErr, environment, words};
pub use sink::OsSink;
pub use store::{OsStore, STORE_PATH};
pub use streams::open_streams;
pub use warnings::warn_of_unread_config;
pub use world::OsWorld;
