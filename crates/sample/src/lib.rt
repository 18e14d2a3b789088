//! Four runs over a made repository in memory, by which a user sees on any machine that what is not
//! stored is run, that what is stored is not run again, and that a change runs again what depends
//! on it.
//!
//! [`sample`] makes four runs of `run build --concurrency=4` over the same stores, and prints how
//! many commands each started. The second comes over what the first one left, the third after a
//! change of the last package, and the fourth after one of the first package, which all others
//! need. For twelve packages it prints
//!
//! ```text
//! sample 12
//! run 1: 12 started, 0 cached
//! run 2: 0 started, 12 cached
//! run 3: 1 started, 11 cached
//! run 4: 12 started, 0 cached
//! pages ea213b232d97f684
//! ```
//!
//! where the last line has the first 16 hexadecimal digits of the SHA-256 of all that the four runs
//! printed. In the place of a run's counts stands `ended with 1` where its exit status is 1, and so
//! on for every status but 0.
//!
//! It asks for 1 to 400 packages. `SinkFault` comes where the output failed, and `OutOfMemory`
//! where memory was wanting, and then nothing is printed.
//!
//! `specs/` defines the lines (`RunLines`), what stands between two runs (`States`, and `Stages`
//! for the devices), what a run does and how it is told (`Runs`), and what is printed (`Lines`).
//! The repository is that of `sample_repository`.
#![tactic(auto)]

mod lines;
mod printing;
mod runs;
mod stage;

pub use printing::sample;
