//! Why a command line is refused before anything is started, which device failed, and the line
//! that says so; and what stops the reading of a repository and the planning of a run.
//!
//! A line is `turbo: `, the reason and a line feed. These are the lines of [`fault_text`] for a
//! [`Refusal`] and of [`device_fault_text`] for a [`DeviceFault`]:
//!
//! ```text
//! NoManifest                                turbo: package.json is missing
//! NoSuchTask { name: test }                 turbo: no task test
//! Words(Twice { at: 2 })                    turbo: words: Twice 2
//! Cycle { tasks: [a#build, b#build] }       turbo: cycle: a#build -> b#build
//! Damaged { file: Spare, at: 9 }            turbo: the spare store is damaged at 9
//! Store                                     turbo: the store failed
//! ```
//!
//! Words behind the program's name and bytes of the store count from 0. Pointers are those of RFC
//! 6901. `TooMuch` has the bytes of all input files together.
//!
//! `fault_text` fails for want of memory alone, and `device_fault_text` never. A [`Stop`] is
//! `Refused` with the refusal, `Failed` where the tree failed, and `OutOfMemory`.
//!
//! `specs/` defines each line: of the faults of the readers (`Faults`) and of refusals
//! (`Refusals`).
#![tactic(auto)]

mod faults;
mod refusal;
mod refusal_text;
mod stop;

pub use refusal::{DeviceFault, Refusal, StoreFile, device_fault_text};
pub use refusal_text::fault_text;
pub use stop::Stop;
