//! A run of two packages by commands that copy their inputs. All that the law of runs asks for
//! holds of it together, so that the law speaks of some run.
//!
//! The task `build` of `web` (place 1) depends on that of `ui` (place 0). Each has two inputs,
//! its `package.json` with `{}` and its source `src/a.js`, and owns what is below `dist`:
//!
//! ```text
//! package  packages/NAME/src/a.js  packages/NAME/dist/a.js  log
//! ui       one                     one                      built
//! web      two                     twoone
//! ```
//!
//! `ui` copies its source. `web` writes its own source and behind it what `ui` has written. Both
//! end with status 0, no pairs were kept before, and each task is looked up.
//!
//! `specs/Example` has the listing, the commands and the outcomes. [`example_copies`] says that
//! the run without a cache has these outcomes, and [`premises_hold`] that the law's premises
//! hold. They are functions that do nothing, and neither fails.
#![tactic(auto)]

mod laws;

pub use laws::{example_copies, premises_hold};
