//! What the page of a run does not depend on. Where no failure stops the run, two runs of a plan
//! from one opening print one page, in whatever order their commands end, but for the notes that
//! the store is full.
//!
//! Let the plan have the tasks `a#build` and `b#build`, both to run, of which neither depends on
//! the other, two at once, and the mode `Always`. These two runs print one page, in which
//! `a#build` comes first:
//!
//! ```text
//! Start 0, Start 1, End 0 0, End 1 2
//! Start 0, Start 1, End 1 2, End 0 0
//! ```
//!
//! Tasks are named by their places, counted from 0 in the order of the plan, and an end has the
//! status of its command. Each command has to end with the same status in both runs. Each run has
//! its own room in the store: but for the lines of the notes `Full` the pages are equal. Nothing
//! is said of the mode `Never`, in which a failure stops the run.
//!
//! [`page_law`] is the contract of a function that does nothing and has no errors.
#![tactic(auto)]

mod laws;

pub use laws::page_law;
