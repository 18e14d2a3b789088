//! Several runs over one file of pairs, as a machine and its laws. Each run sees the pairs that
//! the file had as the run entered, and its own. What it adds goes behind whatever the file has
//! then.
//!
//! A history of the runs 0 and 1, which add the pairs a, b and c to a file that has none first:
//!
//! ```text
//! event         file     view of run 0   view of run 1
//! Enter 0       -        -               none
//! Add 0 a       a        a               none
//! Enter 1       a        a               a
//! Add 1 b       a b      a               a b
//! Add 0 c       a b c    a c             a b
//! ```
//!
//! Here `-` is no pairs, and `none` is no view, which a run has that has not entered or was cut
//! off. A look-up of run 1 finds nothing of c at the end.
//!
//! The laws hold in every history. The file has its first pairs, and then the additions of the
//! runs, interleaved, each run's in its order. A look-up answers from its own run's view, and
//! what other runs add behind its entering changes no answer. Each pair was there first or is due
//! from a run, so pairs that are all good stay so.
//!
//! The machine is in `specs/Machine`, what runs may do in `specs/Histories`, and the history
//! above in `specs/TwoRuns`. Each law is the contract of a function that does nothing: who calls
//! it, as `shared_views::file_law()`, knows it. None of them fails.
#![tactic(auto)]

mod laws;

pub use laws::{file_law, look_law, moment_law, origin_law, others_law, two_runs_law, view_law};
