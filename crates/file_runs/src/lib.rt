//! A run of a plan over one store file that several runs use at once.
//!
//! [`run_shared`] takes the first turn of the file, runs the plan over the pairs that the file then
//! has, or with `--dry` says what a run would do, and hands the file back, whose turn is not held:
//!
//! ```text
//! let (answer, shared) = run_shared(alloc, false, &plan, &mut world, shared, &mut out);
//!
//! Done { status: 0 }                  no task failed; of a dry run always
//! Done { status: 3 }                  3 is the greatest status of a task that failed
//! Refused(NotAStore { Shared })       turbo: the shared file is no store
//! Refused(Damaged { Shared, at: 9 })  turbo: the shared store is damaged at 9
//! StoreFault                          turbo: the store failed
//! ```
//!
//! The other answers are those of a run over a cache (`cache_runs`). Offsets count bytes from 0.
//!
//! The run sees the pairs that the file had in its first turn and those that it puts itself. What
//! it puts goes behind whatever other runs have appended by then. So at the return the file has the
//! pairs of the first turn, and behind them those of the run in their order, with those of others
//! between them:
//!
//! ```text
//! first turn   a b
//! put c        a b c          then another run puts x
//! put d        a b c x d      the run sees a b c d
//! ```
//!
//! What others append is told for the next turn alone. So no clause tells a pair of another run
//! from one that this run appended beside those that it sees.
//!
//! `specs/` says how a run's pairs stand among those of others (`Standing`), what the file holds
//! for who takes its next turn (`Turns`), what is left of a run that came to its end (`Outcomes`)
//! or was stopped (`Stops`), what a crash leaves of the file at any moment (`Images`), and what the
//! answers say of the devices (`Causes`).
#![tactic(auto)]

mod running;

pub use running::run_shared;
