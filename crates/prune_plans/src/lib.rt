//! A pruned repository has the plan of the whole one, where an order asks for tasks of a package
//! that the repository was pruned for.
//!
//! Of the packages `docs`, `ui` and `web` let `web` depend on `ui`, and `build` on `^build`. After
//! `prune web`, the order `run build --filter=web` has one plan in the repository and in `out`:
//!
//! ```text
//! place    task         stands on    inputs
//! 0        ui#build     none         packages/ui/package.json, packages/ui/src/a.js
//! 1        web#build    0            packages/web/package.json, packages/web/src/a.js
//! ```
//!
//! So a run has the same results in both, and finds in a store what it finds there in the other.
//!
//! The laws hold of an order with one filter, a package's plain name, and tasks that the package
//! has a script and a definition of. Of other names they do not hold: a name that only a package
//! defines that is left out is none of a task in the pruned repository, and the order is refused
//! there. [`plan_law`] says that the plan is the same, [`answer_law`] that the pruned repository
//! gives no other answer, [`files_law`] the same of files, and [`pair_law`] that two such plans are
//! as the laws of `prune_laws` ask for. That what they ask for holds together is shown by
//! `example_prune`. Places of tasks count from 0.
//!
//! `specs/Laws.antt` says so; each law is the contract of a function that does nothing and has no
//! errors.
#![tactic(auto)]

mod laws;

pub use laws::{answer_law, files_law, pair_law, plan_law};
