//! The task graph: which tasks a run has, what each depends on, and the order in which they are
//! planned (Turborepo, "Package and Task Graphs").
//!
//! In `dependsOn` the text `^t` stands for the task `t` of the packages that the owner depends on,
//! `t` for that of the same owner, `x#t` for that of `x`. [`expand`] finds the tasks of some names
//! and all that these stand on; [`Graph`] sorts them: of the tasks whose dependencies are placed
//! the least comes next. With `"build": {"dependsOn": ["^build"]}`, and of the packages `a`, `b`,
//! `c` and `d` let `a` depend on `b` and `d` on `c`. Then the graph of `build` has this plan:
//!
//! ```text
//! place   task       depends on
//! 0       b#build
//! 1       a#build    0
//! 2       c#build
//! 3       d#build    2
//! ```
//!
//! Places count from 0 in the order of the plan, and a task has a higher one than those that it
//! depends on.
//!
//! `expand` fails with `NoSuchTask` for the first word that names nothing, and with
//! `NoSuchDependency` for a text of `dependsOn` that stands for no task. [`Graph::order`] fails
//! with `Cycle`: its tasks in order, of which each depends on the next one and the last on the
//! first. All fail with `OutOfMemory`.
#![tactic(auto)]

mod cycle;
mod edges;
mod entries;
mod error;
mod expansion;
mod graph;
mod laws;
mod lists;
mod lookup;
mod node;
mod persistent;
mod plan;
mod reached;
mod rows;
mod slots;
mod sorting;

pub use error::GraphErr;
pub use expansion::{Expansion, expand};
pub use graph::Graph;
pub use laws::{graph_law, plan_law, tasks_law};
pub use lists::PlaceLists;
pub use node::Node;
pub use plan::PlanList;
