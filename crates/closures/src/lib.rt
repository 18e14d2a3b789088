//! The part of a listing that the result of one task depends on: the task and its ancestors.
//!
//! [`excerpt`] keeps these parts in their order, numbers their dependencies anew, and keeps the files
//! that are inputs of one of them, each where it lies. [`closure_key`] is its key text, and
//! [`closure_key_len`] how many bytes that has. Places are counted from 0. The closure of the task
//! at place 2:
//!
//! ```text
//! listing    0 docs, inputs docs/a.md
//!            1 ui, inputs ui/a.js
//!            2 web, inputs web/a.js, depends on 1
//!            files docs/a.md, ui/a.js, web/a.js
//!
//! closure    0 ui, inputs ui/a.js
//!            1 web, inputs web/a.js, depends on 0
//!            files ui/a.js, web/a.js
//! ```
//!
//! Each asks that dependencies stand at lower places, that the files ascend by path, and that the
//! place is one of the listing. The only error is `OutOfMemory`. What a closure is, is defined in
//! `run_laws` (`Closures`).
#![tactic(auto)]

mod naming;
mod places;
mod renumbering;
mod task_closure;

pub use task_closure::{closure_key, closure_key_len, excerpt};
