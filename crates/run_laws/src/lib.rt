//! What a run means, and its laws: the run without a cache, closures and keys, when a store tells
//! the truth, and the files while a run goes on.
//!
//! Nothing runs here. `specs/` has the definitions, each in a file that is read in a screen or
//! two: `Ancestors`, `Closures` and `Valid` speak of listings, `Effects` and `Clean` of books and
//! of the run without a cache, `Keys`, `Pairs` and `Marks` of the store, `Plans`, `Worlds` and
//! `Runs` of files and of whole runs. A book says what each command does. The run without a cache
//! (`clean`) has an outcome for each place of a listing. Where the command of `ui` ends with
//! status 1 and all others with status 0:
//!
//! ```text
//! place  task   depends on    Never      Always
//! 0      ui                   Done, 1    Done, 1
//! 1      web    0             Skipped    Done, 0
//! 2      docs                 Done, 0    Done, 0
//! 3      all    2, no script  Passed     Passed
//! ```
//!
//! `DependenciesSuccessful` gives what `Never` gives. Places are counted from 0, and a task
//! depends on lower places. A status of a well-behaved book is below 256; a task that ends with
//! another status than 0 has failed.
//!
//! The laws are the contracts of functions that do nothing: who calls one, knows its law. None of
//! them fails.
#![tactic(auto)]

mod laws;
mod mark;
mod outcome;

pub use laws::{
    artifact_law, closure_is_valid, closure_law, due_law, each_law, effect_law, ends_law,
    found_law, history_law, hit_law, keys_law, leaves_law, log_law, modes_law, run_law, seen_law,
    shows_law, skipped_law, start_law, steps_law,
};
pub use mark::Mark;
pub use outcome::Outcome;
pub use run_core::Mode;
pub use spawn_dev::Effect;
