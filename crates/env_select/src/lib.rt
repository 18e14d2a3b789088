//! Which variables of the environment count as input of a task, and which are handed on to its command, by lists of
//! names with `*` and `!` (`env`, `globalEnv`, `passThroughEnv`, `globalPassThroughEnv` of Turborepo).
//!
//! A name is the list of its bytes. `specs/` says what a list selects, as a relation (`Selects`) and as a test
//! (`selects`), and what pairs are chosen by a test of names (`IsChosen`).
//!
//! ```text
//! ["API_*", "!API_TOKEN", "MODE"]      API_URL and MODE, not API_TOKEN, not MODEL
//! ```
//!
//! `*` takes any run of bytes; the order of the texts counts nothing. [`hashed`] chooses the pairs that
//! count, [`given`] those that are handed on besides. Want of memory is the only error.
#![tactic(auto)]

mod choose;
mod error;
mod list;
mod pattern;
mod patterns;

pub use choose::{EnvMode, choice_law, given, hashed};
pub use error::EnvErr;
pub use list::EnvList;
