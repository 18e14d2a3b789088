//! The words of the command line as an order: what to run and how, what to do with the store, or help.
//!
//! `specs/` defines the options of each command (`Options`) with their values (`Values`), how words are cut into names,
//! options and extra words (`Grammar`), and which order or refusal a list of words is (`Orders`).
//!
//! ```text
//! run build test --filter=web --concurrency 4 -- --watch    an order to run two tasks
//! build                                                      the same as `run build`
//! prune web --docker                                         an order to prune
//! run --filter=web                                           `NoTask`
//! run build --concurrency=0                                  `BadValue`, at the word 2
//! run build --concurency=4                                   `Unknown`, at the word 2
//! ```
//!
//! Words are counted from 0. An option stands once, but for `--filter`; else it is `Twice`.
#![tactic(auto)]

mod access;
mod commands;
mod cuts;
mod error;
mod faults;
mod items;
mod laws;
mod options;
mod order;
mod uses;
mod values;

pub use error::WordsErr;
pub use laws::width_law;
pub use order::{Access, EnvWord, KeepOn, LogWord, Order, RunOrder};
