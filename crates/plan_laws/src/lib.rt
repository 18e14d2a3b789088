//! Files, words and environment mean one plan or one refusal. At most one answer fits them: where
//! there is a plan nothing is refused, and where something is refused there is no plan, and no
//! other refusal.
//!
//! With one package `a`, whose task `build` alone is configured, there is one answer to each of
//! these orders:
//!
//! ```text
//! run build    a plan of the task a#build
//! run test     the refusal NoSuchTask { name: test }
//! ```
//!
//! [`repository_law`] says it of files and the repository that they make, [`plan_law`] of an order
//! to run over a repository that was read, and [`order_law`] of both together.
//!
//! Each law is the contract of a function that does nothing and has no errors. Failures of devices
//! and want of memory are no answers in this sense.
#![tactic(auto)]

mod laws;

pub use laws::{order_law, plan_law, repository_law};
