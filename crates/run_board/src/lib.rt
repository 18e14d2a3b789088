//! What a run keeps of its tasks, and the page that it prints of them: the board and its tables,
//! its moves by the answers of the scheduler, and the blocks and the summary that are put into a
//! sink. It knows no world and no cache; those who run the tasks move the board.
//!
//! For a plan of the one task `ui#build`, the state of the task behind each call, and what was
//! put:
//!
//! ```text
//! Board::new(alloc, plan)?                       Waiting
//! board.miss(plan, 0, fingerprint)               Missed
//! board.begin(plan, 0)                           Running
//! board.end(plan, ended, true, report)           Ended(0)
//! show_settled(alloc, plan, &mut board, out)?    ui:build: cache miss, executing 6cfeeb1ca2d72c4c
//!                                                ui:build: built ui
//! conclude(alloc, plan, &mut board, out)?        the summary
//! ```
//!
//! Tasks are named by their places in the plan, counted from 0; `shown` says how many were shown,
//! all before those that are left. A block comes as soon as its task and all before it are
//! settled.
//!
//! [`Board::fingerprint`] hashes the keys of the next tasks together with the one that is asked
//! for, and keeps the fingerprints alone. [`Board::hash_next`] hashes the next keys before one is
//! asked for, while commands run. The board stays the same but for these, whatever they answer.
//!
//! [`show_settled`] and [`conclude`] fail with `SinkFault` where the output failed, and with
//! `OutOfMemory`; [`Board::new`], [`Board::fingerprint`], [`Board::hash_next`] and the tables fail
//! with `OutOfMemory`.
//! The moves cannot fail.
#![tactic(auto)]

mod ahead;
mod board;
mod moves;
mod showing;
mod tables;

pub use board::Board;
pub use showing::{conclude, show_settled};
pub use tables::{Fingerprints, Flags, Logs};
