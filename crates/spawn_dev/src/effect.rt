// What commands do.
use crate::Command;
use rel_path::{Bytes, Files};

/// What a command does: the bytes that it prints, its exit status, and the files that it writes at paths that its task
/// owns, ascending by path.
#[derive(Debug, Drop)]
pub struct Effect {
    pub log: Bytes,
    pub status: u8,
    pub files: Files,
}

/// A command that runs, and what it will do at its end.
#[derive(Debug, Drop)]
pub struct Running {
    pub command: Command,
    pub effect: Effect,
}
