// A book given as data.
use rel_path::{Bytes, RelPath, Text};

/// A piece of what a command writes.
#[derive(Debug, Drop)]
pub enum Piece {
    /// These bytes.
    Lit(Bytes),
    /// The bytes that the command sees at the path, and nothing where it sees none.
    File(RelPath),
}

/// A file that a command writes, unless its task does not own the path.
#[derive(Debug, Drop)]
pub struct Write {
    pub path: RelPath,
    pub bytes: Vec<Piece>,
}

/// What the command of a task does. Of two rules for one task the first counts.
#[derive(Debug, Drop)]
pub struct Rule {
    pub package: Text,
    pub task: Text,
    pub status: u8,
    pub log: Vec<Piece>,
    pub files: Vec<Write>,
}
