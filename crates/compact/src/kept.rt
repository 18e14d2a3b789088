// What compaction kept.

/// How many pairs were kept, of how many.
#[derive(Clone, Copy, Debug, PartialEq, Eq)]
pub struct Kept {
    pub kept: u64,
    pub before: u64,
}
