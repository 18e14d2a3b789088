// What is kept once.

/// The fewest bytes of a file that are kept as a content: fewer cost more than they save.
pub const MIN_CONTENT_BYTES: u64 = 64;

/// How many bytes the magic of a key text has.
pub const MAGIC_BYTES: u64 = 8;
