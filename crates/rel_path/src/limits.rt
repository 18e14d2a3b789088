// The limits of the program, each stated once.

/// The most bytes of a file that is read whole: 256 MiB.
pub const MAX_FILE_BYTES: u64 = 256 * 1024 * 1024;

/// The most bytes of all distinct input files together: 1 GiB.
pub const MAX_INPUT_BYTES: u64 = 1024 * 1024 * 1024;

/// The most bytes of a command's log: 64 MiB.
pub const MAX_LOG_BYTES: usize = 64 * 1024 * 1024;

/// The most bytes of the store's file: 1 TiB.
pub const MAX_STORE_BYTES: u64 = 1 << 40;

/// The most components of a walked path.
pub const MAX_COMPONENTS: usize = 64;

/// The most files of a repository.
pub const MAX_FILES: usize = 200_000;

/// The most alternatives of a glob.
pub const MAX_ALTERNATIVES: u128 = 256;

/// The most commands that may run at once.
pub const MAX_WIDTH: u32 = 1024;
