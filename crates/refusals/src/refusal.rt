// Why a command line is refused, and which device failed.
ghost use Rattle.std.specs.Prelude.{◌≡◌};
ghost use Rattle.refusals.specs.Refusals.{device_fault_line};

use cli_words::WordsErr;
use glob_syntax::GlobErr;
use lock_entries::LockErr;
use manifest::ManifestErr;
use rel_path::{RelPath, Text};
use turbo_config::{ConfigErr, TaskId, TaskIds};

/// Why a command line is refused. Nothing was started then, and nothing changed; but pruning that is refused for a file
/// that is too large leaves those that it wrote in front of it.
#[derive(Debug, Drop)]
pub enum Refusal {
    /// The words are no order.
    Words(WordsErr),
    /// The root folder has no `package.json`.
    NoManifest,
    /// The file is no manifest.
    Manifest {
        path: RelPath,
        fault: ManifestErr,
    },
    /// `package-lock.json` is no lockfile.
    Lock(LockErr),
    /// The entry lies too deep.
    TooDeep {
        path: RelPath,
    },
    /// The tree has more files than a run takes.
    TooMany,
    /// A package lies inside another one.
    Inside {
        outer: RelPath,
        inner: RelPath,
    },
    /// Two packages have one name.
    NameTwice {
        name: Text,
        first: RelPath,
        second: RelPath,
    },
    /// The file is no turbo.json.
    Config {
        path: RelPath,
        fault: ConfigErr,
    },
    /// The text at the pointer (RFC 6901) of the file is no glob.
    Glob {
        path: RelPath,
        pointer: Text,
        fault: GlobErr,
    },
    /// The word is no filter.
    Filter {
        word: Text,
    },
    /// The filter names no package.
    NoPackage {
        name: Text,
    },
    /// No package and no configuration has a task of that name.
    NoSuchTask {
        name: Text,
    },
    /// The text in `dependsOn` of the task names no task.
    NoSuchDependency {
        task: TaskId,
        text: Text,
    },
    /// Each task depends on the next one, and the last on the first.
    Cycle {
        tasks: TaskIds,
    },
    /// A task depends on this one, which does not end.
    Persistent {
        task: TaskId,
    },
    /// The lockfile has no entry for a dependency of the location.
    LockMissing {
        from: Text,
        name: Text,
    },
    /// The file has more bytes than a run takes.
    TooLarge {
        path: RelPath,
    },
    /// The inputs together have more bytes than a run takes.
    TooMuch {
        bytes: u64,
    },
    /// The file is no store.
    NotAStore {
        file: StoreFile,
    },
    /// The frame that begins at this byte of the store is broken. Bytes count from 0.
    Damaged {
        file: StoreFile,
        at: u64,
    },
    /// The folder for a pruned tree is taken.
    OutTaken {
        path: RelPath,
    },
    /// What is to be kept does not fit into the other store: so many bytes are needed, and so many
    /// are free.
    NoRoom {
        need: u64,
        free: u64,
    },
    /// The store has the last generation that there is.
    LastGeneration,
}

/// The file of a store.
#[derive(Clone, Copy, Debug, PartialEq, Eq)]
pub enum StoreFile {
    /// The store of the repository.
    Store,
    /// The one into which it is compacted.
    Spare,
    /// The second one, which is called remote.
    Second,
    /// The one that several runs use.
    Shared,
}

/// The device that failed.
#[derive(Clone, Copy, Debug, PartialEq, Eq)]
pub enum DeviceFault {
    /// The tree of files.
    Tree,
    /// The store of results.
    Store,
    /// What starts commands and waits for them.
    Start,
}

/// The line that says which device failed. It takes no memory.
pub fn device_fault_text(fault: DeviceFault) -> &'static str
    ensures { result.now ≡ device_fault_line fault }
{
    match fault {
        DeviceFault::Tree => "turbo: a file could not be read or written\n",
        DeviceFault::Store => "turbo: the store failed\n",
        DeviceFault::Start => "turbo: a command could not be started or waited for\n",
    }
}
