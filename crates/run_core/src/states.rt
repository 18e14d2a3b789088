// What a scheduler answers and what it knows of each task.

/// What a failure stops: an end with a status other than 0 (Turborepo's `--continue`).
#[derive(Clone, Copy, Debug, PartialEq, Eq)]
pub enum Mode {
    /// After a failure nothing is looked up or started.
    Never,
    /// After a failure the tasks above it are left.
    DependenciesSuccessful,
    /// A failure stops nothing.
    Always,
}

/// What is to be done next. A task is named by its place.
#[derive(Clone, Copy, Debug, PartialEq, Eq)]
pub enum Next {
    /// The task is to be looked up in the cache.
    Lookup(u32),
    /// The task's command is to be started.
    Start(u32),
    /// Any running command is to be waited for.
    WaitFirst,
    /// Nothing runs, and nothing is left to do.
    Finished,
}

/// How far a task has come.
#[derive(Clone, Copy, Debug, PartialEq, Eq)]
pub enum State {
    /// It was not looked up yet.
    Waiting,
    /// It was looked up, and its command is to be started.
    Missed,
    Running,
    /// It was found, or has no command.
    Passed,
    /// Its command ended with this status.
    Ended(u8),
    /// A task that it depends on, directly or not, has failed.
    Left,
}

/// A step of a run: the start of a command, or its end with a status.
#[derive(Clone, Copy, Debug, PartialEq, Eq)]
pub enum Step {
    Start(u32),
    End(u32, u8),
}
