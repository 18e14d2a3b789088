// How a task is marked.

/// How a task with a script is marked.
#[derive(Clone, Copy, Debug, Drop, PartialEq, Eq)]
pub enum Mark {
    /// The store at the opening holds what the task did before.
    Hit,
    /// It does not.
    Miss,
    /// Nothing was looked up, under `--force` or for a task with `"cache": false`.
    Bypass,
}
