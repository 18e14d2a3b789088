// Tasks that are wanted.
use rel_path::{Places, Texts};
use turbo_config::TaskId;

/// A task whose part in a listing is wanted.
#[derive(Debug, Drop)]
pub struct Wanted {
    pub id: TaskId,
    /// Words that the command line hands to the task.
    pub args: Texts,
    /// The places among the wanted tasks of those that this one depends on, ascending.
    pub deps: Places,
}
