// Why there is no task graph, or no plan of it.
ghost use Rattle.std.specs.Prelude.{◌≡◌};
ghost use Rattle.task_graph.specs.declared.error.GraphErr.TheVariants.{OutOfMemory};

use rel_path::Text;
use std::alloc::{AllocError, AllocFailed};
use thiserror::Error;
use turbo_config::{ConfigErr, TaskId, TaskIds};

/// Why there is no task graph, or no plan of it.
#[derive(Debug, Drop, Error)]
pub enum GraphErr {
    /// The word names no task of the repository.
    #[error("no such task")]
    NoSuchTask { name: Text },
    /// The text of the task's `dependsOn` stands for no task.
    #[error("no such dependency")]
    NoSuchDependency { task: TaskId, text: Text },
    /// The tasks depend on one another, each on the next one and the last on the first.
    #[error("tasks depend on one another")]
    Cycle { tasks: TaskIds },
    #[error("out of memory")]
    OutOfMemory,
}

impl From<AllocError> for GraphErr {
    ghost from_gives = { λ _ e. e ≡ OutOfMemory };

    fn from(_error: AllocError) -> GraphErr {
        GraphErr::OutOfMemory
    }
}

impl<T: Drop> From<AllocFailed<T>> for GraphErr {
    ghost from_gives = { λ _ e. e ≡ OutOfMemory };

    fn from(_error: AllocFailed<T>) -> GraphErr {
        GraphErr::OutOfMemory
    }
}

// For calls whose only error is want of memory.
impl From<ConfigErr> for GraphErr {
    ghost from_gives = { λ _ e. e ≡ OutOfMemory };

    fn from(_error: ConfigErr) -> GraphErr {
        GraphErr::OutOfMemory
    }
}
