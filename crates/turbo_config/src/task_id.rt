// Tasks by package and name.
ghost use Rattle.std.specs.Prelude.{◌≡◌, ◌∷◌, ◌++◌, [], OnOk, OnErr, IsOkUnless};

use crate::error::ConfigErr;
use rel_path::Text;
use std::alloc::Global;
use std::marker::Model;

/// A task of a package, ordered by package and then by task.
#[derive(Clone, Debug, Drop, PartialEq, Eq, PartialOrd, Ord)]
pub struct TaskId {
    pub package: Text,
    pub task: Text,
}

/// Tasks, in any order, which contracts see as the list that they are.
#[derive(Clone, Debug, Drop)]
pub struct TaskIds {
    items: Vec<TaskId>,
}

impl Model for TaskIds {
    ghost use Rattle.std.specs.Prelude.{List};
    ghost use Rattle.turbo_config.specs.declared.task_id.TaskId.{TaskId};

    ghost Value = { List TaskId };

    ghost view = { λ l. l.items.items };
}

impl TaskIds {
    /// The empty list. It keeps the allocator and takes no memory.
    pub fn new(alloc: Global) -> TaskIds
        ensures { result ≡ [] }
    {
        TaskIds {
            items: Vec::new(alloc),
        }
    }

    /// Adds an item at the end. The list stays as it was where memory is wanting.
    pub fn push(&mut self, item: TaskId) -> Result<(), ConfigErr>
        ensures pushed { OnOk result (self.new ≡ self.old ++ item ∷ []) }
        ensures kept { OnErr result (self.new ≡ self.old) }
        ensures memory { IsOkUnless result ConfigErr.OutOfMemory }
    {
        self.items.push(item)?;
        Ok(())
    }

    pub fn as_slice(&self) -> &[TaskId]
        ensures { result.now ≡ self.now }
    {
        self.items.as_slice()
    }
}
