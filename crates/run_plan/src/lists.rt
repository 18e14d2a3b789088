// Small lists, which contracts see as the lists that they are.
ghost use Rattle.std.specs.Prelude.{◌≡◌, ◌∷◌, ◌++◌, [], OnOk, OnErr};
ghost use Rattle.run_plan.specs.Memory.{OnlyMemory};

use crate::PlanErr;
use rel_path::Pairs;
use std::alloc::Global;
use std::marker::Model;
use turbo_config::TaskDef;

/// Definitions of tasks, in any order.
#[derive(Debug, Drop)]
pub struct TaskDefs {
    items: Vec<TaskDef>,
}

impl Model for TaskDefs {
    ghost use Rattle.std.specs.Prelude.{List};
    ghost use Rattle.turbo_config.specs.declared.entry.TaskDef.{TaskDef};

    ghost Value = { List TaskDef };

    ghost view = { λ l. l.items.items };
}

impl TaskDefs {
    /// The empty list. It keeps the allocator and takes no memory.
    pub fn new(alloc: Global) -> TaskDefs
        ensures { result ≡ [] }
    {
        TaskDefs {
            items: Vec::new(alloc),
        }
    }

    /// Adds an item at the end. The list stays as it was where memory is wanting.
    pub fn push(&mut self, item: TaskDef) -> Result<(), PlanErr>
        ensures pushed { OnOk result (self.new ≡ self.old ++ item ∷ []) }
        ensures kept { OnErr result (self.new ≡ self.old) }
        ensures memory { OnlyMemory result }
    {
        self.items.push(item)?;
        Ok(())
    }

    pub fn as_slice(&self) -> &[TaskDef]
        ensures { result.now ≡ self.now }
    {
        self.items.as_slice()
    }
}

/// Lists of names with values.
#[derive(Debug, Drop)]
pub struct PairLists {
    items: Vec<Pairs>,
}

impl Model for PairLists {
    ghost use Rattle.std.specs.Prelude.{List, ℕ};

    ghost Value = { List (List (List ℕ × List ℕ)) };

    ghost view = { λ l. l.items.items };
}

impl PairLists {
    /// The empty list. It keeps the allocator and takes no memory.
    pub fn new(alloc: Global) -> PairLists
        ensures { result ≡ [] }
    {
        PairLists {
            items: Vec::new(alloc),
        }
    }

    /// Adds an item at the end. The list stays as it was where memory is wanting.
    pub fn push(&mut self, item: Pairs) -> Result<(), PlanErr>
        ensures pushed { OnOk result (self.new ≡ self.old ++ item ∷ []) }
        ensures kept { OnErr result (self.new ≡ self.old) }
        ensures memory { OnlyMemory result }
    {
        self.items.push(item)?;
        Ok(())
    }

    pub fn as_slice(&self) -> &[Pairs]
        ensures { result.now ≡ self.now }
    {
        self.items.as_slice()
    }
}
