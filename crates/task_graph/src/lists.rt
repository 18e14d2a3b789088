// A small list of lists of places.
ghost use Rattle.std.specs.Prelude.{◌≡◌, ◌∷◌, ◌++◌, [], OnOk, OnErr};
ghost use Rattle.task_graph.specs.Memory.{OnlyMemory};

use crate::GraphErr;
use rel_path::Places;
use std::alloc::Global;
use std::marker::Model;

/// Lists of places, which contracts see as the list that they are.
#[derive(Clone, Debug, Drop)]
pub struct PlaceLists {
    items: Vec<Places>,
}

impl Model for PlaceLists {
    ghost use Rattle.std.specs.Prelude.{List, ℕ};

    ghost Value = { List (List ℕ) };

    ghost view = { λ l. l.items.items };
}

impl PlaceLists {
    /// The empty list. It keeps the allocator and takes no memory.
    pub fn new(alloc: Global) -> PlaceLists
        ensures { result ≡ [] }
    {
        PlaceLists {
            items: Vec::new(alloc),
        }
    }

    /// Adds an item at the end. The list stays as it was where memory is wanting.
    pub fn push(&mut self, item: Places) -> Result<(), GraphErr>
        ensures pushed { OnOk result (self.new ≡ self.old ++ item ∷ []) }
        ensures kept { OnErr result (self.new ≡ self.old) }
        ensures memory { OnlyMemory result }
    {
        self.items.push(item)?;
        Ok(())
    }

    pub fn as_slice(&self) -> &[Places]
        ensures { result.now ≡ self.now }
    {
        self.items.as_slice()
    }

    pub fn from_vec(items: Vec<Places>) -> PlaceLists
        ensures { result ≡ items.items }
    {
        PlaceLists { items }
    }

    pub fn into_vec(self) -> Vec<Places>
        ensures { result.items ≡ self }
    {
        self.items
    }
}
