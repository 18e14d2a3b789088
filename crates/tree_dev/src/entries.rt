// The names in a folder.
ghost use Rattle.std.specs.Prelude.{◌≡◌, ◌∷◌, ◌++◌, [], IfOk, OnOk, OnErr};
ghost use Rattle.tree_dev.specs.Cause.{OnlyMemory};

use crate::DevErr;
use rel_path::Text;
use std::alloc::Global;
use std::marker::Model;

/// A name in a folder, of a file or of a folder. Entries are ordered by their names, a file before a
/// folder of the same name.
#[derive(Clone, Debug, Drop, PartialEq, Eq, PartialOrd, Ord)]
pub struct Entry {
    pub name: Text,
    pub folder: bool,
}

/// Names in a folder, in any order.
#[derive(Clone, Debug, Drop)]
pub struct Entries {
    items: Vec<Entry>,
}

impl Model for Entries {
    ghost use Rattle.std.specs.Prelude.{List};
    ghost use Rattle.tree_dev.specs.declared.entries.Entry.{Entry};

    ghost Value = { List Entry };

    ghost view = { λ l. l.items.items };
}

impl Entries {
    /// The empty list. It keeps the allocator and takes no memory.
    pub fn new(alloc: Global) -> Entries
        ensures { result ≡ [] }
    {
        Entries {
            items: Vec::new(alloc),
        }
    }

    /// Adds an item at the end. The list stays as it was where memory is wanting.
    pub fn push(&mut self, item: Entry) -> Result<(), DevErr>
        ensures pushed { OnOk result (self.new ≡ self.old ++ item ∷ []) }
        ensures kept { OnErr result (self.new ≡ self.old) }
        ensures memory { OnlyMemory result }
    {
        self.items.push(item)?;
        Ok(())
    }

    pub fn as_slice(&self) -> &[Entry]
        ensures { result.now ≡ self.now }
    {
        self.items.as_slice()
    }

    pub fn from_vec(items: Vec<Entry>) -> Entries
        ensures { result ≡ items.items }
    {
        Entries { items }
    }

    pub fn into_vec(self) -> Vec<Entry>
        ensures { result.items ≡ self }
    {
        self.items
    }

    pub fn copy(&self) -> Result<Entries, DevErr>
        ensures value { IfOk result (λ copy. copy ≡ self.now) }
        ensures memory { OnlyMemory result }
    {
        Ok(self.clone()?)
    }
}
