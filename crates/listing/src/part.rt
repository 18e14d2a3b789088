// The parts of a listing, and the listing.
ghost use Rattle.std.specs.Prelude.{◌≡◌, ◌++◌, ◌∷◌, [], OnOk, OnErr};
ghost use Rattle.listing.specs.Memory.{OnlyMemory};

use crate::ListErr;
use globs::OutSet;
use rel_path::{Files, Pairs, Paths, Places, RelPath, Text, Texts};
use std::alloc::Global;
use std::marker::Model;

/// What the result of one task depends on, but for the bytes of its input files.
#[derive(Debug, Drop)]
pub struct Part {
    /// The name of the package.
    pub package: Text,
    /// The folder of the package.
    pub folder: RelPath,
    /// The name of the task.
    pub task: Text,
    /// No text where the task has no script, its script alone, or the script before it, its own and the one after it,
    /// with the empty text for one that does not exist.
    pub scripts: Texts,
    /// Words that the command line hands to the task.
    pub args: Texts,
    /// What the task declares as outputs, and what the other configured tasks of the package declare. Its folder is
    /// the package's.
    pub outs: OutSet,
    /// The environment variables that count, by name.
    pub env: Pairs,
    /// The paths of the input files, ascending.
    pub inputs: Paths,
    /// The installed packages that the package uses, by their location, with their lockfile entries, ascending.
    pub externals: Pairs,
    /// The places in the listing of the tasks that this one depends on, ascending.
    pub deps: Places,
}

/// Parts, in any order.
#[derive(Debug, Drop)]
pub struct Parts {
    items: Vec<Part>,
}

impl Model for Parts {
    ghost use Rattle.std.specs.Prelude.{List};
    ghost use Rattle.listing.specs.declared.part.Part.{Part};

    ghost Value = { List Part };

    ghost view = { λ l. l.items.items };
}

impl Parts {
    /// The empty list. It keeps the allocator and takes no memory.
    pub fn new(alloc: Global) -> Parts
        ensures { result ≡ [] }
    {
        Parts {
            items: Vec::new(alloc),
        }
    }

    /// Adds an item at the end. The list stays as it was where memory is wanting.
    pub fn push(&mut self, item: Part) -> Result<(), ListErr>
        ensures pushed { OnOk result (self.new ≡ self.old ++ item ∷ []) }
        ensures kept { OnErr result (self.new ≡ self.old) }
        ensures memory { OnlyMemory result }
    {
        self.items.push(item)?;
        Ok(())
    }

    pub fn as_slice(&self) -> &[Part]
        ensures { result.now ≡ self.now }
    {
        self.items.as_slice()
    }

    pub fn from_vec(items: Vec<Part>) -> Parts
        ensures { result ≡ items.items }
    {
        Parts { items }
    }

    pub fn into_vec(self) -> Vec<Part>
        ensures { result.items ≡ self }
    {
        self.items
    }
}

/// The input files with their bytes, ascending by path and each path once, and the parts in the order of the plan.
#[derive(Debug, Drop)]
pub struct Listing {
    pub files: Files,
    pub parts: Parts,
}
