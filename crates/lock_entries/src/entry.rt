// What the lockfile says of one location.
ghost use Rattle.std.specs.Prelude.{◌≡◌, ◌∷◌, ◌++◌, [], OnOk, OnErr};

use rel_path::Text;
use std::alloc::{AllocError, Global};
use std::marker::Model;

/// A name that an entry depends on. It is soft where nothing needs to be found for it: an optional dependency, or a
/// peer that is no dependency besides.
#[derive(Debug, Drop)]
pub struct Name {
    pub text: Text,
    pub soft: bool,
}

/// Names, in any order, which contracts see as a list.
#[derive(Debug, Drop)]
pub struct Names {
    items: Vec<Name>,
}

impl Model for Names {
    ghost use Rattle.std.specs.Prelude.{List};
    ghost use Rattle.lock_entries.specs.declared.entry.Name.{Name};

    ghost Value = { List Name };

    ghost view = { λ l. l.items.items };
}

impl Names {
    /// The empty list. It keeps the allocator and takes no memory.
    pub fn new(alloc: Global) -> Names
        ensures { result ≡ [] }
    {
        Names {
            items: Vec::new(alloc),
        }
    }

    /// Adds a name at the end. The list stays as it was where memory is wanting.
    pub fn push(&mut self, name: Name) -> Result<(), AllocError>
        ensures pushed { OnOk result (self.new ≡ self.old ++ name ∷ []) }
        ensures kept { OnErr result (self.new ≡ self.old) }
    {
        self.items.push(name)?;
        Ok(())
    }

    pub fn as_slice(&self) -> &[Name]
        ensures { result.now ≡ self.now }
    {
        self.items.as_slice()
    }
}

/// What a lockfile says of a location. `link` is the folder that a link leads to.
#[derive(Debug, Drop)]
pub struct Entry {
    pub location: Text,
    pub link: Option<Text>,
    pub names: Names,
}
