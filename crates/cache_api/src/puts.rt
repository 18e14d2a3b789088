// Pairs that are to be put, and what came of them.
ghost use Rattle.std.specs.Prelude.{◌≡◌, ◌∷◌, ◌++◌, [], OnOk, OnErr};

use crate::{Artifact, Key};
use std::alloc::{AllocError, Global};
use std::marker::Model;

/// A pair that is to be put: a key, and the artifact whose text is its value.
#[derive(Clone, Copy)]
pub struct NewPair<'a> {
    pub key: Key<'a>,
    pub artifact: &'a Artifact,
}

/// Whether a pair was put.
#[derive(Clone, Copy, Debug, PartialEq, Eq)]
pub enum Put {
    Stored,
    /// There was no room for it.
    Full,
}

/// What came of pairs, in their order.
#[derive(Debug, Drop)]
pub struct Puts {
    items: Vec<Put>,
}

impl Model for Puts {
    ghost use Rattle.std.specs.Prelude.{List};
    ghost use Rattle.cache_api.specs.declared.puts.Put.{Put};

    ghost Value = { List Put };

    ghost view = { λ l. l.items.items };
}

impl Puts {
    /// The empty list. It keeps the allocator and takes no memory.
    pub fn new(alloc: Global) -> Puts
        ensures { result ≡ [] }
    {
        Puts {
            items: Vec::new(alloc),
        }
    }

    /// Adds one at the end. The list stays as it was where memory is wanting.
    pub fn push(&mut self, item: Put) -> Result<(), AllocError>
        ensures pushed { OnOk result (self.new ≡ self.old ++ item ∷ []) }
        ensures kept { OnErr result (self.new ≡ self.old) }
    {
        self.items.push(item)?;
        Ok(())
    }

    pub fn as_slice(&self) -> &[Put]
        ensures { result.now ≡ self.now }
    {
        self.items.as_slice()
    }

    pub fn from_vec(items: Vec<Put>) -> Puts
        ensures { result ≡ items.items }
    {
        Puts { items }
    }

    pub fn into_vec(self) -> Vec<Put>
        ensures { result.items ≡ self }
    {
        self.items
    }
}
