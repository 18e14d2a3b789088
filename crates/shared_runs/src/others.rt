// What other runs put into a shared file.
ghost use Rattle.std.specs.Prelude.{◌≡◌, ◌∷◌, ◌++◌, [], OnOk, OnErr, IfOk};
ghost use Rattle.cache_api.specs.Keys.{new_pairs};
ghost use Rattle.shared_runs.specs.Others.{pairs_of};

use cache_api::{Artifact, Key, NewPair};
use rel_path::Bytes;
use std::alloc::{AllocError, Global};
use std::marker::Model;

/// A pair that another run puts: the text of its key, and its artifact.
#[derive(Debug, Drop)]
pub struct OtherPut {
    pub key: Bytes,
    pub artifact: Artifact,
}

/// What other runs put before a turn, in that order.
#[derive(Debug, Drop)]
pub struct OtherPuts {
    items: Vec<OtherPut>,
}

impl Model for OtherPuts {
    ghost use Rattle.std.specs.Prelude.{List};
    ghost use Rattle.shared_runs.specs.declared.others.OtherPut.{OtherPut};

    ghost Value = { List OtherPut };

    ghost view = { λ l. l.items.items };
}

impl OtherPuts {
    /// Nothing is put. It keeps the allocator and takes no memory.
    pub fn new(alloc: Global) -> OtherPuts
        ensures { result ≡ [] }
    {
        OtherPuts {
            items: Vec::new(alloc),
        }
    }

    /// Adds a pair behind the others. They stay as they were where memory is wanting.
    pub fn push(&mut self, item: OtherPut) -> Result<(), AllocError>
        ensures pushed { OnOk result (self.new ≡ self.old ++ item ∷ []) }
        ensures kept { OnErr result (self.new ≡ self.old) }
    {
        self.items.push(item)?;
        Ok(())
    }

    pub fn as_slice(&self) -> &[OtherPut]
        ensures { result.now ≡ self.now }
    {
        self.items.as_slice()
    }
}

/// The same pairs, as a cache takes them.
pub(crate) fn as_new_pairs(alloc: Global, puts: &[OtherPut]) -> Result<Vec<NewPair>, AllocError>
    ensures { IfOk result (λ pairs. new_pairs pairs.items ≡ pairs_of puts.now) }
{
    let mut pairs = Vec::new(alloc);
    for put in puts {
        let key = Key::new(put.key.as_slice());
        pairs.push(NewPair {
            key,
            artifact: &put.artifact,
        })?;
    }
    Ok(pairs)
}
