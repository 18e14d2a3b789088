// Where a stored artifact stands.
ghost use Rattle.std.specs.Prelude.{◌≡◌, ◌∷◌, ◌++◌, [], OnOk, OnErr};

use rel_path::{RelPath, Spans};
use std::alloc::{AllocError, Global};
use std::marker::Model;

/// Where a file of a stored artifact stands: the places that hold its bytes, one after another.
#[derive(Debug, Drop)]
pub struct HitFile {
    pub path: RelPath,
    pub spans: Spans,
}

/// Where files stand, in their order.
#[derive(Debug, Drop)]
pub struct HitFiles {
    items: Vec<HitFile>,
}

impl Model for HitFiles {
    ghost use Rattle.std.specs.Prelude.{List};
    ghost use Rattle.cache_api.specs.declared.hit.HitFile.{HitFile};

    ghost Value = { List HitFile };

    ghost view = { λ l. l.items.items };
}

impl HitFiles {
    /// The empty list. It keeps the allocator and takes no memory.
    pub fn new(alloc: Global) -> HitFiles
        ensures { result ≡ [] }
    {
        HitFiles {
            items: Vec::new(alloc),
        }
    }

    /// Adds a file at the end. The list stays as it was where memory is wanting.
    pub fn push(&mut self, item: HitFile) -> Result<(), AllocError>
        ensures pushed { OnOk result (self.new ≡ self.old ++ item ∷ []) }
        ensures kept { OnErr result (self.new ≡ self.old) }
    {
        self.items.push(item)?;
        Ok(())
    }

    pub fn as_slice(&self) -> &[HitFile]
        ensures { result.now ≡ self.now }
    {
        self.items.as_slice()
    }

    pub fn from_vec(items: Vec<HitFile>) -> HitFiles
        ensures { result ≡ items.items }
    {
        HitFiles { items }
    }

    pub fn into_vec(self) -> Vec<HitFile>
        ensures { result.items ≡ self }
    {
        self.items
    }
}

/// Where a stored artifact stands in a cache.
#[derive(Debug, Drop)]
pub struct Hit {
    /// Which store it stands in, where a cache is of several.
    pub side: u8,
    pub log: Spans,
    pub files: HitFiles,
}
