// Small lists, which contracts see as the lists that they are.
ghost use Rattle.std.specs.Prelude.{◌≡◌, ◌∷◌, ◌++◌, [], ℕ, List, IfOk, OnOk, OnErr};

use crate::held::Held;
use crate::{Bytes, RelPath, Text};
use std::alloc::{AllocError, Global};
use std::marker::Model;

/// Texts, in any order.
#[derive(Clone, Debug, Drop)]
pub struct Texts {
    items: Vec<Text>,
}

impl Model for Texts {
    ghost use Rattle.std.specs.Prelude.{List, ℕ};

    ghost Value = { List (List ℕ) };

    ghost view = { λ l. l.items.items };
}

impl Texts {
    /// The empty list. It keeps the allocator and takes no memory.
    pub fn new(alloc: Global) -> Texts
        ensures { result ≡ [] }
    {
        Texts {
            items: Vec::new(alloc),
        }
    }

    /// Adds an item at the end. The list stays as it was where memory is wanting.
    pub fn push(&mut self, item: Text) -> Result<(), AllocError>
        ensures pushed { OnOk result (self.new ≡ self.old ++ item ∷ []) }
        ensures kept { OnErr result (self.new ≡ self.old) }
    {
        self.items.push(item)?;
        Ok(())
    }

    pub fn as_slice(&self) -> &[Text]
        ensures { result.now ≡ self.now }
    {
        self.items.as_slice()
    }

    pub fn from_vec(items: Vec<Text>) -> Texts
        ensures { result ≡ items.items }
    {
        Texts { items }
    }

    pub fn into_vec(self) -> Vec<Text>
        ensures { result.items ≡ self }
    {
        self.items
    }

    pub fn copy(&self) -> Result<Texts, AllocError>
        ensures value { IfOk result (λ copy. copy ≡ self.now) }
    {
        Ok(self.clone()?)
    }
}

/// Names with values.
#[derive(Clone, Debug, Drop)]
pub struct Pairs {
    items: Held<(Text, Text)>,
}

impl Model for Pairs {
    ghost use Rattle.std.specs.Prelude.{List, ℕ};

    ghost Value = { List (List ℕ × List ℕ) };

    ghost use Rattle.rel_path.specs.Held.{items_of};

    ghost view = { λ l. items_of l.items };
}

impl Pairs {
    /// The empty list. It keeps the allocator and takes no memory.
    pub fn new(alloc: Global) -> Pairs
        ensures { result ≡ [] }
    {
        Pairs {
            items: Held::Own(Vec::new(alloc)),
        }
    }

    /// Adds an item at the end. The list stays as it was where memory is wanting.
    pub fn push(&mut self, item: (Text, Text)) -> Result<(), AllocError>
        ensures pushed { OnOk result (self.new ≡ self.old ++ item ∷ []) }
        ensures kept { OnErr result (self.new ≡ self.old) }
    {
        match &mut self.items {
            Held::Own(items) => items.push(item)?,
            Held::Shared(items) => {
                let mut own = copied_pairs(&**items)?;
                own.push(item)?;
                self.items.set(own);
            }
        }
        Ok(())
    }

    pub fn as_slice(&self) -> &[(Text, Text)]
        ensures { result.now ≡ self.now }
    {
        self.items.as_slice()
    }

    pub fn from_vec(items: Vec<(Text, Text)>) -> Pairs
        ensures { result ≡ items.items }
    {
        Pairs {
            items: Held::Own(items),
        }
    }

    /// The items themselves, copied where copies of the list share them.
    pub fn into_vec(self) -> Result<Vec<(Text, Text)>, AllocError>
        ensures { IfOk result (λ items. items.items ≡ self) }
    {
        match self.items.unshared() {
            Ok(items) => Ok(items),
            Err(items) => copied_pairs(&*items),
        }
    }

    /// The same list, whose copies from now on share its items.
    pub fn share(self, alloc: Global) -> Result<Pairs, AllocError>
        ensures { IfOk result (λ shared. shared ≡ self) }
    {
        let items = self.items.share(alloc)?;
        Ok(Pairs { items })
    }

    pub fn copy(&self) -> Result<Pairs, AllocError>
        ensures value { IfOk result (λ copy. copy ≡ self.now) }
    {
        Ok(self.clone()?)
    }
}

fn copied_pairs(items: &Vec<(Text, Text)>) -> Result<Vec<(Text, Text)>, AllocError>
    ensures { IfOk result (λ copy. copy.items ≡ items.now.items) }
{
    Ok(items.clone()?)
}

/// Paths, in any order.
#[derive(Clone, Debug, Drop)]
pub struct Paths {
    items: Vec<RelPath>,
}

impl Model for Paths {
    ghost use Rattle.std.specs.Prelude.{List, ℕ};

    ghost Value = { List (List (List ℕ)) };

    ghost view = { λ l. l.items.items };
}

impl Paths {
    /// The empty list. It keeps the allocator and takes no memory.
    pub fn new(alloc: Global) -> Paths
        ensures { result ≡ [] }
    {
        Paths {
            items: Vec::new(alloc),
        }
    }

    /// Adds an item at the end. The list stays as it was where memory is wanting.
    pub fn push(&mut self, item: RelPath) -> Result<(), AllocError>
        ensures pushed { OnOk result (self.new ≡ self.old ++ item ∷ []) }
        ensures kept { OnErr result (self.new ≡ self.old) }
    {
        self.items.push(item)?;
        Ok(())
    }

    pub fn as_slice(&self) -> &[RelPath]
        ensures { result.now ≡ self.now }
    {
        self.items.as_slice()
    }

    pub fn from_vec(items: Vec<RelPath>) -> Paths
        ensures { result ≡ items.items }
    {
        Paths { items }
    }

    pub fn into_vec(self) -> Vec<RelPath>
        ensures { result.items ≡ self }
    {
        self.items
    }

    pub fn copy(&self) -> Result<Paths, AllocError>
        ensures value { IfOk result (λ copy. copy ≡ self.now) }
    {
        Ok(self.clone()?)
    }
}

/// Paths with the bytes that stand there.
#[derive(Clone, Debug, Drop)]
pub struct Files {
    items: Vec<(RelPath, Bytes)>,
}

impl Model for Files {
    ghost use Rattle.std.specs.Prelude.{List, ℕ};

    ghost Value = { List (List (List ℕ) × List ℕ) };

    ghost view = { λ l. l.items.items };
}

impl Files {
    /// The empty list. It keeps the allocator and takes no memory.
    pub fn new(alloc: Global) -> Files
        ensures { result ≡ [] }
    {
        Files {
            items: Vec::new(alloc),
        }
    }

    /// Adds an item at the end. The list stays as it was where memory is wanting.
    pub fn push(&mut self, item: (RelPath, Bytes)) -> Result<(), AllocError>
        ensures pushed { OnOk result (self.new ≡ self.old ++ item ∷ []) }
        ensures kept { OnErr result (self.new ≡ self.old) }
    {
        self.items.push(item)?;
        Ok(())
    }

    pub fn as_slice(&self) -> &[(RelPath, Bytes)]
        ensures { result.now ≡ self.now }
    {
        self.items.as_slice()
    }

    pub fn from_vec(items: Vec<(RelPath, Bytes)>) -> Files
        ensures { result ≡ items.items }
    {
        Files { items }
    }

    pub fn into_vec(self) -> Vec<(RelPath, Bytes)>
        ensures { result.items ≡ self }
    {
        self.items
    }

    pub fn copy(&self) -> Result<Files, AllocError>
        ensures value { IfOk result (λ copy. copy ≡ self.now) }
    {
        Ok(self.clone()?)
    }
}

/// Numbers of members of another list.
#[derive(Clone, Debug, Drop)]
pub struct Places {
    items: Vec<u32>,
}

impl Model for Places {
    ghost use Rattle.std.specs.Prelude.{List, ℕ};

    ghost Value = { List ℕ };

    ghost view = { λ l. l.items.items };
}

impl Places {
    /// The empty list. It keeps the allocator and takes no memory.
    pub fn new(alloc: Global) -> Places
        ensures { result ≡ [] }
    {
        Places {
            items: Vec::new(alloc),
        }
    }

    /// Adds an item at the end. The list stays as it was where memory is wanting.
    pub fn push(&mut self, item: u32) -> Result<(), AllocError>
        ensures pushed { OnOk result (self.new ≡ self.old ++ item ∷ []) }
        ensures kept { OnErr result (self.new ≡ self.old) }
    {
        self.items.push(item)?;
        Ok(())
    }

    pub fn as_slice(&self) -> &[u32]
        ensures { result.now ≡ self.now }
    {
        self.items.as_slice()
    }

    pub fn from_vec(items: Vec<u32>) -> Places
        ensures { result ≡ items.items }
    {
        Places { items }
    }

    pub fn into_vec(self) -> Vec<u32>
        ensures { result.items ≡ self }
    {
        self.items
    }

    pub fn copy(&self) -> Result<Places, AllocError>
        ensures value { IfOk result (λ copy. copy ≡ self.now) }
    {
        Ok(self.clone()?)
    }
}
