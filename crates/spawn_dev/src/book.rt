// A book, which says what the commands of a world in memory do.
ghost use Rattle.std.specs.Prelude.{◌≡◌, ◌∷◌, ◌++◌, [], IfOk, OnOk, OnErr};
ghost use Rattle.tree_dev.specs.Cause.{OnlyMemory};

use rel_path::{Bytes, RelPath, Text};
use std::alloc::Global;
use std::marker::Model;
use tree_dev::DevErr;

/// A piece of what a command writes.
#[derive(Clone, Debug, Drop)]
pub enum Piece {
    /// These bytes.
    Lit(Bytes),
    /// The bytes that the command sees at the path, and nothing where it sees none.
    File(RelPath),
    /// The value of the name in the environment that counts as input, and nothing where there is none.
    Env(Text),
    /// The words, with a newline between each two.
    Args,
    /// The scripts, with a newline between each two.
    Scripts,
}

/// Pieces, one behind another.
#[derive(Clone, Debug, Drop)]
pub struct Pieces {
    items: Vec<Piece>,
}

impl Model for Pieces {
    ghost use Rattle.std.specs.Prelude.{List};
    ghost use Rattle.spawn_dev.specs.declared.book.Piece.{Piece};

    ghost Value = { List Piece };

    ghost view = { λ l. l.items.items };
}

/// Files that a command writes, each with its bytes. Of two at one path the later one counts.
#[derive(Debug, Drop)]
pub struct Writes {
    items: Vec<(RelPath, Pieces)>,
}

impl Model for Writes {
    ghost use Rattle.std.specs.Prelude.{List, ℕ};
    ghost use Rattle.spawn_dev.specs.declared.book.Piece.{Piece};

    ghost Value = { List (List (List ℕ) × List Piece) };

    ghost view = { λ l. l.items.items };
}

/// What the command of a task does: its status, its log and the files that it writes. A file that its task does not
/// own counts as none of its files.
#[derive(Debug, Drop)]
pub struct Rule {
    pub package: Text,
    pub task: Text,
    pub status: u8,
    pub log: Pieces,
    pub files: Writes,
}

/// Rules. Of two rules for one task the first counts. A task without a rule has status 0, an empty log and no files.
#[derive(Debug, Drop)]
pub struct Book {
    items: Vec<Rule>,
}

impl Model for Book {
    ghost use Rattle.std.specs.Prelude.{List};
    ghost use Rattle.spawn_dev.specs.declared.book.Rule.{Rule};

    ghost Value = { List Rule };

    ghost view = { λ l. l.items.items };
}

impl Pieces {
    /// The empty list. It keeps the allocator and takes no memory.
    pub fn new(alloc: Global) -> Pieces
        ensures { result ≡ [] }
    {
        Pieces {
            items: Vec::new(alloc),
        }
    }

    /// Adds an item at the end. The list stays as it was where memory is wanting.
    pub fn push(&mut self, item: Piece) -> Result<(), DevErr>
        ensures pushed { OnOk result (self.new ≡ self.old ++ item ∷ []) }
        ensures kept { OnErr result (self.new ≡ self.old) }
        ensures memory { OnlyMemory result }
    {
        self.items.push(item)?;
        Ok(())
    }

    pub fn as_slice(&self) -> &[Piece]
        ensures { result.now ≡ self.now }
    {
        self.items.as_slice()
    }

    pub fn from_vec(items: Vec<Piece>) -> Pieces
        ensures { result ≡ items.items }
    {
        Pieces { items }
    }

    pub fn into_vec(self) -> Vec<Piece>
        ensures { result.items ≡ self }
    {
        self.items
    }

    pub fn copy(&self) -> Result<Pieces, DevErr>
        ensures value { IfOk result (λ copy. copy ≡ self.now) }
        ensures memory { OnlyMemory result }
    {
        Ok(self.clone()?)
    }
}

impl Writes {
    /// The empty list. It keeps the allocator and takes no memory.
    pub fn new(alloc: Global) -> Writes
        ensures { result ≡ [] }
    {
        Writes {
            items: Vec::new(alloc),
        }
    }

    /// Adds an item at the end. The list stays as it was where memory is wanting.
    pub fn push(&mut self, item: (RelPath, Pieces)) -> Result<(), DevErr>
        ensures pushed { OnOk result (self.new ≡ self.old ++ item ∷ []) }
        ensures kept { OnErr result (self.new ≡ self.old) }
        ensures memory { OnlyMemory result }
    {
        self.items.push(item)?;
        Ok(())
    }

    pub fn as_slice(&self) -> &[(RelPath, Pieces)]
        ensures { result.now ≡ self.now }
    {
        self.items.as_slice()
    }

    pub fn from_vec(items: Vec<(RelPath, Pieces)>) -> Writes
        ensures { result ≡ items.items }
    {
        Writes { items }
    }

    pub fn into_vec(self) -> Vec<(RelPath, Pieces)>
        ensures { result.items ≡ self }
    {
        self.items
    }

    pub fn copy(&self) -> Result<Writes, DevErr>
        ensures value { IfOk result (λ copy. copy ≡ self.now) }
        ensures memory { OnlyMemory result }
    {
        let mut items = Vec::new(*self.items.allocator());
        for write in self.as_slice() {
            items.push((write.0.copy()?, write.1.copy()?))?;
        }
        Ok(Writes { items })
    }
}

impl Book {
    /// The empty list. It keeps the allocator and takes no memory.
    pub fn new(alloc: Global) -> Book
        ensures { result ≡ [] }
    {
        Book {
            items: Vec::new(alloc),
        }
    }

    /// Adds an item at the end. The list stays as it was where memory is wanting.
    pub fn push(&mut self, item: Rule) -> Result<(), DevErr>
        ensures pushed { OnOk result (self.new ≡ self.old ++ item ∷ []) }
        ensures kept { OnErr result (self.new ≡ self.old) }
        ensures memory { OnlyMemory result }
    {
        self.items.push(item)?;
        Ok(())
    }

    pub fn as_slice(&self) -> &[Rule]
        ensures { result.now ≡ self.now }
    {
        self.items.as_slice()
    }

    pub fn from_vec(items: Vec<Rule>) -> Book
        ensures { result ≡ items.items }
    {
        Book { items }
    }

    pub fn into_vec(self) -> Vec<Rule>
        ensures { result.items ≡ self }
    {
        self.items
    }

    pub fn copy(&self) -> Result<Book, DevErr>
        ensures value { IfOk result (λ copy. copy ≡ self.now) }
        ensures memory { OnlyMemory result }
    {
        let mut items = Vec::new(*self.items.allocator());
        for rule in self.as_slice() {
            items.push(rule.copy()?)?;
        }
        Ok(Book { items })
    }
}

impl Rule {
    pub fn copy(&self) -> Result<Rule, DevErr>
        ensures value { IfOk result (λ copy. copy ≡ self.now) }
        ensures memory { OnlyMemory result }
    {
        Ok(Rule {
            package: self.package.copy()?,
            task: self.task.copy()?,
            status: self.status,
            log: self.log.copy()?,
            files: self.files.copy()?,
        })
    }
}
