// Ranges of bytes in a file.
ghost use Rattle.std.specs.Prelude.{◌≡◌, ◌∷◌, ◌++◌, [], IfOk, OnOk, OnErr};

use std::alloc::{AllocError, Global};
use std::marker::Model;

/// So many bytes, from an offset on.
#[derive(Clone, Copy, Debug, PartialEq, Eq)]
pub struct Span {
    pub at: u64,
    pub len: u64,
}

/// Ranges of bytes, in any order.
#[derive(Clone, Debug, Drop)]
pub struct Spans {
    items: Vec<Span>,
}

impl Model for Spans {
    ghost use Rattle.std.specs.Prelude.{List};
    ghost use Rattle.rel_path.specs.declared.span.Span.{Span};

    ghost Value = { List Span };

    ghost view = { λ l. l.items.items };
}

impl Spans {
    /// The empty list. It keeps the allocator and takes no memory.
    pub fn new(alloc: Global) -> Spans
        ensures { result ≡ [] }
    {
        Spans {
            items: Vec::new(alloc),
        }
    }

    /// Adds an item at the end. The list stays as it was where memory is wanting.
    pub fn push(&mut self, item: Span) -> Result<(), AllocError>
        ensures pushed { OnOk result (self.new ≡ self.old ++ item ∷ []) }
        ensures kept { OnErr result (self.new ≡ self.old) }
    {
        self.items.push(item)?;
        Ok(())
    }

    pub fn as_slice(&self) -> &[Span]
        ensures { result.now ≡ self.now }
    {
        self.items.as_slice()
    }

    pub fn from_vec(items: Vec<Span>) -> Spans
        ensures { result ≡ items.items }
    {
        Spans { items }
    }

    pub fn into_vec(self) -> Vec<Span>
        ensures { result.items ≡ self }
    {
        self.items
    }

    pub fn copy(&self) -> Result<Spans, AllocError>
        ensures value { IfOk result (λ copy. copy ≡ self.now) }
    {
        Ok(self.clone()?)
    }
}
