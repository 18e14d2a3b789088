// The index of digests.
ghost use Rattle.std.specs.Prelude.{◌≡◌, ◌+◌, ◌<◌, ◌≤◌, ◌^◌, [], ◌∷◌, ◌++◌, List, ℕ, length, Some, IfSome, IfNone, IsOk, OnOk, OnErr, slice_get};
ghost use Rattle.print_index.specs.Digests.{last_of, before_in, IsLastBelow, NoneBelow};
ghost use Rattle.print_index.specs.Fields.{link_to};

use indexmap::IndexMap;
use std::alloc::{AllocError, Global};
use std::marker::Model;

/// Digests of 32 bytes, each with its number, and the numbers of each digest.
///
/// Contracts see the digests by number, and the room: how many can be pushed with no memory taken.
#[derive(Drop)]
pub struct PrintIndex {
    // The last number of each digest. The digests stand in the order of their first numbers.
    last: IndexMap<[u8; 32], u64>,
    // At each number, 1 more than the number before it with its digest, or 0.
    earlier: Vec<u64>,
}

impl Model for PrintIndex {
    ghost use Rattle.print_index.specs.Index.{Index};

    ghost Value = { Index };

    ghost use Rattle.print_index.specs.Inside.{index_in, IsIndexed};

    ghost view = { index_in };

    ghost invariant = { IsIndexed };
}

impl PrintIndex {
    /// The index of no digests. It keeps the allocator and takes no memory.
    pub fn new(alloc: Global) -> PrintIndex
        ensures { result.digests ≡ [] }
    {
        PrintIndex {
            last: IndexMap::new(alloc),
            earlier: Vec::new(alloc),
        }
    }

    /// How many digests there are, which is the number of the next one.
    pub fn len(&self) -> u64
        ensures { result ≡ length self.now.digests }
    {
        self.earlier.len() as u64
    }

    /// Makes room for as many more digests, so that pushing them cannot fail.
    ///
    /// Fails for want of memory. The digests and the room that there was stay, whatever the answer.
    pub fn reserve(&mut self, more: usize) -> Result<(), AllocError>
        ensures digests { self.new.digests ≡ self.old.digests }
        ensures room { OnOk result (more ≤ self.new.room) }
        ensures keeps_room { self.old.room ≤ self.new.room }
        ensures succeeds { more ≤ self.old.room → IsOk result }
    {
        self.last.reserve(more)?;
        self.earlier.reserve(more)?;
        Ok(())
    }

    /// Gives the digest the next number.
    ///
    /// Fails for want of memory, where there is no room, and the digests stay then.
    pub fn push(&mut self, digest: [u8; 32]) -> Result<(), AllocError>
        ensures pushed { OnOk result (self.new.digests ≡ self.old.digests ++ digest ∷ []) }
        ensures err { OnErr result (self.new.digests ≡ self.old.digests) }
        ensures room { self.old.room ≤ self.new.room + 1 }
        ensures succeeds { 0 < self.old.room → IsOk result }
    {
        self.earlier.reserve(1)?;
        let number = self.earlier.len() as u64;
        let before = self.last.insert(digest, number)?;
        self.earlier.push_reserved(link_to(before));
        Ok(())
    }

    /// The greatest number whose digest it is.
    pub fn last(&self, digest: &[u8; 32]) -> Option<u64>
        ensures last { result ≡ last_of self.now.digests digest.now }
        ensures greatest { IfSome result
            (IsLastBelow self.now.digests (length self.now.digests) digest.now) }
        ensures none { IfNone result
            (NoneBelow self.now.digests (length self.now.digests) digest.now) }
    {
        self.last.get(digest).copied()
    }

    /// The greatest number below that number with its digest.
    pub fn before(&self, number: u64) -> Option<u64>
        requires { number < length self.now.digests }
        ensures before { result ≡ before_in self.now.digests number }
        ensures greatest { (digest : List ℕ) → slice_get self.now.digests number ≡ Some digest
            → IfSome result (IsLastBelow self.now.digests number digest) }
        ensures none { (digest : List ℕ) → slice_get self.now.digests number ≡ Some digest
            → IfNone result (NoneBelow self.now.digests number digest) }
    {
        self.earlier[number as usize].checked_sub(1)
    }
}

// What is kept of the number before: 1 more, or 0 where there is none.
fn link_to(before: Option<u64>) -> u64
    requires { IfSome before (λ number. number + 1 < 2 ^ 64) }
    ensures { result ≡ link_to before }
{
    match before {
        Some(number) => number + 1,
        None => 0,
    }
}
