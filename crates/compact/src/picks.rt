// The numbers of pairs that are kept.
ghost use Rattle.std.specs.Prelude.{◌≡◌, ◌<◌, ◌++◌, ◌∷◌, [], length, OnOk};
ghost use Rattle.compact.specs.Picks.{is_enough};

use print_index::PrintIndex;
use std::alloc::{AllocError, Global};

/// Numbers of pairs, and by each place among them a digest of its pair's key.
#[derive(Drop)]
pub(crate) struct Picks {
    pub(crate) numbers: Vec<u64>,
    pub(crate) prints: PrintIndex,
}

impl Picks {
    /// Of no pairs.
    pub(crate) fn new(alloc: Global) -> Picks
        ensures numbers { result.numbers.items ≡ [] }
        ensures prints { result.prints.digests ≡ [] }
    {
        Picks {
            numbers: Vec::new(alloc),
            prints: PrintIndex::new(alloc),
        }
    }

    /// Whether so many are enough.
    pub(crate) fn is_enough(&self, keep: Option<u64>) -> bool
        ensures { result ≡ is_enough keep (length self.now.numbers.items) }
    {
        match keep {
            Some(most) => most <= self.numbers.len() as u64,
            None => false,
        }
    }

    /// Adds the number of a pair whose key has that digest.
    pub(crate) fn push(&mut self, number: u64, digest: [u8; 32]) -> Result<(), AllocError>
        ensures numbers { OnOk result
            (self.new.numbers.items ≡ self.old.numbers.items ++ number ∷ []) }
        ensures prints { OnOk result
            (self.new.prints.digests ≡ self.old.prints.digests ++ digest ∷ []) }
    {
        self.numbers.push(number)?;
        self.prints.push(digest)?;
        Ok(())
    }
}
