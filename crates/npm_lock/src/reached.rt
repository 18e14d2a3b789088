// What some starts reach, to go on from.
ghost use Rattle.std.specs.Prelude.{◌≡◌, [], replicate, false, IfOk};
ghost use Rattle.npm_lock.specs.Externals.{IsReachAmong};

use crate::start::{Lack, Start};
use lock_entries::Entry;
use std::alloc::{AllocError, Global};
use std::marker::Model;

/// What some starts reach in a lockfile, for questions that add further starts.
#[derive(Drop)]
pub struct Reached {
    pub(crate) starts: Vec<Start>,
    // The flags of the locations.
    pub(crate) set: Vec<bool>,
    // The least of what had to be found and was not.
    pub(crate) least: Option<Lack>,
}

impl Model for Reached {
    ghost use Rattle.npm_lock.specs.Externals.{Reach};

    ghost Value = { Reach };

    ghost view = { λ r. record { starts = r.starts.items; set = r.set.items; least = r.least } };
}

fn no_flags(alloc: Global, size: usize) -> Result<Vec<bool>, AllocError>
    ensures { IfOk result (λ set. set.items ≡ replicate size false) }
{
    vec![in alloc; false; size]
}

impl Reached {
    /// What no starts reach.
    pub(crate) fn nothing(alloc: Global, entries: &[Entry]) -> Result<Reached, AllocError>
        ensures starts { IfOk result (λ r. r.starts ≡ []) }
        ensures reached { IfOk result (IsReachAmong entries.now) }
    {
        let set = no_flags(alloc, entries.len())?;
        Ok(Reached {
            starts: Vec::new(alloc),
            set,
            least: None,
        })
    }

    pub(crate) fn set(&self) -> &[bool]
        ensures { result.now ≡ self.now.set }
    {
        self.set.as_slice()
    }

    pub(crate) fn set_copy(&self) -> Result<Vec<bool>, AllocError>
        ensures { IfOk result (λ set. set.items ≡ self.now.set) }
    {
        self.set.clone()
    }

    pub(crate) fn least_copy(&self) -> Result<Option<Lack>, AllocError>
        ensures { IfOk result (λ least. least ≡ self.now.least) }
    {
        self.least.clone()
    }
}
