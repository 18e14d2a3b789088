//! A file of the system that several processes use in turn.
//!
//! [`OsShared`] is a [`Shared`](shared_runs::Shared) file: a turn opens it and waits for its lock, which other processes
//! hold from their `take` to their `give`, and which is free again when a process that held it has ended, however it did.
//! The file and its folders are made where they are not there.
//!
//! ```text
//! let mut shared = OsShared::at(&rt, "/srv/cache/shared.turb");
//! let device = shared.take(alloc)?;
//! ..
//! shared.give(device)?;
//! ```
//!
//! It tells no bytes: nothing is promised of a disk. `Failed` comes where the file was not opened or locked, and is
//! counted. That a lock keeps others out is the system's word; a file system without locks fails each turn.
#![tactic(auto)]

ghost use Rattle.std.specs.Prelude.{◌≡◌, [], false, true};

use os_edge::OsStore;
use shared_runs::{Shared, TurnErr};
use std::alloc::Global;
use std::fs::File;
use std::rt::Files;
use store_dev::StoreDevice;
use tree_dev::count_fault;

/// The file at a path, with a count of its faults, which stands still at the last value of a u64.
#[derive(Drop)]
pub struct OsShared<'p, R> {
    rt: R,
    path: &'p str,
    held: bool,
    // The count of faults as the turn was taken.
    taken: u64,
    faults: u64,
    ghost same: { held ≡ true → taken ≡ faults },
}

impl<'p, R: Files<File = File> + Eprint + AllocGlobal + Copy> OsShared<'p, R> {
    /// The file at the path, from the current folder or, with a `/` in front, from the root of the
    /// file system. It touches no file yet and takes no memory.
    pub fn at(rt: R, path: &'p str) -> OsShared<'p, R>
        ensures free { (⟦<OsShared<'p, R> as Shared>⟧.turn result).held ≡ false }
        ensures faults { ⟦<OsShared<'p, R> as Shared>⟧.store_faults result ≡ 0 }
    {
        OsShared {
            rt,
            path,
            held: false,
            taken: 0,
            faults: 0,
        }
    }
}

impl<'p, R: Files<File = File> + Eprint + AllocGlobal + Copy> Shared for OsShared<'p, R> {
    type Device = OsStore<'p, R>;

    ghost content = { λ _. [] };

    ghost images = { λ _ _. ⊥ };

    ghost moment = { λ _. 0 };

    ghost images_since = { λ _ _ _. ⊥ };

    ghost store_faults = { λ s. s.faults };

    ghost turn = { λ s. record { held = s.held; began = 0; start = 0; count = s.taken } };

    ghost coming = { λ _. [] };

    ghost as_it_reads = { λ _ told. absurd told };

    ghost counts_now = { λ _ _ _ _ left. left };

    ghost only_now = { λ _ _ left. left };

    ghost earlier = { λ _ _ _ _ _ _ left. left };

    ghost stays = { λ _ told. absurd told };

    fn take(&mut self, _alloc: Global) -> Result<OsStore<'p, R>, TurnErr> {
        match OsStore::locked(self.rt, self.path, self.faults) {
            Ok(device) => {
                self.held = true;
                self.taken = self.faults;
                Ok(device)
            }
            Err(_) => {
                count_fault(&mut self.faults);
                Err(TurnErr::Failed)
            }
        }
    }

    // The lock goes with the device.
    fn give(&mut self, device: OsStore<'p, R>) -> Result<(), TurnErr> {
        self.held = false;
        self.faults = device.faults();
        Ok(())
    }
}
