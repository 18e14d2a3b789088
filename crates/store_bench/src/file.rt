// A file as a store's device. It tells nothing of its bytes, and is not locked.
ghost use Rattle.std.specs.Prelude.{[]};
ghost use Rattle.rel_path.specs.Causes.{Counts};
ghost use Rattle.store_dev.specs.Errors.{is_fault, OnlyFails};

use std::alloc::Global;
use std::fs::{File, OpenOptions};
use std::io;
use std::os::unix::fs::FileExt;
use store_dev::{StoreDevice, StoreErr};

/// A file that was opened for reading and writing.
#[derive(Drop)]
pub struct FileStore {
    file: File,
    faults: u64,
}

impl FileStore {
    pub fn new(file: File) -> FileStore {
        FileStore { file, faults: 0 }
    }
}

/// The file for reading and writing, made where there is none; anew: as an empty one.
pub fn file_at(rt: &HostRuntime, path: &str, anew: bool) -> io::Result<File> {
    OpenOptions::new()
        .read(true)
        .write(true)
        .create(true)
        .truncate(anew)
        .open(rt, path)
}

/// Counts a fault.
fn counted<T: Drop>(faults: &mut u64, outcome: io::Result<T>) -> Result<T, StoreErr>
    ensures only { OnlyFails result }
    ensures cause { Counts is_fault faults.old faults.new result }
{
    match outcome {
        Ok(value) => Ok(value),
        Err(_) => {
            *faults = faults.saturating_add(1);
            Err(StoreErr::Failed)
        }
    }
}

impl StoreDevice for FileStore {
    ghost tells = { ⊥ };

    ghost content = { λ _. [] };

    ghost images = { λ _ _. ⊥ };

    ghost moment = { λ _. 0 };

    ghost images_since = { λ _ _ _. ⊥ };

    ghost store_faults = { λ d. d.faults };

    ghost are_bytes = { λ _ t. absurd t };

    ghost few_bytes = { λ _ t. absurd t };

    ghost as_it_reads = { λ _ t. absurd t };

    ghost counts_now = { λ _ _ _ _ now. now };

    ghost only_now = { λ _ _ left. left };

    fn len(&mut self) -> Result<u64, StoreErr> {
        counted(&mut self.faults, self.file.metadata().map(|m| m.len()))
    }

    fn read_at(&mut self, at: u64, buf: &mut [u8]) -> Result<(), StoreErr> {
        counted(&mut self.faults, self.file.read_exact_at(buf, at))
    }

    fn write_at(&mut self, _alloc: Global, at: u64, bytes: &[u8]) -> Result<(), StoreErr> {
        counted(&mut self.faults, self.file.write_all_at(bytes, at))
    }

    fn sync(&mut self) -> Result<(), StoreErr> {
        counted(&mut self.faults, self.file.sync_all())
    }
}
