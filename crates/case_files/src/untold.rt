// A device of which nothing is told, as nothing is of a file: a store in it may be resumed with any
// mark.
ghost use Rattle.std.specs.Prelude.{◌≡◌, ◌≤◌, [], IfErr};
ghost use Rattle.rel_path.specs.Causes.{Rose};
ghost use Rattle.case_files.specs.Untold.{bytes_of, faults_of};

use rel_path::Bytes;
use std::alloc::Global;
use store_dev::{FuseStore, MemStore, StoreDevice, StoreErr};

/// A device in memory. It fails where the device inside does, where it is read past its end, as a
/// file does, and where it would be written behind it.
#[derive(Drop)]
pub struct Untold {
    inner: FuseStore,
    // How often it failed by itself.
    missed: u64,
}

impl Untold {
    ghost use Rattle.store_dev.specs.FuseStore as inside;

    /// This device, with nothing told of it. It takes no memory.
    pub fn new(inner: FuseStore) -> Untold
        ensures bytes { bytes_of result ≡ inside.bytes_of inner }
        ensures faults { faults_of result ≡ inside.faults_of inner }
    {
        Untold { inner, missed: 0 }
    }

    /// A device with these bytes, so many calls of which pass. It takes no memory.
    pub fn of_bytes(alloc: Global, bytes: Vec<u8>, passes: u64) -> Untold
        ensures { bytes_of result ≡ bytes.items }
    {
        let store = MemStore::new(alloc, Bytes::from_vec(bytes), Vec::new(alloc));
        Untold::new(FuseStore::new(store, passes))
    }

    /// The bytes as a read gives them.
    pub fn bytes(&self) -> &[u8]
        ensures { result.now ≡ bytes_of self.now }
    {
        self.inner.inner().bytes()
    }

    /// The device as it reads after a crash, of which nothing is unsynced (`MemStore::crash`).
    pub fn crash(&self, alloc: Global, fill: u8, keep: u64) -> Result<MemStore, StoreErr>
        ensures { IfErr result (λ e. e ≡ StoreErr.OutOfMemory) }
    {
        self.inner.inner().crash(alloc, fill, keep)
    }
}

// Counts a call at a place that the device does not have.
fn miss(missed: &mut u64) -> StoreErr
    ensures counted { Rose missed.old missed.new }
    ensures later { missed.old ≤ missed.new }
    ensures failed { result ≡ StoreErr.Failed }
{
    *missed = missed.saturating_add(1);
    StoreErr::Failed
}

impl StoreDevice for Untold {
    ghost tells = { ⊥ };

    ghost content = { λ _. [] };

    ghost images = { λ _ _. ⊥ };

    ghost moment = { λ _. 0 };

    ghost images_since = { λ _ _ _. ⊥ };

    ghost store_faults = { faults_of };

    ghost are_bytes = { λ _ t. absurd t };

    ghost few_bytes = { λ _ t. absurd t };

    ghost as_it_reads = { λ _ t. absurd t };

    ghost counts_now = { λ _ _ _ _ now. now };

    ghost only_now = { λ _ _ left. left };

    fn len(&mut self) -> Result<u64, StoreErr> {
        self.inner.len()
    }

    fn read_at(&mut self, at: u64, buf: &mut [u8]) -> Result<(), StoreErr> {
        let len = self.bytes().len() as u64;
        if at > len || buf.len() as u64 > len - at {
            return Err(miss(&mut self.missed));
        }
        self.inner.read_at(at, buf)
    }

    fn write_at(&mut self, alloc: Global, at: u64, bytes: &[u8]) -> Result<(), StoreErr> {
        if at > self.bytes().len() as u64 {
            return Err(miss(&mut self.missed));
        }
        self.inner.write_at(alloc, at, bytes)
    }

    fn sync(&mut self) -> Result<(), StoreErr> {
        self.inner.sync()
    }
}
