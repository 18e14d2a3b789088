// A device whose calls fail from some call on.
ghost use Rattle.std.specs.Prelude.{true, false, ◌≡◌, ◌≤◌, ◌+◌, ◌-◌, ◌^◌, take, drop, length, IfOk, OnOk, OnErr, IsErrOf};
ghost use Rattle.rel_path.specs.Causes.{Rose, Counts};
ghost use Rattle.store_dev.specs.Device.{Holds, Torn, Only, SameWith, Follows, Elapses, OnlyReads};
ghost use Rattle.store_dev.specs.Errors.{is_fault, OnlyFails};
ghost use Rattle.store_dev.specs.Record.{reads_as_one, counts, only};

use crate::{MemStore, StoreDevice, StoreErr};
use std::alloc::Global;

/// A device in memory that passes so many calls and fails every later one, as one that is cut off.
#[derive(Drop)]
pub struct FuseStore {
    inner: MemStore,
    pass: u64,
    faults: u64,
}

impl FuseStore {
    ghost use Rattle.store_dev.specs.FuseStore.{passes_left, device_in};

    /// The device, `pass` calls of which pass. It takes no memory.
    pub fn new(inner: MemStore, pass: u64) -> FuseStore
        ensures inner { device_in result ≡ inner }
        ensures pass { passes_left result ≡ pass }
    {
        FuseStore {
            inner,
            pass,
            faults: 0,
        }
    }

    pub fn inner(&self) -> &MemStore
        ensures { result.now ≡ device_in self.now }
    {
        &self.inner
    }
}

// Counts a call, and says whether the calls that pass are spent.
fn is_spent(pass: &mut u64, faults: &mut u64) -> bool
    ensures left { pass.new ≡ pass.old - 1 }
    ensures passed { result ≡ false → (1 ≤ pass.old) × (faults.new ≡ faults.old) }
    ensures spent { result ≡ true → (pass.old ≡ 0) × Rose faults.old faults.new }
    ensures later { faults.old ≤ faults.new }
{
    if *pass == 0 {
        *faults = faults.saturating_add(1);
        return true;
    }
    *pass -= 1;
    false
}

impl StoreDevice for FuseStore {
    ghost use Rattle.store_dev.specs.FuseStore.{bytes_of, images_of, images_since_of, moment_of, faults_of, FailsWhenSpent};
    ghost use Rattle.store_dev.specs.MemStore as inside;

    ghost tells = { Unit {0} };

    ghost content = { bytes_of };

    ghost images = { images_of };

    ghost moment = { moment_of };

    ghost images_since = { images_since_of };

    ghost store_faults = { faults_of };

    ghost are_bytes = { λ d _. d.inner.fits };

    ghost few_bytes = { λ d _. d.inner.few };

    ghost as_it_reads = { λ d _. reads_as_one (bytes_of d) (inside.start_of d.inner)
        (inside.steps_of d.inner) d.inner.replayed };

    ghost counts_now = { λ d m c le now. counts (inside.start_of d.inner) (inside.steps_of d.inner)
        m c le now };

    ghost only_now = { λ d c left. only (inside.start_of d.inner) (inside.steps_of d.inner) c
        left };

    fn len(&mut self) -> Result<u64, StoreErr>
        ensures value { IfOk result (λ n. n ≡ length (bytes_of self.old)) }
        ensures reads { OnlyReads bytes_of images_of moment_of images_since_of self.old self.new }
        ensures only { OnlyFails result }
        ensures cause { Counts is_fault (faults_of self.old) (faults_of self.new) result }
        ensures fuse { FailsWhenSpent self.old self.new result }
    {
        if is_spent(&mut self.pass, &mut self.faults) {
            return Err(StoreErr::Failed);
        }
        self.inner.len()
    }

    fn read_at(&mut self, at: u64, buf: &mut [u8]) -> Result<(), StoreErr>
        requires { at + length buf.old ≤ length (bytes_of self.old) }
        ensures value { OnOk result
            (buf.new ≡ take (length buf.old) (drop at (bytes_of self.old))) }
        ensures reads { OnlyReads bytes_of images_of moment_of images_since_of self.old self.new }
        ensures only { OnlyFails result }
        ensures cause { Counts is_fault (faults_of self.old) (faults_of self.new) result }
        ensures fuse { FailsWhenSpent self.old self.new result }
    {
        if is_spent(&mut self.pass, &mut self.faults) {
            return Err(StoreErr::Failed);
        }
        self.inner.read_at(at, buf)
    }

    fn write_at(&mut self, alloc: Global, at: u64, bytes: &[u8]) -> Result<(), StoreErr>
        requires place { at ≤ length (bytes_of self.old) }
        requires end { at + length bytes.now ≤ 2 ^ 62 }
        ensures written { OnOk result (Holds (bytes_of self.old) at bytes.now (bytes_of self.new)) }
        ensures torn { OnErr result
            (Torn at (length bytes.now) (bytes_of self.old) (bytes_of self.new)) }
        ensures memory { IsErrOf result StoreErr.OutOfMemory
            → SameWith (bytes_of self.old) (bytes_of self.new) (images_of self.old)
            (images_of self.new) }
        ensures images { Follows (Torn at (length bytes.now)) (images_of self.old)
            (images_of self.new) }
        ensures time { Elapses (moment_of self.old) (moment_of self.new) (images_since_of self.old)
            (images_since_of self.new) (images_of self.new) }
        ensures cause { Counts is_fault (faults_of self.old) (faults_of self.new) result }
        ensures fuse { FailsWhenSpent self.old self.new result }
    {
        if is_spent(&mut self.pass, &mut self.faults) {
            return Err(StoreErr::Failed);
        }
        self.inner.write_at(alloc, at, bytes)
    }

    fn sync(&mut self) -> Result<(), StoreErr>
        ensures durable { OnOk result (Only (bytes_of self.old) (images_of self.new)) }
        ensures reads { OnlyReads bytes_of images_of moment_of images_since_of self.old self.new }
        ensures only { OnlyFails result }
        ensures cause { Counts is_fault (faults_of self.old) (faults_of self.new) result }
        ensures fuse { FailsWhenSpent self.old self.new result }
    {
        if is_spent(&mut self.pass, &mut self.faults) {
            return Err(StoreErr::Failed);
        }
        self.inner.sync()
    }
}
