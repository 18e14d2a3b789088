// A device in memory. It keeps a record of its writes and syncs.
ghost use Rattle.std.specs.Prelude.{true, false, ◌≡◌, ◌↔◌, ◌-◌, IsTrue, ◌<◌, ◌≤◌, ◌+◌, ◌^◌, [], take, drop, length, min, IfOk, IfErr, OnOk, OnErr, IsErrOf, vec_len, vec_capacity};
ghost use Rattle.std.specs.List.{Contains};
ghost use Rattle.rel_path.specs.Causes.{Rose, Counts};
ghost use Rattle.store_dev.specs.Device.{AreBytes, put_at, Holds, Torn, Only, SameWith, Follows, Elapses, OnlyReads};
ghost use Rattle.store_dev.specs.Errors.{is_fault, OnlyFails};
ghost use Rattle.store_dev.specs.Memory.{origin, after, synced, filled, settled, crash_of};
ghost use Rattle.store_dev.specs.Record.{reads_as_one, counts, only};

use crate::step::Step;
use crate::{StoreDevice, StoreErr};
use rel_path::Bytes;
use std::alloc::Global;

/// A device in memory, which fails where it is told to, and can be crashed.
#[derive(Drop)]
pub struct MemStore {
    bytes: Vec<u8>,
    // The bytes as they were before the first step. Without a step nothing stands here.
    first: Vec<u8>,
    steps: Vec<Step>,
    // How many of the steps there are up to the last sync.
    settled: usize,
    fails: Vec<u64>,
    calls: u64,
    faults: u64,
    ghost fits: { AreBytes bytes.items },
    ghost few: { length bytes.items < 2 ^ 63 },
    ghost replayed: { bytes.items ≡ after (origin bytes.items first.items steps.items) steps.items },
    ghost last_sync: { settled ≡ synced steps.items },
    // Where a write is not synced there is room for the record of the sync, so that a sync takes no memory.
    ghost room: { settled < vec_len steps → vec_len steps < vec_capacity steps },
}

impl MemStore {
    ghost use Rattle.store_dev.specs.MemStore.{bytes_of, steps_of, start_of, images_of, failing, next_call, faults_of};

    /// A device with these bytes, all of them synced. The calls with these numbers fail, counted from 0 over all
    /// calls of [`StoreDevice`]. It takes no memory.
    pub fn new(alloc: Global, bytes: Bytes, fails: Vec<u64>) -> MemStore
        ensures bytes { bytes_of result ≡ bytes }
        ensures steps { steps_of result ≡ [] }
        ensures fails { failing result ≡ fails.items }
        ensures calls { next_call result ≡ 0 }
        ensures faults { faults_of result ≡ 0 }
    {
        MemStore::over(alloc, bytes.into_vec(), fails)
    }

    fn over(alloc: Global, bytes: Vec<u8>, fails: Vec<u64>) -> MemStore
        ensures bytes { bytes_of result ≡ bytes.items }
        ensures steps { steps_of result ≡ [] }
        ensures fails { failing result ≡ fails.items }
        ensures calls { next_call result ≡ 0 }
        ensures faults { faults_of result ≡ 0 }
    {
        MemStore {
            bytes,
            first: Vec::new(alloc),
            steps: Vec::new(alloc),
            settled: 0,
            fails,
            calls: 0,
            faults: 0,
        }
    }

    /// The device after a crash now in which every byte that was written since the last sync is `fill`, and at most
    /// `keep` bytes stand past the synced end. No call of it fails.
    pub fn crash(&self, alloc: Global, fill: u8, keep: u64) -> Result<MemStore, StoreErr>
        ensures image { IfOk result
            (λ after. bytes_of after ≡ crash_of fill keep (start_of self.now) (steps_of self.now)) }
        ensures allowed { IfOk result (λ after. images_of self.now (bytes_of after)) }
        ensures steps { IfOk result (λ after. steps_of after ≡ []) }
        ensures fails { IfOk result (λ after. failing after ≡ []) }
        ensures faults { IfOk result (λ after. faults_of after ≡ 0) }
        ensures memory { IfErr result (λ e. e ≡ StoreErr.OutOfMemory) }
    {
        let start = if self.steps.is_empty() {
            self.bytes.as_slice()
        } else {
            self.first.as_slice()
        };
        let (synced, unsynced) = self.steps.split_at(self.settled);
        let settled = replayed(alloc, start, synced)?;
        let image = crashed(alloc, settled, unsynced, fill, keep)?;
        Ok(MemStore::over(alloc, image, Vec::new(alloc)))
    }

    /// The bytes as a read gives them.
    pub fn bytes(&self) -> &[u8]
        ensures { result.now ≡ bytes_of self.now }
    {
        &self.bytes
    }
}

// Counts a call, and says whether it fails.
fn next_fails(calls: &mut u64, faults: &mut u64, fails: &[u64]) -> bool
    ensures answer { IsTrue result ↔ Contains fails.now calls.old }
    ensures counted { calls.new ≡ min (calls.old + 1) (2 ^ 64 - 1) }
    ensures passes { result ≡ false → faults.new ≡ faults.old }
    ensures fails { result ≡ true → Rose faults.old faults.new }
    ensures later { faults.old ≤ faults.new }
{
    let call = *calls;
    *calls = call.saturating_add(1);
    if fails.contains(&call) {
        *faults = faults.saturating_add(1);
        return true;
    }
    false
}

impl StoreDevice for MemStore {
    ghost use Rattle.store_dev.specs.MemStore.{bytes_of, images_of, images_since_of, moment_of, faults_of, FailsAsTold};

    ghost tells = { Unit {0} };

    ghost content = { bytes_of };

    ghost images = { images_of };

    ghost moment = { moment_of };

    ghost images_since = { images_since_of };

    ghost store_faults = { faults_of };

    ghost are_bytes = { λ m _. m.fits };

    ghost few_bytes = { λ m _. m.few };

    ghost as_it_reads = { λ m _. reads_as_one m.bytes.items
        (origin m.bytes.items m.first.items m.steps.items) m.steps.items m.replayed };

    ghost counts_now = { λ m t c le now. counts (origin m.bytes.items m.first.items m.steps.items)
        m.steps.items t c le now };

    ghost only_now = { λ m c left. only (origin m.bytes.items m.first.items m.steps.items)
        m.steps.items c left };

    fn len(&mut self) -> Result<u64, StoreErr>
        ensures value { IfOk result (λ n. n ≡ length (bytes_of self.old)) }
        ensures reads { OnlyReads bytes_of images_of moment_of images_since_of self.old self.new }
        ensures only { OnlyFails result }
        ensures cause { Counts is_fault (faults_of self.old) (faults_of self.new) result }
        ensures told { FailsAsTold self.old self.new result }
    {
        if next_fails(&mut self.calls, &mut self.faults, &self.fails) {
            return Err(StoreErr::Failed);
        }
        Ok(self.bytes.len() as u64)
    }

    fn read_at(&mut self, at: u64, buf: &mut [u8]) -> Result<(), StoreErr>
        requires { at + length buf.old ≤ length (bytes_of self.old) }
        ensures value { OnOk result
            (buf.new ≡ take (length buf.old) (drop at (bytes_of self.old))) }
        ensures reads { OnlyReads bytes_of images_of moment_of images_since_of self.old self.new }
        ensures only { OnlyFails result }
        ensures cause { Counts is_fault (faults_of self.old) (faults_of self.new) result }
        ensures told { FailsAsTold self.old self.new result }
    {
        if next_fails(&mut self.calls, &mut self.faults, &self.fails) {
            return Err(StoreErr::Failed);
        }
        let start = at as usize;
        buf.copy_from_slice(&self.bytes[start..start + buf.len()]);
        Ok(())
    }

    fn write_at(&mut self, alloc: Global, at: u64, bytes: &[u8]) -> Result<(), StoreErr>
        requires place { at ≤ length (bytes_of self.old) }
        requires end { at + length bytes.now ≤ 2 ^ 62 }
        ensures written { OnOk result (Holds (bytes_of self.old) at bytes.now (bytes_of self.new)) }
        ensures torn { OnErr result
            (Torn at (length bytes.now) (bytes_of self.old) (bytes_of self.new)) }
        ensures memory { IsErrOf result StoreErr.OutOfMemory
            → SameWith (bytes_of self.old) (bytes_of self.new) (images_of self.old)
            (images_of self.new) }
        ensures images { Follows (Torn at (length bytes.now)) (images_of self.old)
            (images_of self.new) }
        ensures time { Elapses (moment_of self.old) (moment_of self.new) (images_since_of self.old)
            (images_since_of self.new) (images_of self.new) }
        ensures cause { Counts is_fault (faults_of self.old) (faults_of self.new) result }
        ensures told { FailsAsTold self.old self.new result }
    {
        if next_fails(&mut self.calls, &mut self.faults, &self.fails) {
            return Err(StoreErr::Failed);
        }
        let copy = Vec::from_slice(alloc, bytes)?;
        make_room(alloc, &mut self.first, &mut self.steps, &self.bytes)?;
        overwrite(&mut self.bytes, at, bytes)?;
        // There is room for it.
        self.steps.push(Step::Wrote { at, bytes: copy })?;
        Ok(())
    }

    fn sync(&mut self) -> Result<(), StoreErr>
        ensures durable { OnOk result (Only (bytes_of self.old) (images_of self.new)) }
        ensures reads { OnlyReads bytes_of images_of moment_of images_since_of self.old self.new }
        ensures only { OnlyFails result }
        ensures cause { Counts is_fault (faults_of self.old) (faults_of self.new) result }
        ensures told { FailsAsTold self.old self.new result }
    {
        if next_fails(&mut self.calls, &mut self.faults, &self.fails) {
            return Err(StoreErr::Failed);
        }
        if self.settled < self.steps.len() {
            // There is room for it, made by the write.
            self.steps.push(Step::Synced)?;
            self.settled = self.steps.len();
        }
        Ok(())
    }
}

// Makes room for the record of a write and of the sync behind it, and puts the bytes by before the first step.
fn make_room(
    alloc: Global,
    first: &mut Vec<u8>,
    steps: &mut Vec<Step>,
    bytes: &[u8],
) -> Result<(), StoreErr>
    ensures steps { steps.new.items ≡ steps.old.items }
    ensures count { vec_len steps.new ≡ vec_len steps.old }
    ensures grows { vec_capacity steps.old ≤ vec_capacity steps.new }
    ensures room { OnOk result (vec_len steps.new + 2 ≤ vec_capacity steps.new) }
    ensures begun { OnOk result
        (first.new.items ≡ origin bytes.now first.old.items steps.old.items) }
    ensures kept { 1 ≤ length steps.old.items → first.new.items ≡ first.old.items }
    ensures memory { IfErr result (λ e. e ≡ StoreErr.OutOfMemory) }
{
    steps.reserve(2)?;
    if steps.is_empty() {
        *first = Vec::from_slice(alloc, bytes)?;
    }
    Ok(())
}

// Writes bytes over others from an offset on, and past their end.
fn overwrite(to: &mut Vec<u8>, at: u64, bytes: &[u8]) -> Result<(), StoreErr>
    ensures put { OnOk result (to.new.items ≡ put_at to.old.items at bytes.now) }
    ensures fits { AreBytes to.new.items }
    ensures few { length to.new.items < 2 ^ 63 }
    ensures kept { OnErr result (to.new.items ≡ to.old.items) }
    ensures memory { IfErr result (λ e. e ≡ StoreErr.OutOfMemory) }
{
    let start = to.len().min(at as usize);
    let within = bytes.len().min(to.len() - start);
    let (front, more) = bytes.split_at(within);
    to.extend_from_slice(more)?;
    to[start..start + within].copy_from_slice(front);
    Ok(())
}

// How a device reads after these steps.
fn replayed(alloc: Global, start: &[u8], steps: &[Step]) -> Result<Vec<u8>, StoreErr>
    ensures reads { IfOk result (λ bytes. bytes.items ≡ after start.now steps.now) }
    ensures memory { IfErr result (λ e. e ≡ StoreErr.OutOfMemory) }
{
    let mut bytes = Vec::from_slice(alloc, start)?;
    for step in steps {
        if let Step::Wrote { at, bytes: more } = step {
            overwrite(&mut bytes, *at, more)?;
        }
    }
    Ok(bytes)
}

// The bytes with the range of each of these writes filled, and at most so many bytes more.
fn crashed(
    alloc: Global,
    synced: Vec<u8>,
    writes: &[Step],
    fill: u8,
    keep: u64,
) -> Result<Vec<u8>, StoreErr>
    ensures image { IfOk result
        (λ bytes. bytes.items ≡ filled fill (length synced.items + keep) synced.items writes.now) }
    ensures memory { IfErr result (λ e. e ≡ StoreErr.OutOfMemory) }
{
    let end = synced.len();
    let mut image = synced;
    for step in writes {
        if let Step::Wrote { at, bytes } = step {
            let part = vec![in alloc; fill; bytes.len()]?;
            overwrite(&mut image, *at, &part)?;
            cut(&mut image, end, keep);
        }
    }
    Ok(image)
}

// At most so many bytes past an end.
fn cut(image: &mut Vec<u8>, end: usize, keep: u64)
    ensures { image.new.items ≡ take (end + keep) image.old.items }
{
    if image.len().saturating_sub(end) as u64 > keep {
        image.truncate(end + keep as usize);
    }
}
