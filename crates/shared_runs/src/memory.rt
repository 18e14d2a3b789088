// A shared file in memory.
ghost use Rattle.std.specs.Prelude.{true, false, ◌≡◌, ◌↔◌, ◌<◌, ◌≤◌, ◌+◌, ◌-◌, ◌^◌, [], List, ℕ};
ghost use Rattle.std.specs.Prelude.{min, get_or, IsTrue, IfOk, IfErr, IsErrOf, vec_len};
ghost use Rattle.std.specs.Prelude.{vec_capacity};
ghost use Rattle.std.specs.List.{Contains};
ghost use Rattle.rel_path.specs.Causes.{Rose, Counts};
ghost use Rattle.store_dev.specs.Device.{Only, Within};
ghost use Rattle.store_dev.specs.MemStore.{bytes_of as device_bytes};
ghost use Rattle.shared_runs.specs.Appended.{IsBegun, IsFresh};
ghost use Rattle.shared_runs.specs.Others.{pairs_of};

use crate::appended::{fresh, with_pairs};
use crate::others::{OtherPut, OtherPuts};
use crate::{Shared, TurnErr};
use rel_path::Bytes;
use std::alloc::Global;
use std::mem;
use store_dev::{MemStore, StoreDevice};

/// A shared file in memory, into which other runs put pairs between the turns, and which fails
/// where it is told to.
///
/// It is for tests: each turn has a device of its own, and the earlier ones are kept, since they
/// tell what a crash might have left.
#[derive(Drop)]
pub struct MemShared {
    file: MemStore,
    // The devices that held the file before, the first first.
    past: Vec<MemStore>,
    others: Vec<OtherPuts>,
    turns: u64,
    fails: Vec<u64>,
    calls: u64,
    faults: u64,
    held: bool,
    began: usize,
    // So that giving the turn back takes no memory.
    ghost room: { held ≡ true → vec_len past < vec_capacity past },
}

impl MemShared {
    ghost use Rattle.shared_runs.specs.MemShared.{bytes_of, moment_of, faults_of, turn_of};
    ghost use Rattle.shared_runs.specs.MemShared.{next_turn};

    /// A file with these bytes, all of them synced. Before the turn with each number, counted from
    /// 0 over the turns that are taken, the pairs with that number are put where the file is a
    /// store, each where there is room for it. The calls with the numbers in `fails` fail, counted
    /// from 0 over all calls of `take` and `give`. It takes no memory.
    pub fn new(alloc: Global, bytes: Bytes, others: Vec<OtherPuts>, fails: Vec<u64>) -> MemShared
        ensures bytes { bytes_of result ≡ bytes }
        ensures moment { moment_of result ≡ 0 }
        ensures faults { faults_of result ≡ 0 }
        ensures turn { (turn_of result).held ≡ false }
        ensures next { next_turn result ≡ 0 }
        ensures others { result.others.items ≡ others.items }
        ensures fails { result.fails.items ≡ fails.items }
        ensures calls { result.calls ≡ 0 }
    {
        MemShared {
            file: MemStore::new(alloc, bytes, Vec::new(alloc)),
            past: Vec::new(alloc),
            others,
            turns: 0,
            fails,
            calls: 0,
            faults: 0,
            held: false,
            began: 0,
        }
    }

    /// The bytes as a read gives them, or gave them as the turn was taken.
    pub fn bytes(&self) -> &[u8]
        ensures { result.now ≡ bytes_of self.now }
    {
        self.file.bytes()
    }
}

/// What is put before the turn with that number.
fn puts_at(others: &[OtherPuts], number: u64) -> &[OtherPut]
    ensures { result.now ≡ get_or others.now number [] }
{
    match others.get(number as usize) {
        Some(puts) => puts.as_slice(),
        None => &[],
    }
}

// Counts a call, and says whether it fails.
fn next_fails(calls: &mut u64, faults: &mut u64, fails: &[u64]) -> bool
    ensures answer { IsTrue result ↔ Contains fails.now calls.old }
    ensures counted { calls.new ≡ min (calls.old + 1) (2 ^ 64 - 1) }
    ensures passes { result ≡ false → faults.new ≡ faults.old }
    ensures fails { result ≡ true → Rose faults.old faults.new }
    ensures later { faults.old ≤ faults.new }
{
    let call = *calls;
    *calls = call.saturating_add(1);
    if fails.contains(&call) {
        *faults = faults.saturating_add(1);
        return true;
    }
    false
}

impl Shared for MemShared {
    ghost use Rattle.record_log.specs.Frames.{frames_of, ends, IsSound};
    ghost use Rattle.shared_runs.specs.Frames.{HoldsOn, HoldsOneOrMore};
    ghost use Rattle.shared_runs.specs.HistoryLaws.{left_earlier, left_last, left_now};
    ghost use Rattle.shared_runs.specs.MemShared.{bytes_of, images_of, moment_of, images_since_of};
    ghost use Rattle.shared_runs.specs.MemShared.{faults_of, turn_of, coming_of, devices_of};
    ghost use Rattle.shared_runs.specs.MemShared.{next_turn, next_after, IsFailing, IsCalled};
    ghost use Rattle.shared_runs.specs.MemLaws.{reads_as_image, stays_coming};
    ghost use Rattle.shared_runs.specs.Turns.{is_fault, HeldAfter, IsTurnOf, HoldsFile, IsTaken};
    ghost use Rattle.shared_runs.specs.Turns.{GoesOn, NoFault, LeftInTurn};

    type Device = MemStore;

    ghost content = { bytes_of };

    ghost images = { images_of };

    ghost moment = { moment_of };

    ghost images_since = { images_since_of };

    ghost store_faults = { faults_of };

    ghost turn = { turn_of };

    ghost coming = { coming_of };

    ghost as_it_reads = { λ m _. reads_as_image m };

    ghost counts_now = { λ m n c le now. left_now m.past.items m.file n c le now };

    ghost only_now = { λ m c left. left_last m.past.items m.file c left };

    ghost earlier = { λ m a b c le _ left. left_earlier (devices_of m) a b c le left };

    ghost stays = { λ m _ sound. stays_coming m sound };

    fn take(&mut self, alloc: Global) -> Result<MemStore, TurnErr>
        requires { (turn_of self.old).held ≡ false }
        ensures held { HeldAfter result (turn_of self.new) }
        ensures began { (turn_of self.new).began ≡ moment_of self.old }
        ensures begun { IfOk result
            (IsTurnOf ⟦<MemStore as StoreDevice>⟧ (turn_of self.new) (faults_of self.new)) }
        ensures device { ⟦<MemStore as StoreDevice>⟧.tells → IfOk result
            (HoldsFile ⟦<MemStore as StoreDevice>⟧ (bytes_of self.new) (images_of self.new)) }
        ensures taken { ⟦<MemStore as StoreDevice>⟧.tells → IfOk result (λ _.
            IsTaken (bytes_of self.old) (coming_of self.old)
            (bytes_of self.new) (images_of self.new)) }
        ensures file { ⟦<MemStore as StoreDevice>⟧.tells
            → HoldsOneOrMore (λ c. c ≡ bytes_of self.old)
            (bytes_of self.old) (coming_of self.old) (bytes_of self.new) }
        ensures time { ⟦<MemStore as StoreDevice>⟧.tells
            → GoesOn moment_of images_since_of self.old self.new
            (HoldsOneOrMore (images_of self.old) (bytes_of self.old) (coming_of self.old)) }
        ensures grows { ends (coming_of self.old) ≤ ends (coming_of self.new) }
        ensures cause { Counts is_fault (faults_of self.old) (faults_of self.new) result }
        // The calls with these numbers fail.
        ensures fails { IsFailing self.old → IsErrOf result TurnErr.Failed }
        ensures called { IsCalled self.old self.new }
        ensures next { next_turn self.new ≡ next_after result (next_turn self.old) }
    {
        self.began = self.past.len();
        if next_fails(&mut self.calls, &mut self.faults, &self.fails) {
            return Err(TurnErr::Failed);
        }
        let puts = puts_at(&self.others, self.turns);
        let (file, device) = match next_file(alloc, &self.file, puts) {
            Ok(both) => both,
            Err(TurnErr::Failed) => {
                self.faults = self.faults.saturating_add(1);
                return Err(TurnErr::Failed);
            }
            Err(TurnErr::OutOfMemory) => return Err(TurnErr::OutOfMemory),
        };
        self.past.reserve(2)?;
        let before = mem::replace(&mut self.file, file);
        // There is room for it.
        self.past.push(before)?;
        self.turns = self.turns.saturating_add(1);
        self.held = true;
        Ok(device)
    }

    fn give(&mut self, device: MemStore) -> Result<(), TurnErr>
        requires held { (turn_of self.old).held ≡ true }
        requires count { (turn_of self.old).count
            ≤ ⟦<MemStore as StoreDevice>⟧.store_faults device }
        requires kept { ⟦<MemStore as StoreDevice>⟧.tells → IsSound (bytes_of self.old)
            → (c : List ℕ)
            → ⟦<MemStore as StoreDevice>⟧.images_since device (turn_of self.old).start c
            → HoldsOn (frames_of (bytes_of self.old)) c }
        requires synced { ⟦<MemStore as StoreDevice>⟧.tells
            → NoFault (turn_of self.old).count (⟦<MemStore as StoreDevice>⟧.store_faults device)
            → Only (⟦<MemStore as StoreDevice>⟧.content device)
            (⟦<MemStore as StoreDevice>⟧.images device) }
        ensures held { (turn_of self.new).held ≡ false }
        ensures began { (turn_of self.new).began ≡ (turn_of self.old).began }
        ensures file { ⟦<MemStore as StoreDevice>⟧.tells
            → bytes_of self.new ≡ ⟦<MemStore as StoreDevice>⟧.content device }
        ensures images { ⟦<MemStore as StoreDevice>⟧.tells
            → Within (images_of self.new) (⟦<MemStore as StoreDevice>⟧.images device) }
        ensures time { ⟦<MemStore as StoreDevice>⟧.tells
            → GoesOn moment_of images_since_of self.old self.new
            (LeftInTurn (images_of self.old)
            (⟦<MemStore as StoreDevice>⟧.images_since device (turn_of self.old).start)) }
        ensures grows { ends (coming_of self.old) ≤ ends (coming_of self.new) }
        ensures only { IfErr result (λ e. e ≡ TurnErr.Failed) }
        ensures cause { Counts is_fault
            (faults_of self.old
            + (⟦<MemStore as StoreDevice>⟧.store_faults device - (turn_of self.old).count))
            (faults_of self.new) result }
        ensures fails { IsErrOf result TurnErr.Failed ↔ IsFailing self.old }
        ensures called { IsCalled self.old self.new }
        ensures next { next_turn self.new ≡ next_turn self.old }
    {
        let before = mem::replace(&mut self.file, device);
        // There is room for it, made by `take`.
        self.past.push(before)?;
        self.held = false;
        if next_fails(&mut self.calls, &mut self.faults, &self.fails) {
            return Err(TurnErr::Failed);
        }
        Ok(())
    }
}

/// The device of the file as the next turn begins, and another one with the same bytes, to be
/// handed out.
fn next_file(
    alloc: Global,
    file: &MemStore,
    puts: &[OtherPut],
) -> Result<(MemStore, MemStore), TurnErr>
    ensures file { IfOk result
        (λ both. IsBegun (device_bytes file.now) (pairs_of puts.now) both.0) }
    ensures device { IfOk result (λ both. IsFresh (device_bytes both.0) both.1) }
{
    let begun = fresh(alloc, file.bytes())?;
    let file = with_pairs(alloc, begun, puts)?;
    let device = fresh(alloc, file.bytes())?;
    Ok((file, device))
}
