// Taking a turn with a store, and giving it back.
ghost use Rattle.std.specs.Prelude.{◌≡◌, ◌≤◌, ◌+◌, ◌-◌, true, false, IfOk, IfErr, OnOk};
ghost use Rattle.std.specs.Prelude.{OnErr};
ghost use Rattle.rel_path.specs.Causes.{Counts, Rose};
ghost use Rattle.cache_api.specs.Cache.{IsFindErr, is_fault as is_cache_fault};
ghost use Rattle.artifact_store.specs.Marks.{IsMarkOf, foreseen};
ghost use Rattle.artifact_store.specs.Store.{device_of, lengths_of};
ghost use Rattle.shared_runs.specs.Errors.{of_turn, of_opening, is_damage};
ghost use Rattle.store_dev.specs.Device.{Only, Within};
ghost use Rattle.record_log.specs.Frames.{IsSound, ends, frames_of};
ghost use Rattle.shared_runs.specs.Passing.{IsInTurn, BeginsTurn, LeavesFirst};
ghost use Rattle.shared_runs.specs.Turns.{GoesOn, LeftInTurn, is_fault};

use crate::{Shared, TurnErr};
use artifact_store::{OpenErr, Store, StoreMark};
use cache_api::CacheErr;
use record_log::Unopened;
use std::alloc::Global;
use store_dev::StoreDevice;

/// Syncs the device and gives the turn back with it, whatever the sync answers.
pub(crate) fn end_turn<H: Shared>(shared: &mut H, device: H::Device) -> Result<(), TurnErr>
    requires { IsInTurn H.Shared H.Device.StoreDevice shared.old device }
    ensures held { (H.turn shared.new).held ≡ false }
    ensures began { (H.turn shared.new).began ≡ (H.turn shared.old).began }
    ensures file { H.Device.tells → H.content shared.new ≡ H.Device.content device }
    ensures images { H.Device.tells → Within (H.images shared.new) (H.Device.images device) }
    ensures durable { H.Device.tells
        → OnOk result (Only (H.Device.content device) (H.images shared.new)) }
    ensures time { H.Device.tells → GoesOn H.moment H.images_since shared.old shared.new
        (LeftInTurn (H.images shared.old)
        (H.Device.images_since device (H.turn shared.old).start)) }
    ensures grows { ends (H.coming shared.old) ≤ ends (H.coming shared.new) }
    ensures only { IfErr result (λ e. e ≡ TurnErr.Failed) }
    ensures cause { Counts is_fault
        (H.store_faults shared.old + (H.Device.store_faults device - (H.turn shared.old).count))
        (H.store_faults shared.new) result }
{
    let mut device = device;
    let synced = device.sync();
    shared.give(device)?;
    match synced {
        Ok(()) => Ok(()),
        Err(_) => Err(TurnErr::Failed),
    }
}

/// Why a turn was not taken, as a cache says it.
fn turn_err(fault: TurnErr) -> CacheErr
    ensures { result ≡ of_turn fault }
{
    match fault {
        TurnErr::Failed => CacheErr::Failed,
        TurnErr::OutOfMemory => CacheErr::OutOfMemory,
    }
}

/// Why a store was not opened, as a cache says it: also a file that is no store is a fault.
fn open_err(fault: OpenErr) -> CacheErr
    ensures { result ≡ of_opening fault }
{
    match fault {
        OpenErr::OutOfMemory => CacheErr::OutOfMemory,
        OpenErr::NotAStore | OpenErr::Damaged { .. } | OpenErr::Failed => CacheErr::Failed,
    }
}

/// Counts a file that is no store.
fn count_damage(fault: OpenErr, damaged: &mut u64)
    ensures later { damaged.old ≤ damaged.new }
    ensures counted { is_damage fault ≡ true → Rose damaged.old damaged.new }
    ensures passed { is_damage fault ≡ false → damaged.new ≡ damaged.old }
{
    if let OpenErr::NotAStore | OpenErr::Damaged { .. } = fault {
        *damaged = damaged.saturating_add(1);
    }
}

/// Takes the turn and opens the store in its device again. Where that is not done the turn is not
/// held. A file that is no store is counted.
pub(crate) fn begin<H: Shared>(
    alloc: Global,
    shared: &mut H,
    mark: StoreMark,
    damaged: &mut u64,
) -> Result<Store<H::Device>, CacheErr>
    requires held { (H.turn shared.old).held ≡ false }
    requires mark { H.Device.tells → IsMarkOf mark (frames_of (H.content shared.old)) }
    requires sound { H.Device.tells → IsSound (H.content shared.old) }
    requires durable { H.Device.tells → Only (H.content shared.old) (H.images shared.old) }
    ensures turn { IfOk result
        (BeginsTurn H.Shared H.Device.StoreDevice shared.old shared.new) }
    ensures given { OnErr result ((H.turn shared.new).held ≡ false) }
    ensures began { (H.turn shared.new).began ≡ H.moment shared.old }
    ensures foresees { IfOk result (λ s. lengths_of s ≡ foreseen mark) }
    ensures file { H.Device.tells → LeavesFirst H.Shared shared.old shared.new }
    ensures grows { ends (H.coming shared.old) ≤ ends (H.coming shared.new) }
    ensures told { H.Device.tells → damaged.new ≡ damaged.old }
    ensures answers { IfErr result IsFindErr }
    ensures cause { Counts is_cache_fault (H.store_faults shared.old + damaged.old)
        (H.store_faults shared.new + damaged.new) result }
{
    let device = match shared.take(alloc) {
        Ok(device) => device,
        Err(fault) => return Err(turn_err(fault)),
    };
    match Store::resume(alloc, device, mark) {
        Ok(store) => Ok(store),
        Err(Unopened { fault, store }) => {
            count_damage(fault, damaged);
            match end_turn(shared, store) {
                Ok(()) => Err(open_err(fault)),
                Err(_) => Err(CacheErr::Failed),
            }
        }
    }
}

/// Ends the turn of a store, and tells what is known of its frames.
pub(crate) fn close<H: Shared>(
    shared: &mut H,
    store: Store<H::Device>,
) -> Result<StoreMark, TurnErr>
    requires { IsInTurn H.Shared H.Device.StoreDevice shared.old (device_of store) }
    ensures held { (H.turn shared.new).held ≡ false }
    ensures began { (H.turn shared.new).began ≡ (H.turn shared.old).began }
    ensures file { H.Device.tells → H.content shared.new ≡ H.Device.content (device_of store) }
    ensures sound { H.Device.tells → IsSound (H.content shared.new) }
    ensures mark { H.Device.tells
        → IfOk result (λ mark. IsMarkOf mark (frames_of (H.content shared.new))) }
    ensures foresees { IfOk result (λ mark. foreseen mark ≡ lengths_of store) }
    ensures durable { H.Device.tells
        → OnOk result (Only (H.content shared.new) (H.images shared.new)) }
    ensures time { H.Device.tells → GoesOn H.moment H.images_since shared.old shared.new
        (LeftInTurn (H.images shared.old)
        (H.Device.images_since (device_of store) (H.turn shared.old).start)) }
    ensures grows { ends (H.coming shared.old) ≤ ends (H.coming shared.new) }
    ensures only { IfErr result (λ e. e ≡ TurnErr.Failed) }
    ensures cause { Counts is_fault (H.store_faults shared.old
        + (H.Device.store_faults (device_of store) - (H.turn shared.old).count))
        (H.store_faults shared.new) result }
{
    let (mark, device) = store.rest();
    end_turn(shared, device)?;
    Ok(mark)
}
