// What opening and appending do to a device.
ghost use Rattle.std.specs.Prelude.{◌≡◌, ◌≤◌, ◌<◌, ◌^◌, ◌+◌, ◌++◌, true, [], length, OnOk, IsErrOf};
ghost use Rattle.rel_path.specs.Causes.{Counts};
ghost use Rattle.store_dev.specs.Device.{Holds, Only, Torn, Elapses, LeavesOnly, SameWith, After};
ghost use Rattle.store_dev.specs.Errors.{is_fault};
ghost use Rattle.record_log.specs.Frames.{AtRest, frames_of, opened, all_formed};
ghost use Rattle.record_log.specs.Batch.{new_entries, EachWithin, IsBeforeOrAll};

use crate::frame::{NewFrame, opened_bytes};
use crate::kind::OPEN;
use std::alloc::Global;
use store_dev::{StoreDevice, StoreErr};

/// A write and a sync.
pub fn put_synced<S: StoreDevice>(
    alloc: Global,
    device: &mut S,
    at: u64,
    bytes: &[u8],
) -> Result<(), StoreErr>
    requires place { S.tells → at ≤ length (S.content device.old) }
    requires end { at + length bytes.now ≤ 2 ^ 62 }
    ensures written { S.tells → OnOk result (
        Holds (S.content device.old) at bytes.now (S.content device.new)
        × Only (S.content device.new) (S.images device.new)) }
    ensures memory { IsErrOf result StoreErr.OutOfMemory
        → SameWith (S.content device.old) (S.content device.new)
        (S.images device.old) (S.images device.new) }
    ensures time { Elapses (S.moment device.old) (S.moment device.new) (S.images_since device.old)
        (S.images_since device.new) (After (Torn at (length bytes.now)) (S.images device.old)) }
    ensures cause { Counts is_fault
        (S.store_faults device.old) (S.store_faults device.new) result }
{
    device.write_at(alloc, at, bytes)?;
    device.sync()
}

/// Puts frames behind the gate at that place, all of them before the gate is opened.
pub fn write_frames<S: StoreDevice>(
    alloc: Global,
    device: &mut S,
    end: u64,
    frames: &[NewFrame],
) -> Result<(), StoreErr>
    requires some { 0 < length frames.now }
    requires form { S.tells
        → all_formed (frames_of (S.content device.old)) (new_entries frames.now) ≡ true }
    requires short { EachWithin (new_entries frames.now) }
    requires room { end + (length (opened (new_entries frames.now)) + 1) ≤ 2 ^ 62 }
    requires rest { S.tells
        → AtRest (S.content device.old) (frames_of (S.content device.old)) end }
    requires durable { S.tells → Only (S.content device.old) (S.images device.old) }
    ensures written { S.tells → OnOk result (AtRest (S.content device.new)
        (frames_of (S.content device.old) ++ new_entries frames.now)
        (end + length (opened (new_entries frames.now)))) }
    ensures memory { S.tells → IsErrOf result StoreErr.OutOfMemory
        → AtRest (S.content device.new) (frames_of (S.content device.old)) end }
    ensures durable { S.tells → OnOk result (Only (S.content device.new) (S.images device.new)) }
    ensures memory_durable { S.tells → IsErrOf result StoreErr.OutOfMemory
        → Only (S.content device.new) (S.images device.new) }
    ensures images { S.tells → LeavesOnly S.moment S.images_since device.old device.new
        (IsBeforeOrAll (frames_of (S.content device.old)) (new_entries frames.now)) }
    ensures cause { Counts is_fault
        (S.store_faults device.old) (S.store_faults device.new) result }
{
    let bytes = opened_bytes(alloc, frames)?;
    let body = &bytes.as_slice()[1..];
    put_synced(alloc, device, end + 1, body)?;
    put_synced(alloc, device, end, &[OPEN])?;
    Ok(())
}
