// Opening a device as a log.
ghost use Rattle.std.specs.Prelude.{◌==◌, [], get_or, ◌≡◌, ◌<◌, ◌+◌, ◌-◌, List, ℕ, length, take, OnOk, IfOk, IfErr};
ghost use Rattle.std.specs.Str.{bytes_eq};
ghost use Rattle.store_dev.specs.Device.{Only, OnlyReads, LeavesOnly};
ghost use Rattle.record_log.specs.Frames.{frames_of, reading, magic, IsOpenedAs, IsSound, ReadsAsOneOf, ReadsAsOneOrNone};
ghost use Rattle.record_log.specs.Answers.{Counted, IsOpenErr, IsReadErr, IsFaultOf};
ghost use Rattle.record_log.specs.Kept.{Kept, IsMarkOf};

use crate::LogErr;
use crate::kind::{CLOSED, GATE, OPEN};
use crate::mark::LogMark;
use crate::scan::index_of;
use crate::steps::put_synced;
use std::alloc::Global;
use store_dev::StoreDevice;

/// How a store begins.
pub const MAGIC: [u8; 8] = *b"TURBSTO1";

/// An empty store: the magic, and a gate that is closed.
const EMPTY: [u8; 9] = *b"TURBSTO1\0";

/// A sync, and how many bytes there are.
fn settle<S: StoreDevice>(device: &mut S) -> Result<u64, LogErr>
    ensures len { S.tells → IfOk result (λ n. n ≡ length (S.content device.old)) }
    ensures durable { S.tells → OnOk result (Only (S.content device.old) (S.images device.new)) }
    ensures reads { OnlyReads S.content S.images S.moment S.images_since device.old device.new }
    ensures answers { IfErr result IsReadErr }
    ensures cause { Counted (S.store_faults device.old) (S.store_faults device.new) result }
{
    device.sync()?;
    Ok(device.len()?)
}

/// Whether the device begins as a store does.
fn has_magic<S: StoreDevice>(device: &mut S) -> Result<bool, LogErr>
    requires { S.tells → 9 < length (S.content device.old) }
    ensures value { S.tells
        → IfOk result (λ b. b ≡ bytes_eq (take 8 (S.content device.old)) magic) }
    ensures reads { OnlyReads S.content S.images S.moment S.images_since device.old device.new }
    ensures answers { IfErr result IsReadErr }
    ensures cause { Counted (S.store_faults device.old) (S.store_faults device.new) result }
{
    let mut front = [0; 8];
    device.read_at(0, &mut front)?;
    Ok(front.as_slice() == MAGIC.as_slice())
}

/// Goes on from what is known of the frames of a device to all of them, and writes an empty store where there are at
/// most nine bytes. It syncs first, since before that a crash may leave less than what is read.
pub fn start<S: StoreDevice>(
    alloc: Global,
    device: &mut S,
    mark: LogMark,
) -> Result<LogMark, LogErr>
    requires { S.tells → IsMarkOf mark (frames_of (S.content device.old)) }
    ensures kept { S.tells
        → IfOk result (λ mark. Kept (S.content device.new) (S.images device.new) mark) }
    ensures opened { S.tells
        → OnOk result (IsOpenedAs (S.content device.old) (S.content device.new)) }
    ensures same { S.tells → 9 < length (S.content device.old)
        → S.content device.new ≡ S.content device.old }
    ensures fault { S.tells → IsFaultOf result (reading (S.content device.old)) }
    ensures images { S.tells → LeavesOnly S.moment S.images_since device.old device.new
        (ReadsAsOneOf (S.images device.old)) }
    ensures answers { IfErr result IsOpenErr }
    ensures cause { Counted (S.store_faults device.old) (S.store_faults device.new) result }
{
    let len = settle(device)?;
    if len <= GATE + 1 {
        put_synced(alloc, device, 0, &EMPTY)?;
        return Ok(LogMark::new(alloc));
    }
    if !has_magic(device)? {
        return Err(LogErr::NotAStore);
    }
    // A device that does not tell its bytes may be shorter than it was.
    if mark.end >= len {
        return Err(LogErr::Damaged { at: mark.end + 1 });
    }
    let mark = index_of(alloc, device, len, mark)?;
    Ok(mark)
}

/// Whether the first gate is open, of a device with more than nine bytes.
fn first_is_open<S: StoreDevice>(device: &mut S) -> Result<bool, LogErr>
    requires { S.tells → 9 < length (S.content device.old) }
    ensures value { S.tells → IfOk result (λ b. b ≡ (get_or (S.content device.old) GATE 0 == 1)) }
    ensures reads { OnlyReads S.content S.images S.moment S.images_since device.old device.new }
    ensures answers { IfErr result IsReadErr }
    ensures cause { Counted (S.store_faults device.old) (S.store_faults device.new) result }
{
    let mut gate = [0; 1];
    device.read_at(GATE, &mut gate)?;
    Ok(gate[0] == OPEN)
}

/// Closes the first gate of a store, so that none of its frames counts, and writes an empty store where there are at most
/// nine bytes.
pub fn clear<S: StoreDevice>(alloc: Global, device: &mut S) -> Result<LogMark, LogErr>
    requires { S.tells → (c : List ℕ) → S.images device.old c → IsSound c }
    ensures kept { S.tells
        → IfOk result (λ mark. Kept (S.content device.new) (S.images device.new) mark) }
    ensures none { S.tells → OnOk result (frames_of (S.content device.new) ≡ []) }
    ensures images { S.tells → LeavesOnly S.moment S.images_since device.old device.new
        (ReadsAsOneOrNone (S.images device.old)) }
    ensures answers { IfErr result IsReadErr }
    ensures cause { Counted (S.store_faults device.old) (S.store_faults device.new) result }
{
    let len = settle(device)?;
    if len <= GATE + 1 {
        put_synced(alloc, device, 0, &EMPTY)?;
        return Ok(LogMark::new(alloc));
    }
    if !first_is_open(device)? {
        return Ok(LogMark::new(alloc));
    }
    put_synced(alloc, device, GATE, &[CLOSED])?;
    Ok(LogMark::new(alloc))
}
