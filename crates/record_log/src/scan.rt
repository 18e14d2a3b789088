// Going over the frames of a device.
ghost use Rattle.std.specs.Prelude.{◌≡◌, ◌≤◌, ◌<◌, ◌+◌, ◌-◌, List, true, [], length, take, drop, IfOk, IfErr};
ghost use Rattle.store_dev.specs.Device.{OnlyReads};
ghost use Rattle.record_log.specs.Kinds.{Entry, lens_fit, value_fits, generation_after};
ghost use Rattle.record_log.specs.Frames.{frames_of, reading, AtRest};
ghost use Rattle.record_log.specs.Seats.{IsSeatOf};
ghost use Rattle.record_log.specs.Answers.{Counted, IsOpenErr, IsReadErr, IsFaultOf, entry_of};
ghost use Rattle.record_log.specs.Kept.{IsIndex, IsIndexOf};

use crate::LogErr;
use crate::frame::Frame;
use crate::kind::{GENERATION, holds_record, is_long};
use crate::mark::{LogMark, generation_in};
use crate::piece::is_record;
use crate::seat::Seat;
use crate::window::Window;
use rel_path::{Bytes, Span};
use std::alloc::Global;
use store_dev::StoreDevice;

/// Goes on from what is known of the frames of a device to all of them. The device has more than nine bytes, which begin
/// with the magic.
pub fn index_of<S: StoreDevice>(
    alloc: Global,
    device: &mut S,
    len: u64,
    mark: LogMark,
) -> Result<LogMark, LogErr>
    requires inside { mark.end < len }
    requires long { 9 < len }
    requires len { S.tells → len ≡ length (S.content device.old) }
    requires known { S.tells → (es : List Entry) × IsIndex (S.content device.old) es mark }
    ensures found { S.tells → IfOk result (λ mark.
        AtRest (S.content device.old) (frames_of (S.content device.old)) mark.end
        × IsIndexOf mark (frames_of (S.content device.old))) }
    ensures fault { S.tells → IsFaultOf result (reading (S.content device.old)) }
    ensures reads { OnlyReads S.content S.images S.moment S.images_since device.old device.new }
    ensures answers { IfErr result IsOpenErr }
    ensures cause { Counted (S.store_faults device.old) (S.store_faults device.new) result }
{
    let mut mark = mark;
    let mut window = Window::new(alloc)?;
    while window.is_open(device, mark.end, len)? {
        let Some(seat) = window.seat_behind(mark.end, len) else {
            return Err(LogErr::Damaged { at: mark.end + 1 });
        };
        if !is_formed(alloc, device, seat, mark.contents)? {
            return Err(LogErr::Damaged { at: mark.end + 1 });
        }
        let generation = generation_behind(device, seat, mark.generation)?;
        mark.push(seat, generation)?;
    }
    Ok(mark)
}

/// Whether the value of a frame is one that its kind may have, where so many contents stand before it. The value of a
/// record alone is read.
fn is_formed<S: StoreDevice>(
    alloc: Global,
    device: &mut S,
    seat: Seat,
    contents: u64,
) -> Result<bool, LogErr>
    requires { S.tells → (e : Entry) × IsSeatOf (S.content device.old) seat e }
    ensures value { S.tells → (e : Entry) → IsSeatOf (S.content device.old) seat e
        → IfOk result (λ b. b ≡ value_fits contents e.kind e.value) }
    ensures reads { OnlyReads S.content S.images S.moment S.images_since device.old device.new }
    ensures answers { IfErr result IsReadErr }
    ensures cause { Counted (S.store_faults device.old) (S.store_faults device.new) result }
{
    if !holds_record(seat.kind) {
        return Ok(true);
    }
    let value = part_at(alloc, device, seat.value())?;
    Ok(is_record(is_long(seat.kind), contents, value.as_slice()))
}

/// The generation behind a frame, where the store has that one before it.
fn generation_behind<S: StoreDevice>(
    device: &mut S,
    seat: Seat,
    generation: u64,
) -> Result<u64, LogErr>
    requires lens { lens_fit seat.kind seat.key_len seat.value_len ≡ true }
    requires seat { S.tells → (e : Entry) × IsSeatOf (S.content device.old) seat e }
    ensures value { S.tells → (e : Entry) → IsSeatOf (S.content device.old) seat e
        → IfOk result (λ n. n ≡ generation_after generation e) }
    ensures reads { OnlyReads S.content S.images S.moment S.images_since device.old device.new }
    ensures answers { IfErr result IsReadErr }
    ensures cause { Counted (S.store_faults device.old) (S.store_faults device.new) result }
{
    if seat.kind != GENERATION {
        return Ok(generation);
    }
    let mut key = [0; 8];
    device.read_at(seat.key().at, &mut key)?;
    Ok(generation_in(seat.kind, &key, generation))
}

/// The frame that stands there.
pub fn read_frame<S: StoreDevice>(
    alloc: Global,
    device: &mut S,
    seat: Seat,
) -> Result<Frame, LogErr>
    requires { S.tells → (e : Entry) × IsSeatOf (S.content device.old) seat e }
    ensures frame { S.tells → (e : Entry) → IsSeatOf (S.content device.old) seat e
        → IfOk result (λ f. entry_of f ≡ e) }
    ensures reads { OnlyReads S.content S.images S.moment S.images_since device.old device.new }
    ensures answers { IfErr result IsReadErr }
    ensures cause { Counted (S.store_faults device.old) (S.store_faults device.new) result }
{
    let key = part_at(alloc, device, seat.key())?;
    let value = part_at(alloc, device, seat.value())?;
    Ok(Frame {
        kind: seat.kind,
        key: Bytes::from_vec(key),
        value: Bytes::from_vec(value),
    })
}

/// The bytes of a range.
fn part_at<S: StoreDevice>(alloc: Global, device: &mut S, span: Span) -> Result<Vec<u8>, LogErr>
    requires { S.tells → span.at + span.len ≤ length (S.content device.old) }
    ensures value { S.tells
        → IfOk result (λ v. v.items ≡ take span.len (drop span.at (S.content device.old))) }
    ensures reads { OnlyReads S.content S.images S.moment S.images_since device.old device.new }
    ensures answers { IfErr result IsReadErr }
    ensures cause { Counted (S.store_faults device.old) (S.store_faults device.new) result }
{
    let mut part = vec![in alloc; 0; span.len as usize]?;
    device.read_at(span.at, part.as_mut_slice())?;
    Ok(part)
}
