// A device read in blocks.
ghost use Rattle.std.specs.Prelude.{true, ◌≡◌, ◌<◌, ◌↔◌, ◌+◌, ◌-◌, List, ℕ, min, length, drop, get_or, IfOk, IfErr, OnOk, IfSome, IfNone, IsTrue};
ghost use Rattle.store_dev.specs.Device.{OnlyReads};
ghost use Rattle.record_log.specs.Kinds.{Entry, lens_fit, frame_at};
ghost use Rattle.record_log.specs.Answers.{Counted, IsReadErr};

use crate::LogErr;
use crate::kind::{LONG_HEAD, OPEN};
use crate::seat::{Seat, seat_at};
use std::alloc::{AllocError, Global};
use store_dev::StoreDevice;

/// How many bytes are read at a time, so that small frames cost no read of their own.
const BLOCK: u64 = 4096;

/// A part of a device, as it was read.
#[derive(Drop)]
pub struct Window {
    at: u64,
    bytes: Vec<u8>,
}

impl Window {
    ghost use Rattle.record_log.specs.Window.{Shows, Covers};
    ghost use Rattle.record_log.specs.Seats.{IsLaid, seat_size};

    /// A window on nothing, with room for a block.
    pub fn new(alloc: Global) -> Result<Window, AllocError>
        ensures { (content : List ℕ) → IfOk result (λ window. Shows content window) }
    {
        let bytes = Vec::with_capacity(alloc, BLOCK as usize)?;
        Ok(Window { at: 0, bytes })
    }

    /// Moves the window, where it does not show the gate at that place and the head of a frame behind it, as far as the
    /// device goes.
    fn show<S: StoreDevice>(&mut self, device: &mut S, gate: u64, len: u64) -> Result<(), LogErr>
        requires gate { gate < len }
        requires len { S.tells → len ≡ length (S.content device.old) }
        requires shows { S.tells → Shows (S.content device.old) self.old }
        ensures shows { S.tells → OnOk result (Shows (S.content device.old) self.new) }
        ensures covers { OnOk result (Covers self.new gate (min (1 + LONG_HEAD) (len - gate))) }
        ensures reads { OnlyReads S.content S.images S.moment S.images_since
            device.old device.new }
        ensures answers { IfErr result IsReadErr }
        ensures cause { Counted (S.store_faults device.old) (S.store_faults device.new) result }
    {
        let left = len - gate;
        let end = self.at.saturating_add(self.bytes.len() as u64);
        if self.at <= gate {
            if gate + left.min(1 + LONG_HEAD) <= end {
                return Ok(());
            }
        }
        self.bytes.resize(left.min(BLOCK) as usize, 0)?;
        device.read_at(gate, self.bytes.as_mut_slice())?;
        self.at = gate;
        Ok(())
    }

    /// Whether the gate at that place is open.
    pub fn is_open<S: StoreDevice>(
        &mut self,
        device: &mut S,
        gate: u64,
        len: u64,
    ) -> Result<bool, LogErr>
        requires gate { gate < len }
        requires len { S.tells → len ≡ length (S.content device.old) }
        requires shows { S.tells → Shows (S.content device.old) self.old }
        ensures value { S.tells
            → IfOk result (λ b. IsTrue b ↔ (get_or (S.content device.old) gate 0 ≡ 1)) }
        ensures shows { S.tells → OnOk result (Shows (S.content device.old) self.new) }
        ensures covers { OnOk result (Covers self.new gate (min (1 + LONG_HEAD) (len - gate))) }
        ensures reads { OnlyReads S.content S.images S.moment S.images_since
            device.old device.new }
        ensures answers { IfErr result IsReadErr }
        ensures cause { Counted (S.store_faults device.old) (S.store_faults device.new) result }
    {
        self.show(device, gate, len)?;
        Ok(self.from(gate)[0] == OPEN)
    }

    /// The bytes that are shown from that place on.
    fn from(&self, at: u64) -> &[u8]
        requires { Covers self.now at 0 }
        ensures { result.now ≡ drop (at - self.now.at) self.now.bytes.items }
    {
        &self.bytes[(at - self.at) as usize..]
    }

    /// The seat of the frame behind the gate at that place, or `None` where no frame stands there.
    pub fn seat_behind(&self, gate: u64, len: u64) -> Option<Seat>
        requires gate { gate < len }
        requires covers { Covers self.now gate (min (1 + LONG_HEAD) (len - gate)) }
        ensures some { IfSome result (λ seat. (content : List ℕ) → Shows content self.now
            → len ≡ length content → IsLaid content seat) }
        ensures none { IfNone result ((before : List Entry) (content : List ℕ)
            → Shows content self.now → len ≡ length content
            → frame_at before (drop (gate + 1) content) ≡ None) }
        ensures place { IfSome result (λ seat. seat.at ≡ gate + 1) }
        ensures lens { IfSome result (λ seat.
            lens_fit seat.kind seat.key_len seat.value_len ≡ true) }
        ensures inside { IfSome result (λ seat. gate + (1 + seat_size seat) < len) }
    {
        seat_at(self.from(gate + 1), gate + 1, len - gate - 1)
    }
}
