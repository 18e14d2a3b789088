// What is known of the frames of a device.
ghost use Rattle.std.specs.Prelude.{◌≡◌, ◌<◌, ◌≤◌, ◌^◌, ◌+◌, ◌-◌, ◌∷◌, ◌++◌, [], true, ℕ, List, length, OnOk, IsOk, vec_len, vec_capacity};
ghost use Rattle.record_log.specs.Kinds.{Entry, entry, form, generation_after};

use crate::frame::NewFrame;
use crate::kind::{CONTENT, GATE, GENERATION, GENERATION_BYTES, head_of};
use crate::number::number_at;
use crate::seat::Seat;
use std::alloc::{AllocError, Global};

/// What a log knows of the frames of its device: where each stands and where they end, how many of them hold contents,
/// and their generation.
#[derive(Debug, Drop)]
pub struct LogMark {
    pub(crate) seats: Vec<Seat>,
    // The gate behind the last frame.
    pub(crate) end: u64,
    pub(crate) contents: u64,
    pub(crate) generation: u64,
    ghost small: { end < 2 ^ 64 - 1 },
}

impl LogMark {
    ghost use Rattle.record_log.specs.Kinds.{contents_after, size};
    ghost use Rattle.record_log.specs.Seats.{seat_of, seat_size};
    ghost use Rattle.record_log.specs.Frames.{opened, all_formed};
    ghost use Rattle.record_log.specs.Batch.{new_entries};
    ghost use Rattle.record_log.specs.Kept.{IsIndexOf};

    /// Of no frames.
    pub fn new(alloc: Global) -> LogMark
        ensures seats { result.seats.items ≡ [] }
        ensures end { result.end ≡ GATE }
        ensures contents { result.contents ≡ 0 }
        ensures generation { result.generation ≡ 0 }
    {
        LogMark {
            seats: Vec::new(alloc),
            end: GATE,
            contents: 0,
            generation: 0,
        }
    }

    /// Takes in the frame behind the last gate, behind which the store has that generation.
    pub fn push(&mut self, seat: Seat, generation: u64) -> Result<(), AllocError>
        requires { self.old.end + (1 + seat_size seat) < 2 ^ 64 - 1 }
        ensures seats { OnOk result (self.new.seats.items ≡ self.old.seats.items ++ seat ∷ []) }
        ensures count { OnOk result (vec_len self.new.seats ≡ vec_len self.old.seats + 1) }
        ensures end { OnOk result (self.new.end ≡ self.old.end + (1 + seat_size seat)) }
        ensures contents { OnOk result (self.new.contents
            ≡ contents_after self.old.contents seat.kind) }
        ensures generation { OnOk result (self.new.generation ≡ generation) }
        ensures capacity { vec_capacity self.old.seats ≤ vec_capacity self.new.seats }
        ensures succeeds { vec_len self.old.seats < vec_capacity self.old.seats → IsOk result }
    {
        self.seats.push(seat)?;
        self.end += 1 + (head_of(seat.kind) + (seat.key_len + seat.value_len));
        if seat.kind == CONTENT {
            self.contents = self.contents.saturating_add(1);
        }
        self.generation = generation;
        Ok(())
    }

    /// Takes in such a frame, as it was appended. There is room where it was taken before.
    pub fn learn(&mut self, kind: u8, key: &[u8], value: &[u8]) -> Result<(), AllocError>
        requires { self.old.end + (size (entry kind key.now value.now) + 1) < 2 ^ 64 - 1 }
        ensures seats { OnOk result (self.new.seats.items ≡ self.old.seats.items
            ++ seat_of (self.old.end + 1) (entry kind key.now value.now) ∷ []) }
        ensures count { OnOk result (vec_len self.new.seats ≡ vec_len self.old.seats + 1) }
        ensures end { OnOk result (self.new.end
            ≡ self.old.end + (size (entry kind key.now value.now) + 1)) }
        ensures contents { OnOk result (self.new.contents
            ≡ contents_after self.old.contents kind) }
        ensures generation { OnOk result ((contents : ℕ)
            → form contents (entry kind key.now value.now) ≡ true
            → self.new.generation
            ≡ generation_after self.old.generation (entry kind key.now value.now)) }
        ensures capacity { vec_capacity self.old.seats ≤ vec_capacity self.new.seats }
        ensures succeeds { vec_len self.old.seats < vec_capacity self.old.seats → IsOk result }
    {
        let seat = Seat {
            kind,
            at: self.end + 1,
            key_len: key.len() as u64,
            value_len: value.len() as u64,
        };
        let generation = generation_in(kind, key, self.generation);
        self.push(seat, generation)?;
        Ok(())
    }

    /// Takes in such frames, one after another. There is room where it was taken before.
    pub fn learn_all(&mut self, frames: &[NewFrame]) -> Result<(), AllocError>
        requires { self.old.end + length (opened (new_entries frames.now)) < 2 ^ 64 - 1 }
        ensures index { OnOk result ((es : List Entry) → IsIndexOf self.old es
            → all_formed es (new_entries frames.now) ≡ true
            → IsIndexOf self.new (es ++ new_entries frames.now)) }
        ensures end { OnOk result (self.new.end
            ≡ self.old.end + length (opened (new_entries frames.now))) }
        ensures count { OnOk result (vec_len self.new.seats
            ≡ vec_len self.old.seats + length frames.now) }
        ensures succeeds { vec_len self.old.seats + length frames.now ≤ vec_capacity self.old.seats
            → IsOk result }
    {
        for frame in frames {
            self.learn(frame.kind, frame.key, frame.value)?;
        }
        Ok(())
    }
}

/// The generation behind a frame with that kind and key, where the store has that one before it.
pub fn generation_in(kind: u8, key: &[u8], generation: u64) -> u64
    ensures { (kind ≡ GENERATION → length key.now ≡ GENERATION_BYTES)
        → result ≡ generation_after generation (entry kind key.now []) }
{
    if kind != GENERATION {
        return generation;
    }
    match number_at(true, key) {
        Some((number, _)) => number,
        None => generation,
    }
}
