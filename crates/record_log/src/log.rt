// The frames of a device.
ghost use Rattle.std.specs.Prelude.{true, ◌≡◌, ◌⊎◌, ◌≤◌, ◌<◌, ◌+◌, ◌-◌, ◌++◌, List, ℕ, [], ◌∷◌, length, take, drop, OnOk, OnErr, IfOk, IfErr, IsTrue};
ghost use Rattle.rel_path.specs.Limits.{store_limit};
ghost use Rattle.record_log.specs.Kept.{Kept, Front};

use crate::frame::{NewFrame, need_of_all};
use crate::open::{clear, start};
use crate::scan::read_frame;
use crate::steps::write_frames;
use crate::{Frame, LogErr, LogMark, Unopened};
use rel_path::Span;
use rel_path::limits::MAX_STORE_BYTES;
use std::alloc::Global;
use store_dev::{StoreDevice, StoreErr};

/// A device that was opened as a log. It keeps where each frame stands, so that any one is found without the others.
#[derive(Drop)]
pub struct Log<S: StoreDevice> {
    device: S,
    mark: LogMark,
    whole: bool,
    probes: u64,
    pub ghost front: { S.tells → Front (S.content device) mark },
    pub ghost kept: { IsTrue whole → S.tells → Kept (S.content device) (S.images device) mark },
}

impl<S: StoreDevice> Log<S> {
    ghost use Rattle.store_dev.specs.Device.{LeavesOnly};
    ghost use Rattle.record_log.specs.Kinds.{Entry, entry, limit_of, is_known, form, blobs, room_for};
    ghost use Rattle.record_log.specs.Frames.{frames_of, reading, IsAt, IsBeforeOrAfter, IsOpenedAs, ReadsAsOneOf, ends, text_of};
    ghost use Rattle.record_log.specs.Frames.{all_formed, opened, IsSound, ReadsAsOneOrNone};
    ghost use Rattle.record_log.specs.Kept.{IsMarkOf, marked};
    ghost use Rattle.record_log.specs.Batch.{new_entries, AllKnown, EachWithin, room_for_all, IsBeforeOrAll};
    ghost use Rattle.record_log.specs.Seats.{IsWithin, IsSpanOf, capped};
    ghost use Rattle.record_log.specs.Log.{device_of, frames_in, count_of, is_whole, room_of, probes_of, generation_in};
    ghost use Rattle.record_log.specs.Log.{IsDurable, OnlyReadIn, CountsIn, LeavesOnlyIn};
    ghost use Rattle.record_log.specs.Answers.{Counted, IsOpenErr, IsAppendErr, IsReadErr, IsFaultOf, raised, entry_of, WholeAfter, IsFullWhere};

    /// Opens a device as a log, whose frames are those that the device holds. At most nine bytes are an empty store,
    /// which is then written. What is no store is handed back as it was.
    pub fn open(alloc: Global, store: S) -> Result<Log<S>, Unopened<S, LogErr>>
        ensures ok { S.tells
            → IfOk result (λ log. IsOpenedAs (S.content store) (S.content (device_of log))) }
        ensures whole { IfOk result (λ log. IsTrue (is_whole log)) }
        ensures probes { IfOk result (λ log. probes_of log ≡ 0) }
        ensures fault { S.tells
            → IfErr result (λ u. IsFaultOf (raised u.fault) (reading (S.content store))) }
        ensures answers { IfErr result (λ u. IsOpenErr u.fault) }
        ensures same { S.tells → 9 < length (S.content store)
            → IfErr result (λ u. S.content u.store ≡ S.content store) }

        // Whatever it answers, each image since it began stands for what one of the images stood for as it began.
        ensures images_ok { S.tells → IfOk result (λ log.
            LeavesOnly S.moment S.images_since store (device_of log)
            (ReadsAsOneOf (S.images store))) }
        ensures images_err { S.tells → IfErr result (λ u.
            LeavesOnly S.moment S.images_since store u.store
            (ReadsAsOneOf (S.images store))) }
        ensures durable { S.tells → IfOk result (λ log. IsDurable log) }
        ensures cause_ok { IfOk result (λ log.
            S.store_faults (device_of log) ≡ S.store_faults store) }
        ensures cause_err { IfErr result (λ u.
            Counted (S.store_faults store) (S.store_faults u.store) (raised u.fault)) }
    {
        Log::resume(alloc, store, LogMark::new(alloc))
    }

    /// Opens a device again of whose frames so many are known, and reads those behind them alone. It answers as `open`.
    pub fn resume(alloc: Global, store: S, mark: LogMark) -> Result<Log<S>, Unopened<S, LogErr>>
        requires { S.tells → IsMarkOf mark (frames_of (S.content store)) }
        ensures ok { S.tells
            → IfOk result (λ log. IsOpenedAs (S.content store) (S.content (device_of log))) }
        ensures whole { IfOk result (λ log. IsTrue (is_whole log)) }
        ensures probes { IfOk result (λ log. probes_of log ≡ 0) }
        ensures fault { S.tells
            → IfErr result (λ u. IsFaultOf (raised u.fault) (reading (S.content store))) }
        ensures answers { IfErr result (λ u. IsOpenErr u.fault) }
        ensures same { S.tells → 9 < length (S.content store)
            → IfErr result (λ u. S.content u.store ≡ S.content store) }

        // Whatever it answers, each image since it began stands for what one of the images stood for as it began.
        ensures images_ok { S.tells → IfOk result (λ log.
            LeavesOnly S.moment S.images_since store (device_of log)
            (ReadsAsOneOf (S.images store))) }
        ensures images_err { S.tells → IfErr result (λ u.
            LeavesOnly S.moment S.images_since store u.store
            (ReadsAsOneOf (S.images store))) }
        ensures durable { S.tells → IfOk result (λ log. IsDurable log) }
        ensures cause_ok { IfOk result (λ log.
            S.store_faults (device_of log) ≡ S.store_faults store) }
        ensures cause_err { IfErr result (λ u.
            Counted (S.store_faults store) (S.store_faults u.store) (raised u.fault)) }
    {
        let mut device = store;
        match start(alloc, &mut device, mark) {
            Ok(mark) => Ok(Log {
                device,
                mark,
                whole: true,
                probes: 0,
            }),
            Err(fault) => Err(Unopened {
                fault,
                store: device,
            }),
        }
    }

    /// Opens a device as an empty log: no frame of it counts any more. It asks that a crash leaves nothing but stores.
    pub fn reset(alloc: Global, store: S) -> Result<Log<S>, Unopened<S, LogErr>>
        requires { S.tells → (c : List ℕ) → S.images store c → IsSound c }
        ensures frames { S.tells → IfOk result (λ log. frames_in log ≡ []) }
        ensures whole { IfOk result (λ log. IsTrue (is_whole log)) }
        ensures probes { IfOk result (λ log. probes_of log ≡ 0) }
        ensures answers { IfErr result (λ u. IsReadErr u.fault) }

        // Whatever it answers, each image since it began stands for what one of the images stood for as it began, or for
        // no frames.
        ensures images_ok { S.tells → IfOk result (λ log.
            LeavesOnly S.moment S.images_since store (device_of log)
            (ReadsAsOneOrNone (S.images store))) }
        ensures images_err { S.tells → IfErr result (λ u.
            LeavesOnly S.moment S.images_since store u.store
            (ReadsAsOneOrNone (S.images store))) }
        ensures durable { S.tells → IfOk result (λ log. IsDurable log) }
        ensures cause_ok { IfOk result (λ log.
            S.store_faults (device_of log) ≡ S.store_faults store) }
        ensures cause_err { IfErr result (λ u.
            Counted (S.store_faults store) (S.store_faults u.store) (raised u.fault)) }
    {
        let mut device = store;
        match clear(alloc, &mut device) {
            Ok(mark) => Ok(Log {
                device,
                mark,
                whole: true,
                probes: 0,
            }),
            Err(fault) => Err(Unopened {
                fault,
                store: device,
            }),
        }
    }

    /// The device, as the last call left it.
    pub fn device(self) -> S
        ensures { result ≡ device_of self }
    {
        self.device
    }

    /// The device, as the last call left it, with what is known of its frames, for a later `resume`.
    pub fn rest(self) -> (LogMark, S)
        ensures device { result.1 ≡ device_of self }
        ensures count { marked result.0 ≡ count_of self }
        ensures mark { S.tells → IsMarkOf result.0 (frames_of (S.content result.1)) }
        ensures all { IsTrue (is_whole self) → S.tells
            → marked result.0 ≡ length (frames_of (S.content result.1)) }
    {
        (self.mark, self.device)
    }

    /// Whether the log may be appended to. It is so from its opening until an append answers `Failed`, after which the store
    /// is to be opened again.
    pub fn whole(&self) -> bool
        ensures { result ≡ is_whole self.now }
    {
        self.whole
    }

    /// How many frames there are.
    pub fn frames(&self) -> u64
        ensures count { result ≡ count_of self.now }
        ensures frames { IsTrue (is_whole self.now) → S.tells
            → result ≡ length (frames_in self.now) }
        ensures few { S.tells → result ≤ length (frames_in self.now) }
    {
        self.mark.seats.len() as u64
    }

    /// How many bytes more the frames may take, each with the gate behind it.
    pub fn room(&self) -> u64
        ensures room { result ≡ room_of self.now }
        ensures frames { IsTrue (is_whole self.now) → S.tells
            → result ≡ store_limit - ends (frames_in self.now) }
    {
        MAX_STORE_BYTES.saturating_sub(self.mark.end + 1)
    }

    /// How often its frames have been read by number or by place since it was opened, at most the greatest `u64`.
    pub fn probes(&self) -> u64
        ensures { result ≡ probes_of self.now }
    {
        self.probes
    }

    /// The generation of the frames: the number in the last frame of that kind, or 0 without one.
    pub fn generation(&self) -> u64
        ensures { IsTrue (is_whole self.now) → S.tells → result ≡ generation_in self.now }
    {
        self.mark.generation
    }

    /// The kind of the frame with that number. Neither it nor the two calls below read anything.
    pub fn kind_at(&self, number: u64) -> u8
        requires { number < count_of self.now }
        ensures { S.tells → (e : Entry) → IsAt (frames_in self.now) number e → result ≡ e.kind }
    {
        let seat = self.mark.seats[number as usize];
        seat.kind
    }

    /// Where its key stands in the text of the frames.
    pub fn key_span(&self, number: u64) -> Span
        requires { number < count_of self.now }
        ensures { S.tells → (e : Entry) → IsAt (frames_in self.now) number e
            → IsSpanOf (text_of (frames_in self.now)) result e.key }
    {
        let seat = self.mark.seats[number as usize];
        seat.key()
    }

    /// Where its value stands.
    pub fn value_span(&self, number: u64) -> Span
        requires { number < count_of self.now }
        ensures { S.tells → (e : Entry) → IsAt (frames_in self.now) number e
            → IsSpanOf (text_of (frames_in self.now)) result e.value }
    {
        let seat = self.mark.seats[number as usize];
        seat.value()
    }

    /// The frame with that number.
    pub fn frame_at(&mut self, alloc: Global, number: u64) -> Result<Frame, LogErr>
        requires { number < count_of self.old }
        ensures frame { S.tells
            → IfOk result (λ f. IsAt (frames_in self.old) number (entry_of f)) }
        ensures reads { OnlyReadIn self.old self.new }
        ensures whole { is_whole self.new ≡ is_whole self.old }
        ensures count { count_of self.new ≡ count_of self.old }
        ensures room { room_of self.new ≡ room_of self.old }
        ensures probes { probes_of self.new ≡ capped (probes_of self.old) 1 }
        ensures more { probes_of self.old ≤ probes_of self.new }
        ensures answers { IfErr result IsReadErr }
        ensures cause { CountsIn self.old self.new result }
    {
        self.probes = self.probes.saturating_add(1);
        let seat = self.mark.seats[number as usize];
        let frame = read_frame(alloc, &mut self.device, seat)?;
        Ok(frame)
    }

    /// Fills the buffer with that part of the text of the frames. It takes no memory.
    pub fn read_span(&mut self, at: u64, to: &mut [u8]) -> Result<(), LogErr>
        requires { S.tells → IsWithin (text_of (frames_in self.old)) at (length to.old) }
        ensures value { S.tells → OnOk result (to.new
            ≡ take (length to.old) (drop at (text_of (frames_in self.old)))) }
        ensures reads { OnlyReadIn self.old self.new }
        ensures whole { is_whole self.new ≡ is_whole self.old }
        ensures count { count_of self.new ≡ count_of self.old }
        ensures room { room_of self.new ≡ room_of self.old }
        ensures probes { probes_of self.new ≡ capped (probes_of self.old) 1 }
        ensures more { probes_of self.old ≤ probes_of self.new }
        ensures answers { IfErr result (λ e. e ≡ LogErr.Failed) }
        ensures cause { CountsIn self.old self.new result }
    {
        self.probes = self.probes.saturating_add(1);
        self.device.read_at(at, to)?;
        Ok(())
    }

    /// Adds a frame, and answers its number. After `Failed` the store is to be opened again.
    pub fn append(
        &mut self,
        alloc: Global,
        kind: u8,
        key: &[u8],
        value: &[u8],
    ) -> Result<u64, LogErr>
        requires whole { IsTrue (is_whole self.old) }
        requires known { IsTrue (is_known kind) }
        requires form { S.tells
            → IsTrue (form (blobs (frames_in self.old)) (entry kind key.now value.now)) }
        requires key_len { length key.now < limit_of kind }
        requires value_len { length value.now < limit_of kind }

        ensures frames { S.tells → OnOk result (frames_in self.new
            ≡ frames_in self.old ++ entry kind key.now value.now ∷ []) }
        ensures number { IfOk result (λ n. n ≡ count_of self.old) }
        ensures place { S.tells → IfOk result (λ n. n ≡ length (frames_in self.old)) }
        ensures count { OnOk result (count_of self.new ≡ count_of self.old + 1) }
        ensures unchanged { S.tells
            → IfErr result (λ e. (e ≡ LogErr.Failed) ⊎ (frames_in self.new ≡ frames_in self.old)) }
        ensures same_count { OnErr result (count_of self.new ≡ count_of self.old) }
        ensures whole { WholeAfter result (is_whole self.old) (is_whole self.new) }

        ensures room { room_of self.new ≤ room_of self.old }
        ensures limit { IsFullWhere result
            (room_for (entry kind key.now value.now)) (room_of self.old) }
        ensures full { S.tells → IsFullWhere result
            (room_for (entry kind key.now value.now)) (store_limit - ends (frames_in self.old)) }
        ensures probes { probes_of self.new ≡ probes_of self.old }
        ensures answers { IfErr result IsAppendErr }
        ensures cause { CountsIn self.old self.new result }

        // Whatever it answers, each image since the call began has the frames from before it, or these and the new one.
        ensures images { S.tells → LeavesOnlyIn self.old self.new
            (IsBeforeOrAfter (frames_in self.old) (entry kind key.now value.now)) }
        ensures durable { S.tells → OnOk result (IsDurable self.new) }
    {
        self.append_all(alloc, &[NewFrame { kind, key, value }])
    }

    /// Adds frames, all of them or none, and answers the number of the first. After `Failed` the store is to be opened
    /// again. The bytes are those of as many single appends, and the disk is waited for twice.
    pub fn append_all(&mut self, alloc: Global, frames: &[NewFrame]) -> Result<u64, LogErr>
        requires whole { IsTrue (is_whole self.old) }
        requires known { AllKnown (new_entries frames.now) }
        requires lengths { EachWithin (new_entries frames.now) }
        requires form { S.tells → all_formed (frames_in self.old) (new_entries frames.now) ≡ true }

        ensures frames { S.tells
            → OnOk result (frames_in self.new ≡ frames_in self.old ++ new_entries frames.now) }
        // Whatever it answers, the frames are those before, or these and all the new ones.
        ensures after { S.tells → (frames_in self.new ≡ frames_in self.old)
            ⊎ (frames_in self.new ≡ frames_in self.old ++ new_entries frames.now) }
        ensures unchanged { S.tells
            → IfErr result (λ e. (e ≡ LogErr.Failed) ⊎ (frames_in self.new ≡ frames_in self.old)) }
        ensures number { IfOk result (λ n. n ≡ count_of self.old) }
        ensures count { OnOk result (count_of self.new ≡ count_of self.old + length frames.now) }
        ensures same_count { OnErr result (count_of self.new ≡ count_of self.old) }
        ensures whole { WholeAfter result (is_whole self.old) (is_whole self.new) }

        ensures room { room_of self.new ≤ room_of self.old }
        ensures taken { OnOk result (room_of self.new + length (opened (new_entries frames.now))
            ≤ room_of self.old) }
        ensures limit { IsFullWhere result
            (room_for_all (new_entries frames.now)) (room_of self.old) }
        ensures full { S.tells → IsFullWhere result
            (room_for_all (new_entries frames.now)) (store_limit - ends (frames_in self.old)) }
        ensures probes { probes_of self.new ≡ probes_of self.old }
        ensures answers { IfErr result IsAppendErr }
        ensures cause { CountsIn self.old self.new result }

        // Each image since the call began has the frames from before it, or these and all the new ones.
        ensures images { S.tells → LeavesOnlyIn self.old self.new
            (IsBeforeOrAll (frames_in self.old) (new_entries frames.now)) }
        ensures durable { S.tells → OnOk result (IsDurable self.new) }
    {
        let need = need_of_all(frames);
        let free = self.room();
        if need > free {
            return Err(LogErr::Full { need, free });
        }
        self.mark.seats.reserve(frames.len())?;
        let number = self.mark.seats.len() as u64;
        if frames.is_empty() {
            return Ok(number);
        }
        match write_frames(alloc, &mut self.device, self.mark.end, frames) {
            Ok(()) => {
                // There is room for them.
                self.mark.learn_all(frames)?;
                Ok(number)
            }
            Err(StoreErr::Failed) => {
                self.whole = false;
                Err(LogErr::Failed)
            }
            Err(StoreErr::OutOfMemory) => Err(LogErr::OutOfMemory),
        }
    }
}
