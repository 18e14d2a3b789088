// A file that several runs use in turn.
ghost use Rattle.std.specs.Prelude.{◌≡◌, ◌≤◌, ◌+◌, ◌-◌, List, ℕ, true, false, IfOk, IfErr};
ghost use Rattle.rel_path.specs.Causes.{Counts};
ghost use Rattle.store_dev.specs.Device.{Only, Within};
ghost use Rattle.record_log.specs.Kinds.{Entry};
ghost use Rattle.record_log.specs.Frames.{frames_of, ends, IsSound};
ghost use Rattle.shared_runs.specs.Frames.{StartWith, HoldsOn, HoldsOneOrMore};

use std::alloc::{AllocError, AllocFailed, Global};
use store_dev::StoreDevice;
use thiserror::Error;

/// Why a turn was not taken, or not given back as it should be.
#[derive(Clone, Copy, Debug, PartialEq, Eq, Error)]
pub enum TurnErr {
    /// The file failed, and counted it.
    #[error("the shared file failed")]
    Failed,
    #[error("out of memory")]
    OutOfMemory,
}

impl From<AllocError> for TurnErr {
    ghost use Rattle.shared_runs.specs.declared.turn.TurnErr.TheVariants.{OutOfMemory};

    ghost from_gives = { λ _ e. e ≡ OutOfMemory };

    fn from(_error: AllocError) -> TurnErr {
        TurnErr::OutOfMemory
    }
}

impl<T: Drop> From<AllocFailed<T>> for TurnErr {
    ghost use Rattle.shared_runs.specs.declared.turn.TurnErr.TheVariants.{OutOfMemory};

    ghost from_gives = { λ _ e. e ≡ OutOfMemory };

    fn from(_error: AllocFailed<T>) -> TurnErr {
        TurnErr::OutOfMemory
    }
}

/// A file that several runs use, one at a time. Who holds the turn has the device, and the others
/// wait.
///
/// The file is sound where it is a store (`record_log`). The runs append whole frames to a sound
/// file and do nothing else to it. Where a file is told, it is told too which frames will stand in
/// it as the next turn is taken; of a real file nothing is told.
pub trait Shared {
    ghost use Rattle.shared_runs.specs.Turns.{Turn, is_fault, HeldAfter, IsTurnOf, HoldsFile};
    ghost use Rattle.shared_runs.specs.Turns.{IsTaken, GoesOn, NoFault, LeftInTurn};

    /// What is handed out with the turn. The file is told where the bytes of the device are.
    type Device: StoreDevice;

    /// The bytes of the file: those that a read would give, and while the turn is held those that
    /// it gave as the turn was taken.
    ghost content: { Self → List ℕ };

    /// What a crash may leave of the file at this moment, and while the turn is held what it could
    /// leave as the turn was taken.
    ghost images: { Self → List ℕ → Type 0 };

    /// The clock of the file: the moment now, which never falls. It stands still while the turn is
    /// held, and a device has a clock of its own.
    ghost moment: { Self → ℕ };

    /// What a crash at some moment since that one might have left.
    ghost images_since: { Self → ℕ → List ℕ → Type 0 };

    /// How often the file has failed, also by the devices that were given back.
    ghost store_faults: { Self → ℕ };

    ghost turn: { Self → Turn };

    /// The frames of a sound file as the next turn is taken: those that it has, and those that
    /// others append till then. Of a told file it is known what others will have appended, so that
    /// what a call finds behind them can be said before it.
    ghost coming: { Self → List Entry };

    /// Waits for the turn, takes it and hands the device out. After an error the turn is not held.
    fn take(&mut self, alloc: Global) -> Result<Self::Device, TurnErr>
        requires { (turn self.old).held ≡ false }
        ensures held { HeldAfter result (turn self.new) }
        ensures began { (turn self.new).began ≡ moment self.old }
        ensures begun { IfOk result
            (IsTurnOf Self.Device.StoreDevice (turn self.new) (store_faults self.new)) }
        ensures device { Self.Device.tells → IfOk result
            (HoldsFile Self.Device.StoreDevice (content self.new) (images self.new)) }
        ensures taken { Self.Device.tells → IfOk result (λ _. IsTaken (content self.old)
            (coming self.old) (content self.new) (images self.new)) }
        // whatever it answers
        ensures file { Self.Device.tells → HoldsOneOrMore (λ c. c ≡ content self.old)
            (content self.old) (coming self.old) (content self.new) }
        ensures time { Self.Device.tells → GoesOn moment images_since self.old self.new
            (HoldsOneOrMore (images self.old) (content self.old) (coming self.old)) }
        ensures grows { ends (coming self.old) ≤ ends (coming self.new) }
        ensures cause { Counts is_fault (store_faults self.old) (store_faults self.new) result };

    /// Gives the turn back with its device, also after a call of the device that failed. The turn
    /// is not held then and the file is as the device is, whatever is answered. It takes no memory.
    fn give(&mut self, device: Self::Device) -> Result<(), TurnErr>
        requires held { (turn self.old).held ≡ true }
        requires count { (turn self.old).count ≤ Self.Device.store_faults device }
        requires kept { Self.Device.tells → IsSound (content self.old) → (c : List ℕ)
            → Self.Device.images_since device (turn self.old).start c
            → HoldsOn (frames_of (content self.old)) c }
        requires synced { Self.Device.tells
            → NoFault (turn self.old).count (Self.Device.store_faults device)
            → Only (Self.Device.content device) (Self.Device.images device) }
        ensures held { (turn self.new).held ≡ false }
        ensures began { (turn self.new).began ≡ (turn self.old).began }
        ensures file { Self.Device.tells → content self.new ≡ Self.Device.content device }
        ensures images { Self.Device.tells → Within (images self.new) (Self.Device.images device) }
        ensures time { Self.Device.tells → GoesOn moment images_since self.old self.new
            (LeftInTurn (images self.old)
            (Self.Device.images_since device (turn self.old).start)) }
        ensures grows { ends (coming self.old) ≤ ends (coming self.new) }
        ensures only { IfErr result (λ e. e ≡ TurnErr.Failed) }
        ensures cause { Counts is_fault
            (store_faults self.old + (Self.Device.store_faults device - (turn self.old).count))
            (store_faults self.new) result };

    /// The file as it reads is one of its images.
    ghost as_it_reads: { (s : Self) → Self.Device.tells → images s (content s) };

    /// What a crash may leave at this moment, it may leave since each earlier one.
    ghost counts_now: { (s : Self) (m : ℕ) (c : List ℕ) → m ≤ moment s → images s c
        → images_since s m c };

    /// Since this moment it may leave nothing else.
    ghost only_now: { (s : Self) (c : List ℕ) → images_since s (moment s) c → images s c };

    /// What it might have left since a moment, it might have left since each earlier one.
    ghost earlier: { (s : Self) (m n : ℕ) (c : List ℕ) → m ≤ n → n ≤ moment s
        → images_since s n c → images_since s m c };

    /// The frames of a sound file stand in it as the next turn is taken.
    ghost stays: { (s : Self) → Self.Device.tells → IsSound (content s)
        → StartWith (frames_of (content s)) (coming s) };
}
