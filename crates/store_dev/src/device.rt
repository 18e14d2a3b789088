// A file as a store sees it: what a read gives, and what a crash may leave.
ghost use Rattle.std.specs.Prelude.{◌≡◌, ◌+◌, ◌<◌, ◌≤◌, ◌^◌, List, ℕ, length, take, drop, IfOk, OnOk, OnErr, IsErrOf};
ghost use Rattle.rel_path.specs.Causes.{Counts};
ghost use Rattle.store_dev.specs.declared.device.StoreErr.TheVariants.{OutOfMemory};
ghost use Rattle.store_dev.specs.Device.{AreBytes, Only, Follows, Torn, Holds, Elapses, OnlyReads, SameWith};
ghost use Rattle.store_dev.specs.Errors.{is_fault, OnlyFails};

use std::alloc::{AllocError, AllocFailed, Global};
use thiserror::Error;

/// Why a call of a device did not do what it was asked.
#[derive(Clone, Copy, Debug, PartialEq, Eq, Error)]
pub enum StoreErr {
    /// The device failed, and counted it.
    #[error("the store's device failed")]
    Failed,
    #[error("out of memory")]
    OutOfMemory,
}

impl From<AllocError> for StoreErr {
    ghost from_gives = { λ _ e. e ≡ OutOfMemory };

    fn from(_error: AllocError) -> StoreErr {
        StoreErr::OutOfMemory
    }
}

impl<T: Drop> From<AllocFailed<T>> for StoreErr {
    ghost from_gives = { λ _ e. e ≡ OutOfMemory };

    fn from(_error: AllocFailed<T>) -> StoreErr {
        StoreErr::OutOfMemory
    }
}

/// A file that a store keeps its bytes in.
///
/// Between two syncs each written range and the part past the old end may hold any bytes after a crash, and a
/// crash may leave any shorter length past the old end. All other bytes stay. After a sync that answers `Ok` a crash
/// leaves what a read gives.
pub trait StoreDevice {
    /// Whether the bytes are told. It is a fact of the type: a device in memory tells its bytes, a real file
    /// does not, and of one that does not nothing is said of `content`.
    ghost tells: { Type 0 };

    /// The bytes that a read gives.
    ghost content: { Self → List ℕ };

    /// What a crash at this moment may leave.
    ghost images: { Self → List ℕ → Type 0 };

    /// The clock: the moment now, a number that never falls.
    ghost moment: { Self → ℕ };

    /// What a crash at some moment since that one might have left, during a call or between two.
    ghost images_since: { Self → ℕ → List ℕ → Type 0 };

    /// How often the device has failed, up to 2^64 - 1.
    ghost store_faults: { Self → ℕ };

    /// How many bytes there are. It takes no memory.
    fn len(&mut self) -> Result<u64, StoreErr>
        ensures value { tells → IfOk result (λ n. n ≡ length (content self.old)) }
        ensures reads { OnlyReads content images moment images_since self.old self.new }
        ensures only { OnlyFails result }
        ensures cause { Counts is_fault (store_faults self.old) (store_faults self.new) result };

    /// Fills the buffer with the bytes from that offset on. It takes no memory. After an error the buffer may hold
    /// anything.
    fn read_at(&mut self, at: u64, buf: &mut [u8]) -> Result<(), StoreErr>
        requires { tells → at + length buf.old ≤ length (content self.old) }
        ensures value { tells → OnOk result
            (buf.new ≡ take (length buf.old) (drop at (content self.old))) }
        ensures reads { OnlyReads content images moment images_since self.old self.new }
        ensures only { OnlyFails result }
        ensures cause { Counts is_fault (store_faults self.old) (store_faults self.new) result };

    /// Writes over what is there, and past the end. After `Failed` the range may hold any bytes.
    fn write_at(&mut self, alloc: Global, at: u64, bytes: &[u8]) -> Result<(), StoreErr>
        requires place { tells → at ≤ length (content self.old) }
        requires end { at + length bytes.now ≤ 2 ^ 62 }
        ensures written { tells → OnOk result
            (Holds (content self.old) at bytes.now (content self.new)) }
        ensures torn { tells → OnErr result
            (Torn at (length bytes.now) (content self.old) (content self.new)) }
        ensures memory { IsErrOf result StoreErr.OutOfMemory
            → SameWith (content self.old) (content self.new) (images self.old) (images self.new) }
        ensures images { Follows (Torn at (length bytes.now)) (images self.old) (images self.new) }
        ensures time { Elapses (moment self.old) (moment self.new) (images_since self.old)
            (images_since self.new) (images self.new) }
        ensures cause { Counts is_fault (store_faults self.old) (store_faults self.new) result };

    /// After it a crash leaves what a read gives. It takes no memory.
    fn sync(&mut self) -> Result<(), StoreErr>
        ensures durable { tells → OnOk result (Only (content self.old) (images self.new)) }
        ensures reads { OnlyReads content images moment images_since self.old self.new }
        ensures only { OnlyFails result }
        ensures cause { Counts is_fault (store_faults self.old) (store_faults self.new) result };

    /// What is told are bytes.
    ghost are_bytes: { (d : Self) → tells → AreBytes (content d) };

    /// There are fewer than 2^63 of them.
    ghost few_bytes: { (d : Self) → tells → length (content d) < 2 ^ 63 };

    /// The device as it reads is one of its images.
    ghost as_it_reads: { (d : Self) → tells → images d (content d) };

    /// What a crash may leave at this moment, it may leave since each earlier one.
    ghost counts_now: { (d : Self) (m : ℕ) (c : List ℕ) → m ≤ moment d → images d c → images_since d m c };

    /// Since this moment it may leave nothing else.
    ghost only_now: { (d : Self) (c : List ℕ) → images_since d (moment d) c → images d c };
}
