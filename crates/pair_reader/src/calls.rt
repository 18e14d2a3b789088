// The log and its pool, by a cache's errors.
ghost use Rattle.std.specs.Prelude.{◌≡◌, ◌<◌, ◌++◌, bytes_eq, IfOk, IfErr, OnOk};
ghost use Rattle.rel_path.specs.Causes.{Counts};
ghost use Rattle.cache_api.specs.Cache.{is_fault, IsFindErr};
ghost use Rattle.record_log.specs.Frames.{IsAt};
ghost use Rattle.record_log.specs.Log.{device_of, frames_in, count_of};
ghost use Rattle.record_log.specs.Answers.{entry_of};
ghost use Rattle.blob_pool.specs.Contents.{content_at};
ghost use Rattle.blob_pool.specs.Known.{Knows, OnlyReadsLog, known_in, count_in};
ghost use Rattle.pair_reader.specs.Answers.{ReadsAtMost};

use blob_pool::{BlobId, Pool};
use cache_api::CacheErr;
use record_log::{Frame, Log, LogErr};
use std::alloc::Global;
use store_dev::StoreDevice;

/// The frame with that number.
pub(crate) fn frame_at<S: StoreDevice>(
    alloc: Global,
    log: &mut Log<S>,
    number: u64,
) -> Result<Frame, CacheErr>
    requires { number < count_of log.old }
    ensures frame { S.tells → IfOk result (λ f. IsAt (frames_in log.old) number (entry_of f)) }
    ensures reads { ReadsAtMost 1 log.old log.new }
    ensures log { OnlyReadsLog log.old log.new }
    ensures answers { IfErr result IsFindErr }
    ensures cause { Counts is_fault (S.store_faults (device_of log.old))
        (S.store_faults (device_of log.new)) result }
{
    match log.frame_at(alloc, number) {
        Ok(frame) => Ok(frame),
        Err(LogErr::Failed) => Err(CacheErr::Failed),
        Err(_) => Err(CacheErr::OutOfMemory),
    }
}

/// Whether the content is these bytes.
pub(crate) fn content_is<S: StoreDevice>(
    alloc: Global,
    pool: &Pool,
    log: &mut Log<S>,
    id: BlobId,
    bytes: &[u8],
) -> Result<bool, CacheErr>
    requires pool { Knows pool.now log.old }
    requires inside { id.number < count_in pool.now }
    ensures same { S.tells → IfOk result
        (λ b. b ≡ bytes_eq (content_at (known_in log.old) id.number) bytes.now) }
    ensures reads { ReadsAtMost 1 log.old log.new }
    ensures log { OnlyReadsLog log.old log.new }
    ensures answers { IfErr result IsFindErr }
    ensures cause { Counts is_fault (S.store_faults (device_of log.old))
        (S.store_faults (device_of log.new)) result }
{
    match pool.equals(alloc, log, id, bytes) {
        Ok(same) => Ok(same),
        Err(LogErr::Failed) => Err(CacheErr::Failed),
        Err(_) => Err(CacheErr::OutOfMemory),
    }
}

/// Adds the content to the bytes.
pub(crate) fn add_content<S: StoreDevice>(
    pool: &Pool,
    log: &mut Log<S>,
    id: BlobId,
    to: &mut Vec<u8>,
) -> Result<(), CacheErr>
    requires pool { Knows pool.now log.old }
    requires inside { id.number < count_in pool.now }
    ensures content { S.tells → OnOk result
        (to.new.items ≡ to.old.items ++ content_at (known_in log.old) id.number) }
    ensures reads { ReadsAtMost 1 log.old log.new }
    ensures log { OnlyReadsLog log.old log.new }
    ensures answers { IfErr result IsFindErr }
    ensures cause { Counts is_fault (S.store_faults (device_of log.old))
        (S.store_faults (device_of log.new)) result }
{
    match pool.copy_to(log, id, to) {
        Ok(()) => Ok(()),
        Err(LogErr::Failed) => Err(CacheErr::Failed),
        Err(_) => Err(CacheErr::OutOfMemory),
    }
}
