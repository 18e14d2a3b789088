// A pair, read whole.
ghost use Rattle.std.specs.Prelude.{◌≡◌, ◌<◌, IsTrue, IfOk, IfErr};
ghost use Rattle.rel_path.specs.Causes.{Counts};
ghost use Rattle.cache_api.specs.Cache.{is_fault, IsFindErr};
ghost use Rattle.record_log.specs.Log.{device_of, count_of};
ghost use Rattle.blob_pool.specs.Known.{Knows, OnlyReadsLog, known_in};
ghost use Rattle.pair_frames.specs.Pairs.{holds_pair};
ghost use Rattle.pair_reader.specs.Frames.{frame_of, pair_at, reads_of};
ghost use Rattle.pair_reader.specs.Answers.{ReadsAtMost};

use crate::calls::frame_at;
use crate::parse::pieces_in;
use crate::walk::joined;
use blob_pool::Pool;
use cache_api::CacheErr;
use record_log::Log;
use rel_path::Bytes;
use std::alloc::Global;
use store_dev::StoreDevice;

/// The pair in that frame: its key and its value.
pub fn pair_at<S: StoreDevice>(
    alloc: Global,
    pool: &Pool,
    log: &mut Log<S>,
    number: u64,
) -> Result<(Bytes, Bytes), CacheErr>
    requires number { number < count_of log.old }
    requires pool { Knows pool.now log.old }
    requires pair { S.tells → IsTrue (holds_pair (frame_of (known_in log.old) number).kind) }
    ensures pair { S.tells → IfOk result (λ p. p ≡ pair_at (known_in log.old) number) }
    ensures reads { S.tells → ReadsAtMost (reads_of (known_in log.old) number) log.old log.new }
    ensures log { OnlyReadsLog log.old log.new }
    ensures answers { IfErr result IsFindErr }
    ensures cause { Counts is_fault (S.store_faults (device_of log.old))
        (S.store_faults (device_of log.new)) result }
{
    let frame = frame_at(alloc, log, number)?;
    let pieces = pieces_in(alloc, pool, log, number, &frame)?;
    let key = joined(alloc, pool, log, pieces.key.as_slice())?;
    let value = joined(alloc, pool, log, pieces.value.as_slice())?;
    Ok((Bytes::from_vec(key), Bytes::from_vec(value)))
}
