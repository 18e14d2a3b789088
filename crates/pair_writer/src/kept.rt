// The contents of a log.
ghost use Rattle.std.specs.Prelude.{◌≡◌, ◌<◌, IfOk, IfErr, IfSome};
ghost use Rattle.rel_path.specs.Causes.{Counts};
ghost use Rattle.sha2.specs.Sha256.{sha256};
ghost use Rattle.cache_api.specs.Cache.{is_fault, IsFindErr};
ghost use Rattle.record_log.specs.Log.{device_of};
ghost use Rattle.blob_pool.specs.Pool.{first_of};
ghost use Rattle.blob_pool.specs.Known.{Knows, OnlyReadsLog, known_in, count_in};

use blob_pool::Pool;
use cache_api::CacheErr;
use record_log::{Log, LogErr};
use std::alloc::Global;
use store_dev::StoreDevice;

/// The number of the first content of the log that is these bytes behind their digest.
pub(crate) fn kept<S: StoreDevice>(
    alloc: Global,
    pool: &Pool,
    log: &mut Log<S>,
    digest: &[u8; 32],
    bytes: &[u8],
) -> Result<Option<u64>, CacheErr>
    requires pool { Knows pool.now log.old }
    requires digest { digest.now ≡ sha256 bytes.now }
    ensures found { S.tells → IfOk result (λ o. o ≡ first_of (known_in log.old) bytes.now) }
    ensures inside { IfOk result (λ o. IfSome o (λ n. n < count_in pool.now)) }
    ensures log { OnlyReadsLog log.old log.new }
    ensures answers { IfErr result IsFindErr }
    ensures cause { Counts is_fault (S.store_faults (device_of log.old))
        (S.store_faults (device_of log.new)) result }
{
    match pool.kept_by(alloc, log, digest, bytes) {
        Ok(Some(id)) => Ok(Some(id.number)),
        Ok(None) => Ok(None),
        Err(LogErr::Failed) => Err(CacheErr::Failed),
        Err(_) => Err(CacheErr::OutOfMemory),
    }
}
