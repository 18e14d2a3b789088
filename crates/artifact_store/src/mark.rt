// What is known of the frames of a store, and opening its device again by it.
ghost use Rattle.std.specs.Prelude.{◌≡◌, ◌≤◌, List, Some, length, take};
ghost use Rattle.std.specs.Prelude.{IsTrue, IfOk, IfErr, OnOk};
ghost use Rattle.rel_path.specs.Causes.{Counts};
ghost use Rattle.cache_api.specs.Cache.{IsFindErr, is_fault as is_find_fault};
ghost use Rattle.record_log.specs.Kinds.{Entry};
ghost use Rattle.record_log.specs.Log.{is_whole, count_of, device_of as log_device, frames_in};
ghost use Rattle.blob_pool.specs.Known.{Knows, KnowsFirst, StandsBelow, OnlyReadsLog};
ghost use Rattle.pair_reader.specs.Answers.{Ascend};
ghost use Rattle.pair_index.specs.Index.{Indexes, IsIndexOf, FramesBelow, lengths_in};

use crate::error::{index_err, open_err};
use crate::{OpenErr, Store};
use blob_pool::Pool;
use cache_api::CacheErr;
use pair_index::Index;
use pair_reader::Lengths;
use record_log::{Log, LogErr, LogMark, Unopened};
use std::alloc::Global;
use store_dev::StoreDevice;

/// What is known of the frames of a store, for a later `resume`. Only these calls read it.
#[derive(Drop)]
pub struct StoreMark {
    log: LogMark,
    // How many frames the pool and the index know.
    count: u64,
    pool: Pool,
    index: Index,
    pub ghost bounds: { StandsBelow pool count },
    pub ghost below: { FramesBelow index count },
}

impl StoreMark {
    ghost use Rattle.artifact_store.specs.Marks.{IsMarkOf, foreseen};

    /// Of no frames.
    pub(crate) fn new(alloc: Global, lengths: Lengths) -> StoreMark
        requires { Ascend lengths }
        ensures mark { (fs : List Entry) → IsMarkOf result fs }
        ensures foresees { foreseen result ≡ lengths }
    {
        StoreMark {
            log: LogMark::new(alloc),
            count: 0,
            pool: Pool::new(alloc),
            index: Index::new(alloc, lengths),
        }
    }
}

impl<S: StoreDevice> Store<S> {
    ghost use Rattle.store_dev.specs.Device.{Only};
    ghost use Rattle.record_log.specs.Frames.{frames_of as frames_read};
    ghost use Rattle.artifact_store.specs.Pairs.{stands_for};
    ghost use Rattle.artifact_store.specs.Store.{device_of, lengths_of, state_of};
    ghost use Rattle.artifact_store.specs.Marks.{IsMarkOf, marked, foreseen};
    ghost use Rattle.artifact_store.specs.Opened.{IsOpened, IsUnopened, IsStoreOf, IsUnread};

    /// The device, as the last call left it, with what is known of its frames, for a later
    /// `resume`.
    pub fn rest(self) -> (StoreMark, S)
        ensures device { result.1 ≡ device_of self }
        ensures mark { S.tells → IsMarkOf result.0 (frames_read (S.content result.1)) }
        ensures foresees { foreseen result.0 ≡ lengths_of self }
        // While the store may be used, all frames are known, and a crash leaves nothing else.
        ensures all { S.tells → IsTrue (state_of self).whole
            → marked result.0 ≡ length (frames_read (S.content result.1)) }
        ensures pairs { S.tells → IsTrue (state_of self).whole
            → stands_for (S.content result.1) ≡ Some (state_of self).pairs }
        ensures lasts { S.tells → IsTrue (state_of self).whole
            → Only (S.content result.1) (S.images result.1) }
    {
        let count = self.log.frames();
        let (log, store) = self.log.rest();
        let mark = StoreMark {
            log,
            count,
            pool: self.pool,
            index: self.index,
        };
        (mark, store)
    }

    /// Opens a device again of whose frames some are known. It reads only the frames behind these,
    /// as `open` does, and in front of them no more than contents that keys behind them name. It
    /// answers as `open`.
    pub fn resume(
        alloc: Global,
        store: S,
        mark: StoreMark,
    ) -> Result<Store<S>, Unopened<S, OpenErr>>
        requires { S.tells → IsMarkOf mark (frames_read (S.content store)) }
        ensures opened { IfOk result (IsOpened store (foreseen mark)) }
        ensures unopened { IfErr result (IsUnopened S.StoreDevice store) }
    {
        match Log::resume(alloc, store, mark.log) {
            Ok(log) => Store::of_log(alloc, log, mark.pool, mark.index, mark.count),
            Err(Unopened { fault, store }) => Err(Unopened {
                fault: open_err(fault),
                store,
            }),
        }
    }

    /// The store of a log that was opened, of whose first so many frames the contents and the pairs
    /// are known.
    fn of_log(
        alloc: Global,
        log: Log<S>,
        pool: Pool,
        index: Index,
        count: u64,
    ) -> Result<Store<S>, Unopened<S, OpenErr>>
        requires whole { IsTrue (is_whole log) }
        requires few { S.tells → count ≤ length (frames_in log) }
        requires contents { S.tells → KnowsFirst pool (frames_in log) count }
        requires bounds { StandsBelow pool count }
        requires known { S.tells → IsIndexOf index (take count (frames_in log)) }
        requires below { FramesBelow index count }
        ensures ok { IfOk result (IsStoreOf log (lengths_in index)) }
        ensures err { IfErr result (IsUnread log) }
    {
        let mut log = log;
        match read_behind(alloc, &mut log, pool, index, count) {
            Ok((pool, index)) => {
                let generation = log.generation();
                Ok(Store {
                    log,
                    pool,
                    index,
                    generation,
                })
            }
            Err(fault) => Err(Unopened {
                fault: index_err(fault),
                store: log.device(),
            }),
        }
    }
}

/// What is known of the contents and the pairs of a log, of whose first so many frames they are
/// known. It reads the frames behind these.
fn read_behind<S: StoreDevice>(
    alloc: Global,
    log: &mut Log<S>,
    pool: Pool,
    index: Index,
    count: u64,
) -> Result<(Pool, Index), CacheErr>
    requires whole { IsTrue (is_whole log.old) }
    requires few { S.tells → count ≤ length (frames_in log.old) }
    requires contents { S.tells → KnowsFirst pool (frames_in log.old) count }
    requires bounds { StandsBelow pool count }
    requires known { S.tells → IsIndexOf index (take count (frames_in log.old)) }
    requires below { FramesBelow index count }
    ensures pool { IfOk result (λ r. Knows r.0 log.new) }
    ensures index { IfOk result (λ r. Indexes r.1 log.new) }
    ensures lengths { IfOk result (λ r. lengths_in r.1 ≡ lengths_in index) }
    ensures log { OnlyReadsLog log.old log.new }
    ensures answers { IfErr result IsFindErr }
    ensures cause { Counts is_find_fault (S.store_faults (log_device log.old))
        (S.store_faults (log_device log.new)) result }
{
    let (mut pool, mut index, first) = known_of(alloc, pool, index, count, log.frames());
    read_contents(log, &mut pool, first)?;
    index.read_from(alloc, &pool, log, first)?;
    Ok((pool, index))
}

/// What is known of a log with so many frames, and of how many. A device that tells nothing may
/// have lost some, and then all are read again.
fn known_of(alloc: Global, pool: Pool, index: Index, count: u64, frames: u64) -> (Pool, Index, u64)
    requires bounds { StandsBelow pool count }
    requires below { FramesBelow index count }
    ensures known { count ≤ frames → result ≡ (pool, index, count) }
    ensures few { result.2 ≤ frames }
    ensures bounds { StandsBelow result.0 result.2 }
    ensures below { FramesBelow result.1 result.2 }
    ensures lengths { lengths_in result.1 ≡ lengths_in index }
{
    if count <= frames {
        (pool, index, count)
    } else {
        (Pool::new(alloc), index.cleared(alloc), 0)
    }
}

/// What is known of the contents of a log, of whose first so many frames they are known.
fn read_contents<S: StoreDevice>(
    log: &mut Log<S>,
    pool: &mut Pool,
    first: u64,
) -> Result<(), CacheErr>
    requires first { first ≤ count_of log.old }
    requires known { S.tells → KnowsFirst pool.old (frames_in log.old) first }
    requires bounds { StandsBelow pool.old first }
    ensures pool { OnOk result (Knows pool.new log.new) }
    ensures log { OnlyReadsLog log.old log.new }
    ensures answers { IfErr result IsFindErr }
    ensures cause { Counts is_find_fault (S.store_faults (log_device log.old))
        (S.store_faults (log_device log.new)) result }
{
    match pool.read_from(log, first) {
        Ok(()) => Ok(()),
        Err(LogErr::Failed) => Err(CacheErr::Failed),
        Err(_) => Err(CacheErr::OutOfMemory),
    }
}
