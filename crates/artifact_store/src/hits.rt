// Reading what was found.
ghost use Rattle.std.specs.Prelude.{◌≡◌, ◌+◌, ◌++◌, length, IfOk, IfErr, OnOk};
ghost use Rattle.rel_path.specs.Causes.{Counts};
ghost use Rattle.cache_api.specs.Cache.{is_fault, IsFindErr};
ghost use Rattle.record_log.specs.Frames.{text_of};
ghost use Rattle.record_log.specs.Log.{device_of, frames_in};
ghost use Rattle.record_log.specs.Seats.{IsWithin};
ghost use Rattle.blob_pool.specs.Known.{OnlyReadsLog};
ghost use Rattle.artifact_reader.specs.Parts.{at_span, shown};
ghost use Rattle.pair_reader.specs.Answers.{AllWithin, ReadsAtMost};

use cache_api::CacheErr;
use record_log::{Log, LogErr};
use rel_path::{Bytes, Span};
use std::alloc::Global;
use store_dev::StoreDevice;

/// The bytes at these places, one behind the other. Each place is read once.
pub(crate) fn read_spans<S: StoreDevice>(
    alloc: Global,
    log: &mut Log<S>,
    spans: &[Span],
) -> Result<Bytes, CacheErr>
    requires { S.tells → AllWithin (text_of (frames_in log.old)) spans.now }
    ensures bytes { S.tells
        → IfOk result (λ bytes. bytes ≡ shown (text_of (frames_in log.old)) spans.now) }
    ensures few { ReadsAtMost (length spans.now) log.old log.new }
    ensures log { OnlyReadsLog log.old log.new }
    ensures answers { IfErr result IsFindErr }
    ensures cause { Counts is_fault (S.store_faults (device_of log.old))
        (S.store_faults (device_of log.new)) result }
{
    let mut bytes = Vec::new(alloc);
    for span in spans {
        add_span(log, *span, &mut bytes)?;
    }
    Ok(Bytes::from_vec(bytes))
}

/// Adds the bytes at a place.
fn add_span<S: StoreDevice>(log: &mut Log<S>, span: Span, to: &mut Vec<u8>) -> Result<(), CacheErr>
    requires { S.tells → IsWithin (text_of (frames_in log.old)) span.at span.len }
    ensures bytes { S.tells → OnOk result
        (to.new.items ≡ to.old.items ++ at_span (text_of (frames_in log.old)) span) }
    ensures few { ReadsAtMost 1 log.old log.new }
    ensures log { OnlyReadsLog log.old log.new }
    ensures answers { IfErr result IsFindErr }
    ensures cause { Counts is_fault (S.store_faults (device_of log.old))
        (S.store_faults (device_of log.new)) result }
{
    let start = to.len();
    to.reserve(span.len as usize)?;
    to.resize(start + span.len as usize, 0)?;
    match log.read_span(span.at, &mut to[start..]) {
        Ok(()) => Ok(()),
        Err(LogErr::Failed) => Err(CacheErr::Failed),
        Err(_) => Err(CacheErr::OutOfMemory),
    }
}
