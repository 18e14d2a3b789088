// Where the artifact of a pair stands.
ghost use Rattle.std.specs.Prelude.{◌≡◌, ◌<◌, ◌≤◌, ◌+◌, ◌^◌, length, IsTrue, IfOk, IfErr, IfSome};
ghost use Rattle.std.specs.List.{list_all};
ghost use Rattle.rel_path.specs.Causes.{Counts};
ghost use Rattle.codes.specs.Views.{found_as};
ghost use Rattle.globs.specs.Outputs.{takes};
ghost use Rattle.cache_api.specs.Cache.{is_fault, IsFindErr};
ghost use Rattle.cache_api.specs.Found.{given as gives};
ghost use Rattle.cache_api.specs.Hits.{paths_ascend, owns_paths};
ghost use Rattle.cache_api.specs.Reading.{artifact_in};
ghost use Rattle.record_log.specs.Frames.{text_of};
ghost use Rattle.record_log.specs.Log.{device_of, frames_in, count_of, probes_of};
ghost use Rattle.blob_pool.specs.Contents.{contents_of};
ghost use Rattle.blob_pool.specs.Known.{Knows, OnlyReadsLog, known_in, count_in};
ghost use Rattle.pair_frames.specs.Pairs.{holds_pair};
ghost use Rattle.artifact_reader.specs.Parts.{shown_in};
ghost use Rattle.pair_reader.specs.Frames.{frame_of, pair_at, contents_among, reads_of, cost_of};
ghost use Rattle.pair_reader.specs.Standing.{pieces_of, bytes_of, AreThere, AllShow};
ghost use Rattle.pair_reader.specs.Answers.{ReadsAtMost, HitIsWithin, places_of};
ghost use Rattle.pair_reader.specs.Parts.{IsFound, IsHitOf};

use crate::calls::frame_at;
use crate::compare::are;
use crate::parse::pieces_in;
use crate::parts::{known_parts, parts_of};
use crate::piece::PieceAt;
use crate::walk::joined;
use artifact_reader::{Reading, read_parts};
use blob_pool::Pool;
use cache_api::{CacheErr, Hit, HitFile};
use globs::OutSet;
use record_log::Log;
use std::alloc::Global;
use store_dev::StoreDevice;

/// The side of what stands in the only store of a cache.
const LONE_SIDE: u8 = 0;

/// What the pair in that frame gives to a task with this key and these outputs: where its artifact stands. The contents
/// of its value are read only where something else than the bytes of files stands in them.
pub fn given<S: StoreDevice>(
    alloc: Global,
    pool: &Pool,
    log: &mut Log<S>,
    number: u64,
    key: &[u8],
    outs: &OutSet,
) -> Result<Option<Hit>, CacheErr>
    requires number { number < count_of log.old }
    requires pool { Knows pool.now log.old }
    requires pair { S.tells → IsTrue (holds_pair (frame_of (known_in log.old) number).kind) }
    ensures given { S.tells → IfOk result (λ o.
        found_as (shown_in (text_of (frames_in log.old))) o
        ≡ gives artifact_in key.now outs.now (pair_at (known_in log.old) number)) }
    ensures within { S.tells → IfOk result (λ o.
        IfSome o (HitIsWithin (text_of (frames_in log.old)))) }
    ensures fits { IfOk result (λ o. IfSome o (λ h.
        IsTrue (paths_ascend h) × IsTrue (owns_paths outs.now h))) }
    ensures side { IfOk result (λ o. IfSome o (λ h. h.side ≡ 0)) }
    ensures few { S.tells → ReadsAtMost (reads_of (known_in log.old) number) log.old log.new }
    // Reading the places that were found costs one each.
    ensures cost { S.tells → IfOk result (λ o.
        probes_of log.new + places_of o ≤ probes_of log.old + cost_of (known_in log.old) number) }
    ensures most { S.tells → ReadsAtMost (cost_of (known_in log.old) number) log.old log.new }
    ensures log { OnlyReadsLog log.old log.new }
    ensures answers { IfErr result IsFindErr }
    ensures cause { Counts is_fault (S.store_faults (device_of log.old))
        (S.store_faults (device_of log.new)) result }
{
    let frame = frame_at(alloc, log, number)?;
    let pieces = pieces_in(alloc, pool, log, number, &frame)?;
    if !are(alloc, pool, log, pieces.key.as_slice(), key)? {
        return Ok(None);
    }
    let Some(hit) = artifact_at(alloc, pool, log, pieces.value.as_slice())? else {
        return Ok(None);
    };
    if !owns_all(outs, hit.files.as_slice()) {
        return Ok(None);
    }
    Ok(Some(Hit {
        side: LONE_SIDE,
        log: hit.log,
        files: hit.files,
    }))
}

/// Whether a task owns each of the files.
fn owns_all(outs: &OutSet, files: &[HitFile]) -> bool
    ensures { result ≡ list_all (λ file. takes outs.now file.path) files.now }
{
    files.iter().all(|file| outs.takes(&file.path))
}

/// The artifact that the pieces of a value are: where it stands. `None` where they are none.
fn artifact_at<S: StoreDevice>(
    alloc: Global,
    pool: &Pool,
    log: &mut Log<S>,
    value: &[PieceAt],
) -> Result<Option<Hit>, CacheErr>
    requires pool { Knows pool.now log.old }
    requires there { AreThere (count_in pool.now) value.now }
    requires short { S.tells → length (text_of (frames_in log.old)) < 2 ^ 64 }
    requires show { S.tells
        → AllShow (text_of (frames_in log.old)) (contents_of (known_in log.old)) value.now }
    ensures found { S.tells → IfOk result (IsFound (text_of (frames_in log.old))
        (bytes_of (contents_of (known_in log.old)) value.now)) }
    ensures hit { IfOk result (λ o. IfSome o (IsHitOf (length value.now))) }
    ensures reads { ReadsAtMost (contents_among (pieces_of value.now)) log.old log.new }
    ensures log { OnlyReadsLog log.old log.new }
    ensures answers { IfErr result IsFindErr }
    ensures cause { Counts is_fault (S.store_faults (device_of log.old))
        (S.store_faults (device_of log.new)) result }
{
    let parts = parts_of(alloc, value)?;
    match read_parts(alloc, parts.as_slice())? {
        Reading::Hit(hit) => Ok(Some(hit)),
        Reading::NoArtifact => Ok(None),
        Reading::Unknown => loaded_artifact_at(alloc, pool, log, value),
    }
}

/// The same, with all contents read.
fn loaded_artifact_at<S: StoreDevice>(
    alloc: Global,
    pool: &Pool,
    log: &mut Log<S>,
    value: &[PieceAt],
) -> Result<Option<Hit>, CacheErr>
    requires pool { Knows pool.now log.old }
    requires there { AreThere (count_in pool.now) value.now }
    requires short { S.tells → length (text_of (frames_in log.old)) < 2 ^ 64 }
    requires show { S.tells
        → AllShow (text_of (frames_in log.old)) (contents_of (known_in log.old)) value.now }
    ensures found { S.tells → IfOk result (IsFound (text_of (frames_in log.old))
        (bytes_of (contents_of (known_in log.old)) value.now)) }
    ensures hit { IfOk result (λ o. IfSome o (IsHitOf (length value.now))) }
    ensures reads { ReadsAtMost (contents_among (pieces_of value.now)) log.old log.new }
    ensures log { OnlyReadsLog log.old log.new }
    ensures answers { IfErr result IsFindErr }
    ensures cause { Counts is_fault (S.store_faults (device_of log.old))
        (S.store_faults (device_of log.new)) result }
{
    let bytes = joined(alloc, pool, log, value)?;
    let parts = known_parts(alloc, value, bytes.as_slice())?;
    match read_parts(alloc, parts.as_slice())? {
        Reading::Hit(hit) => Ok(Some(hit)),
        Reading::NoArtifact => Ok(None),
        // All of them are known.
        Reading::Unknown => Ok(None),
    }
}
