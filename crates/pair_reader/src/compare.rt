// Pieces that are compared with bytes.
ghost use Rattle.std.specs.Prelude.{◌≡◌, ◌<◌, ◌-◌, ◌∷◌, [], length, bytes_eq, IfOk, IfErr};
ghost use Rattle.rel_path.specs.Causes.{Counts};
ghost use Rattle.cache_api.specs.Cache.{is_fault, IsFindErr};
ghost use Rattle.record_log.specs.Frames.{text_of};
ghost use Rattle.record_log.specs.Log.{device_of, frames_in};
ghost use Rattle.blob_pool.specs.Contents.{contents_of};
ghost use Rattle.blob_pool.specs.Known.{Knows, OnlyReadsLog, known_in, count_in};
ghost use Rattle.pair_frames.specs.Pairs.{piece_bytes};
ghost use Rattle.pair_reader.specs.Frames.{contents_among};
ghost use Rattle.pair_reader.specs.Standing.{piece_of, pieces_of, bytes_of, IsThere, AreThere, Shows, AllShow};
ghost use Rattle.pair_reader.specs.Answers.{ReadsAtMost, IsRest};

use crate::calls::content_is;
use crate::piece::PieceAt;
use crate::walk::length;
use blob_pool::Pool;
use cache_api::CacheErr;
use record_log::Log;
use std::alloc::Global;
use store_dev::StoreDevice;

/// Whether the pieces are these bytes. It reads nothing where the lengths differ, and then no more than up to the first
/// piece that differs.
pub(crate) fn are<S: StoreDevice>(
    alloc: Global,
    pool: &Pool,
    log: &mut Log<S>,
    pieces: &[PieceAt],
    bytes: &[u8],
) -> Result<bool, CacheErr>
    requires pool { Knows pool.now log.old }
    requires there { AreThere (count_in pool.now) pieces.now }
    requires show { S.tells
        → AllShow (text_of (frames_in log.old)) (contents_of (known_in log.old)) pieces.now }
    ensures same { S.tells → IfOk result (λ b.
        b ≡ bytes_eq (bytes_of (contents_of (known_in log.old)) pieces.now) bytes.now) }
    ensures reads { ReadsAtMost (contents_among (pieces_of pieces.now)) log.old log.new }
    ensures log { OnlyReadsLog log.old log.new }
    ensures answers { IfErr result IsFindErr }
    ensures cause { Counts is_fault (S.store_faults (device_of log.old))
        (S.store_faults (device_of log.new)) result }
{
    if length(pieces) != bytes.len() as u64 {
        return Ok(false);
    }
    let mut left = bytes;
    for piece in pieces {
        let Some(behind) = strip(alloc, pool, log, *piece, left)? else {
            return Ok(false);
        };
        left = behind;
    }
    Ok(left.is_empty())
}

/// What follows the piece in these bytes. `None` where they don't begin with it.
fn strip<'b, S: StoreDevice>(
    alloc: Global,
    pool: &Pool,
    log: &mut Log<S>,
    piece: PieceAt,
    bytes: &'b [u8],
) -> Result<Option<&'b [u8]>, CacheErr>
    requires pool { Knows pool.now log.old }
    requires there { IsThere (count_in pool.now) piece }
    requires show { S.tells
        → Shows (text_of (frames_in log.old)) (contents_of (known_in log.old)) piece }
    ensures rest { S.tells → IfOk result
        (IsRest (piece_bytes (contents_of (known_in log.old)) (piece_of piece.entry)) bytes.now) }
    ensures reads { ReadsAtMost (contents_among (piece_of piece.entry ∷ [])) log.old log.new }
    ensures log { OnlyReadsLog log.old log.new }
    ensures answers { IfErr result IsFindErr }
    ensures cause { Counts is_fault (S.store_faults (device_of log.old))
        (S.store_faults (device_of log.new)) result }
{
    match piece {
        PieceAt::Literal(literal, _) => Ok(bytes.strip_prefix(literal)),
        PieceAt::Content(id, span) => {
            if (bytes.len() as u64) < span.len {
                return Ok(None);
            }
            let (front, behind) = bytes.split_at(span.len as usize);
            if !content_is(alloc, pool, log, id, front)? {
                return Ok(None);
            }
            Ok(Some(behind))
        }
    }
}
