// Going over pieces.
ghost use Rattle.std.specs.Prelude.{◌≡◌, ◌<◌, ◌-◌, ◌^◌, ◌++◌, ◌∷◌, [], List, ℕ, min, length, IfOk, IfErr, OnOk};
ghost use Rattle.rel_path.specs.Causes.{Counts};
ghost use Rattle.cache_api.specs.Cache.{is_fault, IsFindErr};
ghost use Rattle.record_log.specs.Log.{device_of};
ghost use Rattle.blob_pool.specs.Contents.{contents_of};
ghost use Rattle.blob_pool.specs.Known.{Knows, OnlyReadsLog, known_in, count_in};
ghost use Rattle.pair_frames.specs.Pairs.{piece_bytes};
ghost use Rattle.pair_reader.specs.Frames.{contents_among};
ghost use Rattle.pair_reader.specs.Standing.{piece_of, pieces_of, bytes_of, IsThere, AreThere, AllShow};
ghost use Rattle.pair_reader.specs.Answers.{ReadsAtMost};

use crate::calls::add_content;
use crate::piece::PieceAt;
use blob_pool::Pool;
use cache_api::CacheErr;
use record_log::Log;
use std::alloc::Global;
use store_dev::StoreDevice;

/// How many bytes the pieces have.
pub(crate) fn length(pieces: &[PieceAt]) -> u64
    ensures { (text : List ℕ) (contents : List (List ℕ)) → AllShow text contents pieces.now
        → result ≡ min (length (bytes_of contents pieces.now)) (2 ^ 64 - 1) }
{
    let mut len: u64 = 0;
    for piece in pieces {
        len = len.saturating_add(piece.place().len);
    }
    len
}

/// The bytes of the pieces.
pub(crate) fn joined<S: StoreDevice>(
    alloc: Global,
    pool: &Pool,
    log: &mut Log<S>,
    pieces: &[PieceAt],
) -> Result<Vec<u8>, CacheErr>
    requires pool { Knows pool.now log.old }
    requires there { AreThere (count_in pool.now) pieces.now }
    ensures bytes { S.tells → IfOk result (λ v.
        v.items ≡ bytes_of (contents_of (known_in log.old)) pieces.now) }
    ensures reads { ReadsAtMost (contents_among (pieces_of pieces.now)) log.old log.new }
    ensures log { OnlyReadsLog log.old log.new }
    ensures answers { IfErr result IsFindErr }
    ensures cause { Counts is_fault (S.store_faults (device_of log.old))
        (S.store_faults (device_of log.new)) result }
{
    let mut bytes = Vec::new(alloc);
    for piece in pieces {
        add(pool, log, *piece, &mut bytes)?;
    }
    Ok(bytes)
}

/// Adds the bytes of a piece.
fn add<S: StoreDevice>(
    pool: &Pool,
    log: &mut Log<S>,
    piece: PieceAt,
    to: &mut Vec<u8>,
) -> Result<(), CacheErr>
    requires pool { Knows pool.now log.old }
    requires there { IsThere (count_in pool.now) piece }
    ensures bytes { S.tells → OnOk result (to.new.items
        ≡ to.old.items ++ piece_bytes (contents_of (known_in log.old)) (piece_of piece.entry)) }
    ensures reads { ReadsAtMost (contents_among (piece_of piece.entry ∷ [])) log.old log.new }
    ensures log { OnlyReadsLog log.old log.new }
    ensures answers { IfErr result IsFindErr }
    ensures cause { Counts is_fault (S.store_faults (device_of log.old))
        (S.store_faults (device_of log.new)) result }
{
    match piece {
        PieceAt::Literal(bytes, _) => {
            to.extend_from_slice(bytes)?;
            Ok(())
        }
        PieceAt::Content(id, _) => add_content(pool, log, id, to),
    }
}
