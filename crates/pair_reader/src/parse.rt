// The pieces in a frame.
ghost use Rattle.std.specs.Prelude.{◌≡◌, ◌<◌, ◌∷◌, [], List, ℕ, IfOk, IfSome};
ghost use Rattle.codes.specs.Codes.{took};
ghost use Rattle.cache_api.specs.Memory.{OnlyMemory};
ghost use Rattle.record_log.specs.Frames.{IsAt, text_of};
ghost use Rattle.record_log.specs.Pieces.{width, read_piece, read_pieces};
ghost use Rattle.record_log.specs.Pieces.Piece.{Literal as Plain};
ghost use Rattle.record_log.specs.Log.{frames_in, count_of};
ghost use Rattle.record_log.specs.Answers.{entry_of};
ghost use Rattle.blob_pool.specs.Contents.{contents_of};
ghost use Rattle.blob_pool.specs.Known.{Knows, known_in, count_in};
ghost use Rattle.pair_reader.specs.Frames.{whole_in, record_in};
ghost use Rattle.pair_reader.specs.Standing.{piece_of, pieces_of, IsThere, AreThere, Shows, AllShow};
ghost use Rattle.pair_reader.specs.Standing.{StandsAt, BothThere, BothShow};
ghost use Rattle.pair_reader.specs.Sources.{SourceStands, EndsWith};

use crate::piece::{PairPieces, PieceAt};
use blob_pool::{BlobId, Pool};
use cache_api::CacheErr;
use record_log::{Frame, Log, PAIR, PieceRef, count_at, is_long, piece_at};
use std::alloc::Global;
use store_dev::StoreDevice;

/// A record, and the offset at which it stands.
#[derive(Clone, Copy)]
pub(crate) struct Source<'a> {
    long: bool,
    bytes: &'a [u8],
    at: u64,
}

/// The pieces of a frame that was read. It reads nothing. What is no pair, which stands in no log that was opened, is
/// answered as if memory were wanting.
pub(crate) fn pieces_in<'a, S: StoreDevice>(
    alloc: Global,
    pool: &Pool,
    log: &Log<S>,
    number: u64,
    frame: &'a Frame,
) -> Result<PairPieces<'a>, CacheErr>
    requires number { number < count_of log.now }
    requires pool { Knows pool.now log.now }
    requires frame { S.tells → IsAt (frames_in log.now) number (entry_of frame.now) }
    ensures record { IfOk result (λ p.
        (pieces_of p.key.items, pieces_of p.value.items) ≡ record_in (entry_of frame.now)) }
    ensures there { IfOk result (BothThere (count_in pool.now)) }
    ensures show { S.tells → IfOk result
        (BothShow (text_of (frames_in log.now)) (contents_of (known_in log.now))) }
    ensures memory { OnlyMemory result }
{
    if frame.kind == PAIR {
        return whole_pieces(alloc, log, number, frame);
    }
    let source = Source {
        long: is_long(frame.kind),
        bytes: frame.value.as_slice(),
        at: log.value_span(number).at,
    };
    let (key, behind) = piece_list(alloc, pool, log, source, source.bytes)?;
    let (value, behind) = piece_list(alloc, pool, log, source, behind)?;
    if !behind.is_empty() {
        return Err(CacheErr::OutOfMemory);
    }
    Ok(PairPieces { key, value })
}

/// A pair that stands whole: key and value are a piece each.
fn whole_pieces<'a, S: StoreDevice>(
    alloc: Global,
    log: &Log<S>,
    number: u64,
    frame: &'a Frame,
) -> Result<PairPieces<'a>, CacheErr>
    requires number { number < count_of log.now }
    requires frame { S.tells → IsAt (frames_in log.now) number (entry_of frame.now) }
    ensures record { IfOk result (λ p.
        (pieces_of p.key.items, pieces_of p.value.items) ≡ whole_in (entry_of frame.now)) }
    ensures there { (count : ℕ) → IfOk result (BothThere count) }
    ensures show { S.tells → (contents : List (List ℕ))
        → IfOk result (BothShow (text_of (frames_in log.now)) contents) }
    ensures memory { OnlyMemory result }
{
    let key = one_literal(alloc, frame.key.as_slice(), log.key_span(number).at)?;
    let value = one_literal(alloc, frame.value.as_slice(), log.value_span(number).at)?;
    Ok(PairPieces { key, value })
}

/// Bytes that stand at that offset as the only piece.
fn one_literal<'a>(alloc: Global, bytes: &'a [u8], at: u64) -> Result<Vec<PieceAt<'a>>, CacheErr>
    ensures piece { IfOk result (λ v. pieces_of v.items ≡ Plain bytes.now ∷ []) }
    ensures there { (count : ℕ) → IfOk result (λ v. AreThere count v.items) }
    ensures show { (text : List ℕ) (contents : List (List ℕ)) → StandsAt text at bytes.now
        → IfOk result (λ v. AllShow text contents v.items) }
    ensures memory { OnlyMemory result }
{
    let mut pieces = Vec::new(alloc);
    pieces.push(PieceAt::Literal(bytes, at))?;
    Ok(pieces)
}

/// The list of pieces at the front of bytes that end a record, and what follows it.
fn piece_list<'a, S: StoreDevice>(
    alloc: Global,
    pool: &Pool,
    log: &Log<S>,
    source: Source<'a>,
    bytes: &'a [u8],
) -> Result<(Vec<PieceAt<'a>>, &'a [u8]), CacheErr>
    requires pool { Knows pool.now log.now }
    requires stands { S.tells → SourceStands (text_of (frames_in log.now)) source }
    requires ends { EndsWith source bytes.now }
    ensures read { IfOk result (λ p.
        read_pieces (width source.entry.long) bytes.now ≡ took (pieces_of p.0.items) p.1.now) }
    ensures ends { IfOk result (λ p. EndsWith source.entry p.1.now) }
    ensures there { IfOk result (λ p. AreThere (count_in pool.now) p.0.items) }
    ensures show { S.tells → IfOk result (λ p.
        AllShow (text_of (frames_in log.now)) (contents_of (known_in log.now)) p.0.items) }
    ensures memory { OnlyMemory result }
{
    let Some((count, first)) = count_at(source.long, bytes) else {
        return Err(CacheErr::OutOfMemory);
    };
    let mut pieces = Vec::new(alloc);
    let mut rest = first;
    let mut left = count;
    while left > 0 {
        let Some((piece, more)) = next_piece(pool, log, source, rest) else {
            return Err(CacheErr::OutOfMemory);
        };
        pieces.push(piece)?;
        rest = more;
        left -= 1;
    }
    Ok((pieces, rest))
}

/// The piece at the front, and what follows it. `None` where no piece stands there, or it names no content that there is.
fn next_piece<'a, S: StoreDevice>(
    pool: &Pool,
    log: &Log<S>,
    source: Source<'a>,
    bytes: &'a [u8],
) -> Option<(PieceAt<'a>, &'a [u8])>
    requires pool { Knows pool.now log.now }
    requires stands { S.tells → SourceStands (text_of (frames_in log.now)) source }
    requires ends { EndsWith source bytes.now }
    ensures read { IfSome result (λ p.
        read_piece (width source.entry.long) bytes.now ≡ took (piece_of p.0) p.1.now) }
    ensures ends { IfSome result (λ p. EndsWith source.entry p.1.now) }
    ensures there { IfSome result (λ p. IsThere (count_in pool.now) p.0) }
    ensures show { S.tells → IfSome result (λ p.
        Shows (text_of (frames_in log.now)) (contents_of (known_in log.now)) p.0) }
{
    let (piece, behind) = piece_at(source.long, bytes)?;
    match piece {
        PieceRef::Literal(literal) => {
            let passed = source.bytes.len() - behind.len() - literal.len();
            // Where the device tells nothing, nothing bounds the sum.
            let at = source.at.saturating_add(passed as u64);
            Some((PieceAt::Literal(literal, at), behind))
        }
        PieceRef::Content(number) => {
            if number >= pool.count() {
                return None;
            }
            let id = BlobId { number };
            Some((PieceAt::Content(id, pool.span(log, id)), behind))
        }
    }
}
