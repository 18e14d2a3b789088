// Pieces as the parts of an artifact's text.
ghost use Rattle.std.specs.Prelude.{◌≡◌, ◌++◌, List, ℕ, map, length, IfOk, IsTrue};
ghost use Rattle.cache_api.specs.Memory.{OnlyMemory};
ghost use Rattle.artifact_reader.specs.Parts.{IsWell, AreWell, HasUnknown, is_known};
ghost use Rattle.pair_frames.specs.Pairs.{piece_bytes};
ghost use Rattle.pair_reader.specs.Standing.{piece_of, part_of, bytes_of, Shows, AllShow};
ghost use Rattle.pair_reader.specs.Parts.{AreShown, IsFrontPart};

use crate::piece::PieceAt;
use artifact_reader::Part;
use cache_api::CacheErr;
use rel_path::Span;
use std::alloc::Global;

/// The pieces as parts, of which contents are not known.
pub(crate) fn parts_of<'a>(alloc: Global, pieces: &[PieceAt<'a>]) -> Result<Vec<Part<'a>>, CacheErr>
    ensures parts { IfOk result (λ v. v.items ≡ map part_of pieces.now) }
    ensures memory { OnlyMemory result }
{
    let parts = pieces.iter().map(|piece| piece.part()).collect(alloc)?;
    Ok(parts)
}

/// The pieces as parts, where these are all their bytes, so that all of them are known.
pub(crate) fn known_parts<'a>(
    alloc: Global,
    pieces: &[PieceAt],
    bytes: &'a [u8],
) -> Result<Vec<Part<'a>>, CacheErr>
    ensures well { IfOk result (λ v. AreWell v.items) }
    ensures known { IfOk result (λ v. HasUnknown v.items → ⊥) }
    ensures count { IfOk result (λ v. length v.items ≡ length pieces.now) }
    ensures shown { (text : List ℕ) (contents : List (List ℕ)) → AllShow text contents pieces.now
        → bytes.now ≡ bytes_of contents pieces.now
        → IfOk result (λ v. AreShown text v.items (bytes_of contents pieces.now)) }
    ensures memory { OnlyMemory result }
{
    let mut parts = Vec::new(alloc);
    let mut left = bytes;
    for piece in pieces {
        let (part, behind) = known_part(*piece, left);
        parts.push(part)?;
        left = behind;
    }
    Ok(parts)
}

/// The piece as a part whose bytes are at the front of these, and what follows it.
fn known_part<'a>(piece: PieceAt, bytes: &'a [u8]) -> (Part<'a>, &'a [u8])
    ensures known { IsTrue (is_known result.0) }
    ensures well { IsWell result.0 }
    ensures shown { (text : List ℕ) (contents : List (List ℕ)) (tail : List ℕ)
        → Shows text contents piece.entry
        → bytes.now ≡ piece_bytes contents (piece_of piece.entry) ++ tail
        → IsFrontPart text (piece_bytes contents (piece_of piece.entry)) result.0
        × (result.1.now ≡ tail) }
{
    let place = piece.place();
    // Where the device tells nothing, there may be fewer.
    let len = place.len.min(bytes.len() as u64);
    let (front, behind) = bytes.split_at(len as usize);
    let part = Part::Known(front, Span { at: place.at, len });
    (part, behind)
}
