// The value of a record: the pieces of a key, and then those of a value.
ghost use Rattle.std.specs.Prelude.{◌≡◌, ◌<◌, ◌++◌, Bool, Some, IfSome, OnOk};
ghost use Rattle.std.specs.Option.{option_map};
ghost use Rattle.codes.specs.Codes.{Reads, read_both};
ghost use Rattle.codes.specs.Views.{taken_by};
ghost use Rattle.record_log.specs.Pieces.{width, limit, number, read_number, piece_in, piece_by};
ghost use Rattle.record_log.specs.Pieces.{behind, is_below, all_below, both_below};
ghost use Rattle.record_log.specs.Pieces.{PieceFits, piece_text, read_piece, read_pieces};
ghost use Rattle.record_log.specs.Pieces.{Record, RecordFits, record_text, record_of};

use crate::number::{number_at, put_number};
use std::alloc::AllocError;

/// The first byte of a piece that is bytes.
pub const LITERAL: u8 = 0;

/// Of one that names a content.
pub const NAMED: u8 = 1;

/// A piece of a record: bytes, or the number of a content among the frames of kind 2.
#[derive(Clone, Copy, Debug, PartialEq, Eq)]
pub enum PieceRef<'a> {
    Literal(&'a [u8]),
    Content(u64),
}

/// Whether the bytes are a record that names none but the first contents, of which there are so many.
pub fn is_record(long: bool, contents: u64, bytes: &[u8]) -> bool
    ensures { result ≡ both_below contents (record_of (width long) bytes.now) }
{
    let Some(value) = behind_pieces(long, contents, bytes) else {
        return false;
    };
    let Some(rest) = behind_pieces(long, contents, value) else {
        return false;
    };
    rest.is_empty()
}

/// What follows the pieces at the front, which name none but these contents. `None` where no such pieces stand there.
fn behind_pieces(long: bool, contents: u64, bytes: &[u8]) -> Option<&[u8]>
    ensures { option_map (λ r. r.now) result
        ≡ behind (all_below contents) (read_pieces (width long) bytes.now) }
{
    let (count, rest) = number_at(long, bytes)?;
    let mut left = count;
    let mut rest = rest;
    while left > 0 {
        rest = behind_piece(long, contents, rest)?;
        left -= 1;
    }
    Some(rest)
}

/// What follows the piece at the front.
fn behind_piece(long: bool, contents: u64, bytes: &[u8]) -> Option<&[u8]>
    ensures { option_map (λ r. r.now) result
        ≡ behind (is_below contents) (read_piece (width long) bytes.now) }
{
    let (piece, rest) = piece_at(long, bytes)?;
    if !is_below(contents, piece) {
        return None;
    }
    Some(rest)
}

/// Whether a piece names none but these contents.
fn is_below(contents: u64, piece: PieceRef) -> bool
    ensures { result ≡ is_below contents (piece_in piece.entry) }
{
    match piece {
        PieceRef::Literal(_) => true,
        PieceRef::Content(number) => number < contents,
    }
}

/// The count of the pieces at the front of a list of pieces, and what follows it.
pub fn count_at(long: bool, bytes: &[u8]) -> Option<(u64, &[u8])>
    ensures value { taken_by (λ p. p.0) (λ p. p.1.now) result
        ≡ read_number (width long) bytes.now }
    ensures short { IfSome result (λ p. p.0 < limit long) }
{
    number_at(long, bytes)
}

/// The piece at the front, and what follows it.
pub fn piece_at(long: bool, bytes: &[u8]) -> Option<(PieceRef, &[u8])>
    ensures { taken_by (λ p. piece_in p.0) (λ p. p.1.now) result
        ≡ read_piece (width long) bytes.now }
{
    let (tag, rest) = bytes.split_first()?;
    let (number, more) = number_at(long, rest)?;
    piece_by(*tag, number, more)
}

/// The piece with that first byte and that number, and what follows it.
fn piece_by(tag: u8, number: u64, bytes: &[u8]) -> Option<(PieceRef, &[u8])>
    ensures { taken_by (λ p. piece_in p.0) (λ p. p.1.now) result ≡ piece_by tag number bytes.now }
{
    match tag {
        LITERAL => literal_at(number, bytes),
        NAMED => Some((PieceRef::Content(number), bytes)),
        _ => None,
    }
}

/// So many bytes, and what follows them. `None` where there are fewer.
fn literal_at(len: u64, bytes: &[u8]) -> Option<(PieceRef, &[u8])>
    ensures { taken_by (λ p. piece_in p.0) (λ p. p.1.now) result ≡ piece_by LITERAL len bytes.now }
{
    if (bytes.len() as u64) < len {
        return None;
    }
    let (front, more) = bytes.split_at(len as usize);
    Some((PieceRef::Literal(front), more))
}

/// Adds the count of a list of pieces.
pub fn put_count(to: &mut Vec<u8>, long: bool, count: u64) -> Result<(), AllocError>
    requires { count < limit long }
    ensures { OnOk result (to.new.items ≡ to.old.items ++ number (width long) count) }
{
    put_number(to, long, count)
}

/// Adds a piece.
#[tactic(auto, unfolding(crate::specs::Pieces::number, crate::specs::Pieces::piece_text))]
pub fn put_piece(to: &mut Vec<u8>, long: bool, piece: PieceRef) -> Result<(), AllocError>
    requires { PieceFits (limit long) (piece_in piece) }
    ensures { OnOk result (to.new.items
        ≡ to.old.items ++ piece_text (width long) (piece_in piece.entry)) }
{
    match piece {
        PieceRef::Literal(bytes) => {
            to.push(LITERAL)?;
            put_number(to, long, bytes.len() as u64)?;
            to.extend_from_slice(bytes)
        }
        PieceRef::Content(number) => {
            to.push(NAMED)?;
            put_number(to, long, number)
        }
    }
}

/// The law of records: the text of a record whose numbers fit is read as it, whatever follows, and what is read as a
/// record was written so.
pub fn record_law()
    ensures reads { (long : Bool) → Reads (record_text (width long)) (RecordFits (limit long))
        (read_both (read_pieces (width long)) (read_pieces (width long))) }
    ensures again { (long : Bool) (r : Record) → RecordFits (limit long) r
        → record_of (width long) (record_text (width long) r) ≡ Some r }
{}
