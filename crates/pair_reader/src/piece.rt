// A piece of a pair, and where it stands.
ghost use Rattle.std.specs.Prelude.{◌≡◌};
ghost use Rattle.pair_reader.specs.Standing.{place_of, part_of};

use artifact_reader::Part;
use blob_pool::BlobId;
use rel_path::Span;

/// A piece of a key or a value: bytes and the offset at which they stand in the text of the frames, or a content and its
/// place there.
#[derive(Clone, Copy, Debug)]
pub(crate) enum PieceAt<'a> {
    Literal(&'a [u8], u64),
    Content(BlobId, Span),
}

/// The pieces of a pair.
#[derive(Debug, Drop)]
pub(crate) struct PairPieces<'a> {
    pub(crate) key: Vec<PieceAt<'a>>,
    pub(crate) value: Vec<PieceAt<'a>>,
}

impl<'a> PieceAt<'a> {
    /// Where it stands.
    pub(crate) fn place(self) -> Span
        ensures { result ≡ place_of self.entry }
    {
        match self {
            PieceAt::Literal(bytes, at) => Span {
                at,
                len: bytes.len() as u64,
            },
            PieceAt::Content(_, span) => span,
        }
    }

    /// As a part of a text, of which a content is not known.
    pub(crate) fn part(self) -> Part<'a>
        ensures { result ≡ part_of self.entry }
    {
        match self {
            PieceAt::Literal(bytes, _) => Part::Known(bytes, self.place()),
            PieceAt::Content(_, span) => Part::Unknown(span),
        }
    }
}
