// The pieces of a text that is being cut.
ghost use Rattle.std.specs.Prelude.{◌≡◌, ◌≤◌, ◌<◌, ◌+◌, ◌^◌, ◌++◌, ◌∷◌, [], List, length, OnOk};

use cache_api::CacheErr;
use codes::{put_str, put_word};
use record_log::{PieceRef, put_count, put_piece};
use std::alloc::{AllocError, Global};

/// The pieces of a text as bytes, and the bytes behind the last piece, which are in none yet.
#[derive(Drop)]
pub(crate) struct Pieces {
    items: Vec<u8>,
    // The greatest `u64` where they are more.
    count: u64,
    literal: Vec<u8>,
    ghost small: { count < 2 ^ 64 },
}

impl Pieces {
    ghost use Rattle.std.specs.Int.{w64};
    ghost use Rattle.codes.specs.Codes.{AreBytes, str, word, IsShort};
    ghost use Rattle.cache_api.specs.Memory.{OnlyMemory};
    ghost use Rattle.record_log.specs.Pieces.{Piece, pieces_text};
    ghost use Rattle.record_log.specs.Pieces.Piece.{Content};
    ghost use Rattle.pair_frames.specs.Puts.{literal_before};
    ghost use Rattle.pair_writer.specs.Pieces.{Adds, ArePieces, open_in, weight};

    /// No pieces.
    pub(crate) fn new(alloc: Global) -> Pieces
        ensures none { ArePieces result [] }
        ensures open { open_in result ≡ [] }
        ensures weight { weight result ≡ 0 }
    {
        Pieces {
            items: Vec::new(alloc),
            count: 0,
            literal: Vec::new(alloc),
        }
    }

    /// Adds bytes to those that are in no piece yet.
    pub(crate) fn plain(&mut self, bytes: &[u8]) -> Result<(), AllocError>
        ensures added { OnOk result (Adds self.old self.new [] (open_in self.old ++ bytes.now)) }
        ensures bytes { AreBytes bytes.now }
    {
        self.literal.extend_from_slice(bytes)
    }

    /// Adds a number in four bytes.
    pub(crate) fn word(&mut self, n: u32) -> Result<(), AllocError>
        ensures { OnOk result (Adds self.old self.new [] (open_in self.old ++ word n)) }
    {
        put_word(&mut self.literal, n)
    }

    /// Adds a text behind its length, and a length. A length of 2^32 or more takes more memory than there is.
    pub(crate) fn head(&mut self, text: &[u8], len: usize) -> Result<(), CacheErr>
        ensures added { OnOk result (Adds self.old self.new []
            (open_in self.old ++ (str text.now ++ word len))) }
        ensures bytes { AreBytes text.now }
        ensures short { OnOk result (IsShort text.now × (len < 2 ^ 32)) }
        ensures memory { OnlyMemory result }
    {
        let Ok(_) = u32::try_from(text.len()) else {
            return Err(CacheErr::OutOfMemory);
        };
        let Ok(len) = u32::try_from(len) else {
            return Err(CacheErr::OutOfMemory);
        };
        put_str(&mut self.literal, text)?;
        put_word(&mut self.literal, len)?;
        Ok(())
    }

    /// Makes a piece of the bytes that are in none, where there are any.
    fn close(&mut self) -> Result<(), AllocError>
        ensures { OnOk result (Adds self.old self.new (literal_before (open_in self.old) []) []) }
    {
        if self.literal.is_empty() {
            return Ok(());
        }
        put_piece(
            &mut self.items,
            true,
            PieceRef::Literal(self.literal.as_slice()),
        )?;
        self.count = self.count.saturating_add(1);
        self.literal.clear();
        Ok(())
    }

    /// Adds the piece of a content.
    pub(crate) fn content(&mut self, number: u64) -> Result<(), AllocError>
        ensures { OnOk result (Adds self.old self.new
            (literal_before (open_in self.old) (Content number ∷ [])) []) }
    {
        self.close()?;
        put_piece(&mut self.items, true, PieceRef::Content(number))?;
        self.count = self.count.saturating_add(1);
        Ok(())
    }

    /// Adds the text of the pieces, the last literal among them.
    pub(crate) fn put_to(self, to: &mut Vec<u8>) -> Result<(), AllocError>
        ensures text { OnOk result ((pieces : List Piece) → ArePieces self pieces
            → to.new.items ≡ to.old.items
            ++ pieces_text w64 (pieces ++ literal_before (open_in self) [])) }
        ensures size { OnOk result (length to.new.items
            ≤ length to.old.items + (weight self + 17)) }
    {
        let mut pieces = self;
        pieces.close()?;
        put_count(to, true, pieces.count)?;
        to.extend_from_slice(pieces.items.as_slice())?;
        Ok(())
    }
}
