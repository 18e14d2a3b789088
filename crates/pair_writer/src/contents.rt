// The contents among frames.
ghost use Rattle.std.specs.Prelude.{◌≡◌, ◌++◌, ◌∷◌, [], map, IfOk, OnOk, OnErr};
ghost use Rattle.record_log.specs.Kinds.{blobs_in};
ghost use Rattle.blob_pool.specs.Contents.{contents_of};
ghost use Rattle.pair_writer.specs.Held.{staged_entries};
ghost use Rattle.pair_writer.specs.Contents.{digests_in, bytes_in, SameContents};

use crate::StagedFrame;
use print_index::PrintIndex;
use std::alloc::{AllocError, Global};

/// Contents by number: their digests, and their bytes where they lie.
#[derive(Drop)]
pub(crate) struct Contents<'a> {
    pub(crate) index: PrintIndex,
    pub(crate) bytes: Vec<&'a [u8]>,
}

impl<'a> Contents<'a> {
    /// No contents.
    pub(crate) fn new(alloc: Global) -> Contents<'a>
        ensures digests { digests_in result ≡ [] }
        ensures bytes { bytes_in result ≡ [] }
    {
        Contents {
            index: PrintIndex::new(alloc),
            bytes: Vec::new(alloc),
        }
    }

    /// The contents among these frames.
    pub(crate) fn of(alloc: Global, frames: &[StagedFrame<'a>]) -> Result<Contents<'a>, AllocError>
        ensures digests { IfOk result (λ contents. digests_in contents
            ≡ map (λ e. e.key) (blobs_in (staged_entries frames.now))) }
        ensures bytes { IfOk result (λ contents.
            bytes_in contents ≡ contents_of (staged_entries frames.now)) }
    {
        let mut contents = Contents::new(alloc);
        for frame in frames {
            contents.learn(frame)?;
        }
        Ok(contents)
    }

    /// Takes in a frame, if it is a content.
    fn learn(&mut self, frame: &StagedFrame<'a>) -> Result<(), AllocError>
        ensures digests { OnOk result (digests_in self.new ≡ digests_in self.old
            ++ map (λ e. e.key) (blobs_in (staged_entries (frame.now ∷ [])))) }
        ensures bytes { OnOk result (bytes_in self.new
            ≡ bytes_in self.old ++ contents_of (staged_entries (frame.now ∷ []))) }
    {
        match frame {
            StagedFrame::Content { digest, bytes } => self.push(*digest, *bytes),
            StagedFrame::Record { .. } => Ok(()),
        }
    }

    /// Gives a content the next number. The contents stay as they were where memory is wanting.
    pub(crate) fn push(&mut self, digest: [u8; 32], bytes: &'a [u8]) -> Result<(), AllocError>
        ensures digests { OnOk result (digests_in self.new ≡ digests_in self.old ++ digest ∷ []) }
        ensures bytes { OnOk result (bytes_in self.new ≡ bytes_in self.old ++ bytes.now ∷ []) }
        ensures kept { OnErr result (SameContents self.old self.new) }
    {
        self.bytes.reserve(1)?;
        self.index.push(digest)?;
        self.bytes.push_reserved(bytes);
        Ok(())
    }
}
