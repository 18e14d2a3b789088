// A frame that is to be appended.
ghost use Rattle.std.specs.Prelude.{◌≡◌};
ghost use Rattle.record_log.specs.Batch.{new_entry};
ghost use Rattle.pair_writer.specs.Held.{staged_entry};

use record_log::{CONTENT, LONG_RECORD, NewFrame};

/// A frame that is to be appended: a content, which stays where it is, or the text of a record.
#[derive(Drop)]
pub enum StagedFrame<'a> {
    Content { digest: [u8; 32], bytes: &'a [u8] },
    Record { print: [u8; 32], text: Vec<u8> },
}

impl<'a> StagedFrame<'a> {
    pub fn as_new(&self) -> NewFrame
        ensures { new_entry result ≡ staged_entry self.now }
    {
        match self {
            StagedFrame::Content { digest, bytes } => NewFrame {
                kind: CONTENT,
                key: digest,
                value: *bytes,
            },
            StagedFrame::Record { print, text } => NewFrame {
                kind: LONG_RECORD,
                key: print,
                value: text.as_slice(),
            },
        }
    }
}
