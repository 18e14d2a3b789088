// One frame, and its bytes.
ghost use Rattle.std.specs.Prelude.{◌≡◌, ◌<◌, ◌+◌, ◌++◌, [], ◌∷◌, length, IfOk, OnOk};
ghost use Rattle.record_log.specs.Kinds.{entry, text, limit_of, room_for};
ghost use Rattle.record_log.specs.Frames.{opened};
ghost use Rattle.record_log.specs.Batch.{new_entries, EachWithin, room_for_all};

use crate::kind::{CLOSED, OPEN, head_of, is_long};
use crate::number::put_number;
use rel_path::Bytes;
use std::alloc::{AllocError, Global};

/// A frame as it was appended.
#[derive(Debug, Drop)]
pub struct Frame {
    pub kind: u8,
    pub key: Bytes,
    pub value: Bytes,
}

/// Adds the bytes of a frame.
#[tactic(auto, unfolding(crate::specs::Kinds::text, crate::specs::Pieces::number))]
pub fn put_text(to: &mut Vec<u8>, kind: u8, key: &[u8], value: &[u8]) -> Result<(), AllocError>
    requires key_len { length key.now < limit_of kind }
    requires value_len { length value.now < limit_of kind }
    ensures { OnOk result (to.new.items ≡ to.old.items ++ text (entry kind key.now value.now)) }
{
    to.push(kind)?;
    put_number(to, is_long(kind), key.len() as u64)?;
    put_number(to, is_long(kind), value.len() as u64)?;
    to.extend_from_slice(key)?;
    to.extend_from_slice(value)?;
    Ok(())
}

/// How many bytes a frame takes with the gate behind it, or 2^64 - 1 where that is more.
#[tactic(auto, unfolding(crate::specs::Kinds::size))]
pub fn need_of(kind: u8, key: &[u8], value: &[u8]) -> u64
    ensures { result ≡ room_for (entry kind key.now value.now) }
{
    let lens = (key.len() as u64).saturating_add(value.len() as u64);
    lens.saturating_add(head_of(kind) + 1)
}

/// A frame that is to be appended.
#[derive(Clone, Copy, Debug)]
pub struct NewFrame<'a> {
    pub kind: u8,
    pub key: &'a [u8],
    pub value: &'a [u8],
}

/// The bytes of frames, each behind an open gate, and a closed gate behind them.
pub fn opened_bytes(alloc: Global, frames: &[NewFrame]) -> Result<Vec<u8>, AllocError>
    requires { EachWithin (new_entries frames.now) }
    ensures { IfOk result (λ bytes. bytes.items ≡ opened (new_entries frames.now) ++ 0 ∷ []) }
{
    let mut bytes = Vec::new(alloc);
    for frame in frames {
        bytes.push(OPEN)?;
        put_text(&mut bytes, frame.kind, frame.key, frame.value)?;
    }
    bytes.push(CLOSED)?;
    Ok(bytes)
}

/// How many bytes frames take, each with a gate, or 2^64 - 1 where that is more.
pub fn need_of_all(frames: &[NewFrame]) -> u64
    ensures { result ≡ room_for_all (new_entries frames.now) }
{
    let mut need: u64 = 0;
    for frame in frames {
        need = need.saturating_add(need_of(frame.kind, frame.key, frame.value));
    }
    need
}
