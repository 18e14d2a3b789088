// Where a frame stands in a device.
ghost use Rattle.std.specs.Prelude.{true, ◌≡◌, ◌<◌, ◌≤◌, List, ℕ, min, length, drop, IfSome, IfNone};
ghost use Rattle.record_log.specs.Kinds.{Entry, lens_fit, frame_at};
ghost use Rattle.record_log.specs.Seats.{IsFront, IsLaid, seat_size};

use crate::kind::{LONG_HEAD, head_of, is_long, lens_fit};
use crate::number::number_at;
use rel_path::Span;

/// The kind and the lengths of a frame, and the offset of its kind byte.
#[derive(Clone, Copy, Debug, PartialEq, Eq)]
pub struct Seat {
    pub kind: u8,
    pub at: u64,
    pub key_len: u64,
    pub value_len: u64,
}

impl Seat {
    ghost use Rattle.record_log.specs.Seats.{key_span, value_span};

    /// Where the key stands. Where the device's bytes are not told nothing bounds the sums.
    pub fn key(self) -> Span
        ensures { result ≡ key_span self }
    {
        Span {
            at: self.at.saturating_add(head_of(self.kind)),
            len: self.key_len,
        }
    }

    /// Where the value stands, behind the key.
    pub fn value(self) -> Span
        ensures { result ≡ value_span self }
    {
        let key = self.key();
        Span {
            at: key.at.saturating_add(key.len),
            len: self.value_len,
        }
    }
}

/// The seat of the frame that begins so at that offset, with so many bytes from there to the end of the device. `None`
/// where no frame with a gate behind it fits there, or a length is none that its kind may have.
pub fn seat_at(head: &[u8], at: u64, room: u64) -> Option<Seat>
    requires { min LONG_HEAD room ≤ length head.now }
    ensures some { IfSome result (λ seat.
        (bytes : List ℕ) → IsFront head.now bytes at room → IsLaid bytes seat) }
    ensures none { IfNone result ((before : List Entry) (bytes : List ℕ)
        → IsFront head.now bytes at room → frame_at before (drop at bytes) ≡ None) }
    ensures place { IfSome result (λ seat. seat.at ≡ at) }
    ensures lens { IfSome result (λ seat. lens_fit seat.kind seat.key_len seat.value_len ≡ true) }
    ensures inside { IfSome result (λ seat. seat_size seat < room) }
{
    let (kind, tail) = head.split_first()?;
    let kind = *kind;
    let (key_len, rest) = number_at(is_long(kind), tail)?;
    let (value_len, _) = number_at(is_long(kind), rest)?;
    if !lens_fit(kind, key_len, value_len) {
        return None;
    }
    // The lengths may sum past 2^64.
    let size = head_of(kind)
        .saturating_add(key_len)
        .saturating_add(value_len);
    if size >= room {
        return None;
    }
    Some(Seat {
        kind,
        at,
        key_len,
        value_len,
    })
}
