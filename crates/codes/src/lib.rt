//! Numbers, byte strings and lists of them as bytes, and back.
//!
//! A number is a `u32` in little-endian order, or a `u64` in what is called long. A byte string
//! stands behind its length, and a list behind the count of its elements (`list` in `specs/`,
//! which has no call of its own). The writers add to a buffer, and the readers take from the front
//! of a slice and hand out the rest. With bytes as hexadecimal digits:
//!
//! ```text
//! put_word(67305985)         01 02 03 04
//! put_long_word(67305985)    01 02 03 04 00 00 00 00
//! put_str("hi")              02 00 00 00 68 69
//! the list of "hi" alone     01 00 00 00 02 00 00 00 68 69
//! str_at(02 00 00 00 68 69 21)    `hi`, and the rest 21
//! str_at(02 00 00 00 68)          None: one of two bytes is there
//! word_at(21)                     None: fewer than four bytes
//! ```
//!
//! Lengths are in bytes, counts in elements. `put_str` takes fewer than 2^32 bytes. A reader
//! answers `None` where no whole value stands at the front. A writer fails for want of memory
//! alone, and never where the buffer has the room. After an error the buffer is as before.
#![tactic(auto)]

ghost use Rattle.std.specs.Prelude.{◌≡◌, ◌+◌, ◌<◌, ◌≤◌, ◌^◌, ◌++◌, length, OnOk, OnErr, IsOk, vec_len, vec_capacity};
ghost use Rattle.codes.specs.Codes.{Reads, Separates, word, IsWord, read_word, str, IsShort, read_str, list, IsList, read_list};
ghost use Rattle.codes.specs.Codes.{long_word, IsLongWord, read_long_word};
ghost use Rattle.codes.specs.Codes.{long_str, IsLong, read_long_str};
ghost use Rattle.codes.specs.Codes.{long_list, IsLongList, read_long_list};
ghost use Rattle.codes.specs.Views.{taken_by};

use std::alloc::AllocError;

/// How many bytes a long number takes.
pub const LONG_BYTES: usize = 8;

/// The law of the codes: each reader gives back what was written, whatever follows, and reads nothing else. So no two
/// values have one code, whatever follows the one and the other. A list of anything that is read so is read so itself.
pub fn codes_law()
    ensures word { Reads word IsWord read_word }
    ensures str { Reads str IsShort read_str }
    ensures list { Reads (list str) (IsList IsShort) (read_list read_str) }
    ensures nested { Reads (list (list str)) (IsList (IsList IsShort))
        (read_list (read_list read_str)) }
    ensures words_differ { Separates word IsWord }
    ensures strs_differ { Separates str IsShort }
    ensures lists_differ { Separates (list str) (IsList IsShort) }
    ensures nested_differ { Separates (list (list str)) (IsList (IsList IsShort)) }
    ensures long_word { Reads long_word IsLongWord read_long_word }
    ensures long_str { Reads long_str IsLong read_long_str }
    ensures long_list { Reads (long_list long_str) (IsLongList IsLong)
        (read_long_list read_long_str) }
    ensures long_words_differ { Separates long_word IsLongWord }
    ensures long_strs_differ { Separates long_str IsLong }
    ensures long_lists_differ { Separates (long_list long_str) (IsLongList IsLong) }
{}

/// The number at the front, and what follows it. `None` where there are fewer than four bytes.
#[tactic(auto, unfolding(crate::specs::Codes::read_word))]
pub fn word_at(bytes: &[u8]) -> Option<(u32, &[u8])>
    ensures { taken_by (λ p. p.0) (λ p. p.1.now) result ≡ read_word bytes.now }
{
    if bytes.len() < 4 {
        return None;
    }
    let (front, rest) = bytes.split_at(4);
    let word = u32::from_le_bytes([front[0], front[1], front[2], front[3]]);
    Some((word, rest))
}

/// The byte string at the front, and what follows it. `None` where its length or the string does not stand there whole.
#[tactic(auto, unfolding(crate::specs::Codes::read_str))]
pub fn str_at(bytes: &[u8]) -> Option<(&[u8], &[u8])>
    ensures { taken_by (λ p. p.0.now) (λ p. p.1.now) result ≡ read_str bytes.now }
{
    let (len, rest) = word_at(bytes)?;
    let len = len as usize;
    if rest.len() < len {
        return None;
    }
    let (front, more) = rest.split_at(len);
    Some((front, more))
}

/// Adds a number. Room that the caller has taken before is enough: memory is wanting only where four bytes do not fit.
#[tactic(auto, unfolding(crate::specs::Codes::word))]
pub fn put_word(to: &mut Vec<u8>, n: u32) -> Result<(), AllocError>
    ensures written { OnOk result (to.new.items ≡ to.old.items ++ word n) }
    ensures kept { OnErr result (to.new.items ≡ to.old.items) }
    ensures len { OnOk result (vec_len to.new ≡ vec_len to.old + 4) }
    ensures capacity { vec_capacity to.old ≤ vec_capacity to.new }
    ensures succeeds { vec_len to.old + 4 ≤ vec_capacity to.old → IsOk result }
{
    to.extend_from_slice(&n.to_le_bytes())?;
    Ok(())
}

/// Adds a byte string behind its length. The room for both is taken first, and memory is wanting only where they do not
/// fit.
#[tactic(auto, unfolding(crate::specs::Codes::str))]
pub fn put_str(to: &mut Vec<u8>, bytes: &[u8]) -> Result<(), AllocError>
    requires { length bytes.now < 2 ^ 32 }
    ensures written { OnOk result (to.new.items ≡ to.old.items ++ str bytes.now) }
    ensures kept { OnErr result (to.new.items ≡ to.old.items) }
    ensures len { OnOk result (vec_len to.new ≡ vec_len to.old + (4 + length bytes.now)) }
    ensures capacity { vec_capacity to.old ≤ vec_capacity to.new }
    ensures succeeds { vec_len to.old + (4 + length bytes.now) ≤ vec_capacity to.old → IsOk result }
{
    // A sum past the end of a `usize` is refused as any room that there is not.
    to.reserve(bytes.len().saturating_add(4))?;
    put_word(to, bytes.len() as u32)?;
    to.extend_from_slice(bytes)?;
    Ok(())
}

/// The number of eight bytes at the front, and what follows it. `None` where there are fewer bytes.
#[tactic(auto, unfolding(crate::specs::Codes::read_long_word))]
pub fn long_word_at(bytes: &[u8]) -> Option<(u64, &[u8])>
    ensures { taken_by (λ p. p.0) (λ p. p.1.now) result ≡ read_long_word bytes.now }
{
    if bytes.len() < LONG_BYTES {
        return None;
    }
    let (front, rest) = bytes.split_at(LONG_BYTES);
    let word = u64::from_le_bytes([
        front[0], front[1], front[2], front[3], front[4], front[5], front[6], front[7],
    ]);
    Some((word, rest))
}

/// The byte string at the front, and what follows it, its length being a number of eight bytes. `None`
/// where its length or the string does not stand there whole.
#[tactic(auto, unfolding(crate::specs::Codes::read_long_str))]
pub fn long_str_at(bytes: &[u8]) -> Option<(&[u8], &[u8])>
    ensures { taken_by (λ p. p.0.now) (λ p. p.1.now) result ≡ read_long_str bytes.now }
{
    let (len, rest) = long_word_at(bytes)?;
    if (rest.len() as u64) < len {
        return None;
    }
    let (front, more) = rest.split_at(len as usize);
    Some((front, more))
}

/// Adds a number in eight bytes. Memory is wanting only where they do not fit in the room.
#[tactic(auto, unfolding(crate::specs::Codes::long_word))]
pub fn put_long_word(to: &mut Vec<u8>, n: u64) -> Result<(), AllocError>
    ensures written { OnOk result (to.new.items ≡ to.old.items ++ long_word n) }
    ensures kept { OnErr result (to.new.items ≡ to.old.items) }
    ensures len { OnOk result (vec_len to.new ≡ vec_len to.old + LONG_BYTES) }
    ensures capacity { vec_capacity to.old ≤ vec_capacity to.new }
    ensures succeeds { vec_len to.old + LONG_BYTES ≤ vec_capacity to.old → IsOk result }
{
    to.extend_from_slice(&n.to_le_bytes())?;
    Ok(())
}

/// Adds a byte string behind its length in eight bytes. The room for both is taken first, and memory is
/// wanting only where they do not fit.
#[tactic(auto, unfolding(crate::specs::Codes::long_str))]
pub fn put_long_str(to: &mut Vec<u8>, bytes: &[u8]) -> Result<(), AllocError>
    ensures written { OnOk result (to.new.items ≡ to.old.items ++ long_str bytes.now) }
    ensures kept { OnErr result (to.new.items ≡ to.old.items) }
    ensures len { OnOk result (vec_len to.new ≡ vec_len to.old + (LONG_BYTES + length bytes.now)) }
    ensures capacity { vec_capacity to.old ≤ vec_capacity to.new }
    ensures succeeds { vec_len to.old + (LONG_BYTES + length bytes.now) ≤ vec_capacity to.old
        → IsOk result }
{
    // A sum past the end of a `usize` is refused as any room that there is not.
    to.reserve(bytes.len().saturating_add(LONG_BYTES))?;
    put_long_word(to, bytes.len() as u64)?;
    to.extend_from_slice(bytes)?;
    Ok(())
}
