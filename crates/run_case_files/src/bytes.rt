// Bytes as texts of which each character stands for the byte of its number, and the length of a
// store in results.
use anyhow::{Context, Result};
use std::alloc::Global;

/// The bytes that the characters stand for.
pub fn bytes_of(alloc: Global, text: &str) -> Result<Vec<u8>> {
    let mut bytes = Vec::new(alloc);
    for c in text.chars() {
        let byte = u8::try_from(u32::from(c)).ok().context("no byte")?;
        bytes.push(byte)?;
    }
    Ok(bytes)
}

/// The text that stands for the bytes.
pub fn text_of(alloc: Global, bytes: &[u8]) -> Result<String> {
    let mut text = String::new(alloc);
    for byte in bytes {
        text.push(char::from(*byte))?;
    }
    Ok(text)
}

/// How many bytes stand before the first gate.
const MAGIC: usize = 8;
/// The gate before a frame that counts.
const OPEN: u8 = 1;
/// The kind of a frame that stands for a result whole.
const PAIR: u8 = 1;
/// Those of a result that is cut into pieces.
const RECORD: u8 = 3;

const LONG_RECORD: u8 = 4;
/// How many bytes a length has, in a frame of the last kind and in any other.
const LONG_LENGTH: usize = 8;

const LENGTH: usize = 4;

/// A frame: its kind, and the gate behind it.
#[derive(Clone, Copy)]
struct Frame {
    kind: u8,
    next: usize,
}

// A length of so many bytes, the least first.
fn length_at(store: &[u8], at: usize, bytes: usize) -> Option<usize> {
    let digits = store.get(at..at.checked_add(bytes)?)?;
    let mut length: usize = 0;
    for digit in digits.iter().rev() {
        length = length.checked_mul(256)?.checked_add(usize::from(*digit))?;
    }
    Some(length)
}

// The frame that this gate opens.
fn frame_at(store: &[u8], gate: usize) -> Option<Frame> {
    if *store.get(gate)? != OPEN {
        return None;
    }
    let at = gate.checked_add(1)?;
    let kind = *store.get(at)?;
    let bytes = if kind == LONG_RECORD {
        LONG_LENGTH
    } else {
        LENGTH
    };
    let lengths = at.checked_add(1)?;
    let key = length_at(store, lengths, bytes)?;
    let value = length_at(store, lengths.checked_add(bytes)?, bytes)?;
    let head = lengths.checked_add(bytes)?.checked_add(bytes)?;
    let next = head.checked_add(key)?.checked_add(value)?;
    Some(Frame { kind, next })
}

/// How many results stand in the bytes of a store.
pub fn pairs_in(store: &[u8]) -> usize {
    let mut gate = MAGIC;
    let mut pairs: usize = 0;
    for _ in 0..store.len() {
        let Some(frame) = frame_at(store, gate) else {
            return pairs;
        };
        if matches!(frame.kind, PAIR | RECORD | LONG_RECORD) {
            pairs = pairs.saturating_add(1);
        }
        gate = frame.next;
    }
    pairs
}
