//! The words of a block of each of four messages, side by side.

ghost use Rattle.std.specs.Prelude.{◌≡◌, ℕ, ◌+◌, ◌*◌, ◌<◌, ◌≤◌, [], ◌∷◌, slice_index, length};
ghost use Rattle.sha2.specs.Sha256.{first_words, word_at};
ghost use Rattle.sha_lanes.specs.Lanes.{HasWords, block_at, lane_at};

use std::simd::{u8x16, u32x4};

// Each four bytes the other way round, as the standard has the high byte first.
const HIGH_FIRST: [usize; 16] = [3, 2, 1, 0, 7, 6, 5, 4, 11, 10, 9, 8, 15, 14, 13, 12];

// Four words of one message.
#[inline(always)]
fn row(bytes: &[u8], at: usize) -> u32x4
    requires { at + 16 ≤ length bytes.now }
    ensures { (k : ℕ) → k < 4 → slice_index result k ≡ word_at bytes.now (at + 4 * k) }
{
    let bytes = u8x16::from_slice(&bytes[at..]);
    u32x4::from_le_bytes(bytes.swizzle(HIGH_FIRST))
}

// Lane j of vector k is lane k of row j.
#[inline(always)]
fn transposed(a: u32x4, b: u32x4, c: u32x4, d: u32x4) -> [u32x4; 4]
    ensures { (j k : ℕ) → j < 4 → k < 4
        → lane_at result k j ≡ lane_at (a ∷ b ∷ c ∷ d ∷ []) j k }
{
    let (ac_low, ac_high) = a.interleave(c);
    let (bd_low, bd_high) = b.interleave(d);
    let (first, second) = ac_low.interleave(bd_low);
    let (third, fourth) = ac_high.interleave(bd_high);
    [first, second, third, fourth]
}

// Four words of each message.
#[inline(always)]
fn four_words(first: &[u8], second: &[u8], third: &[u8], fourth: &[u8], at: usize) -> [u32x4; 4]
    requires first { at + 16 ≤ length first.now }
    requires second { at + 16 ≤ length second.now }
    requires third { at + 16 ≤ length third.now }
    requires fourth { at + 16 ≤ length fourth.now }
    ensures first { (k : ℕ) → k < 4 → lane_at result k 0 ≡ word_at first.now (at + 4 * k) }
    ensures second { (k : ℕ) → k < 4 → lane_at result k 1 ≡ word_at second.now (at + 4 * k) }
    ensures third { (k : ℕ) → k < 4 → lane_at result k 2 ≡ word_at third.now (at + 4 * k) }
    ensures fourth { (k : ℕ) → k < 4 → lane_at result k 3 ≡ word_at fourth.now (at + 4 * k) }
{
    transposed(
        row(first, at),
        row(second, at),
        row(third, at),
        row(fourth, at),
    )
}

/// The words of the blocks that begin there, as the first 16 of 64 vectors.
#[inline(always)]
pub fn words_at(first: &[u8], second: &[u8], third: &[u8], fourth: &[u8], at: usize) -> [u32x4; 64]
    requires first { at + 64 ≤ length first.now }
    requires second { at + 64 ≤ length second.now }
    requires third { at + 64 ≤ length third.now }
    requires fourth { at + 64 ≤ length fourth.now }
    ensures first { HasWords result 0 (first_words (block_at first.now at) 16) 16 }
    ensures second { HasWords result 1 (first_words (block_at second.now at) 16) 16 }
    ensures third { HasWords result 2 (first_words (block_at third.now at) 16) 16 }
    ensures fourth { HasWords result 3 (first_words (block_at fourth.now at) 16) 16 }
{
    let mut w = [u32x4::splat(0); 64];
    'rows: for place in 0..4 {
        let [a, b, c, d] = four_words(first, second, third, fourth, at + 16 * place);
        w[4 * place] = a;
        w[4 * place + 1] = b;
        w[4 * place + 2] = c;
        w[4 * place + 3] = d;
    }
    w
}
