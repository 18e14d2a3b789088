//! The standard's functions on words (FIPS 180-4, 4.1.2), on a word of each of four messages.

ghost use Rattle.std.specs.Prelude.{◌≡◌, ℕ, ◌<◌, slice_index};
ghost use Rattle.sha2.specs.Sha256.{add32, big_sigma0, big_sigma1, ch, maj, small_sigma0, small_sigma1};

use std::simd::u32x4;

#[inline(always)]
pub fn add(x: u32x4, y: u32x4) -> u32x4
    ensures { (j : ℕ) → j < 4 → slice_index result j ≡ add32 (slice_index x j) (slice_index y j) }
{
    x + y
}

#[inline(always)]
pub fn add_word(x: u32x4, word: u32) -> u32x4
    ensures { (j : ℕ) → j < 4 → slice_index result j ≡ add32 (slice_index x j) word }
{
    x + u32x4::splat(word)
}

#[inline(always)]
pub fn ch(x: u32x4, y: u32x4, z: u32x4) -> u32x4
    ensures { (j : ℕ) → j < 4
        → slice_index result j ≡ ch (slice_index x j) (slice_index y j) (slice_index z j) }
{
    (x & y) ^ (!x & z)
}

#[inline(always)]
pub fn maj(x: u32x4, y: u32x4, z: u32x4) -> u32x4
    ensures { (j : ℕ) → j < 4
        → slice_index result j ≡ maj (slice_index x j) (slice_index y j) (slice_index z j) }
{
    (x & y) ^ (x & z) ^ (y & z)
}

#[inline(always)]
pub fn big_sigma0(x: u32x4) -> u32x4
    ensures { (j : ℕ) → j < 4 → slice_index result j ≡ big_sigma0 (slice_index x j) }
{
    ((x >> 2) | (x << 30)) ^ ((x >> 13) | (x << 19)) ^ ((x >> 22) | (x << 10))
}

#[inline(always)]
pub fn big_sigma1(x: u32x4) -> u32x4
    ensures { (j : ℕ) → j < 4 → slice_index result j ≡ big_sigma1 (slice_index x j) }
{
    ((x >> 6) | (x << 26)) ^ ((x >> 11) | (x << 21)) ^ ((x >> 25) | (x << 7))
}

#[inline(always)]
pub fn small_sigma0(x: u32x4) -> u32x4
    ensures { (j : ℕ) → j < 4 → slice_index result j ≡ small_sigma0 (slice_index x j) }
{
    ((x >> 7) | (x << 25)) ^ ((x >> 18) | (x << 14)) ^ (x >> 3)
}

#[inline(always)]
pub fn small_sigma1(x: u32x4) -> u32x4
    ensures { (j : ℕ) → j < 4 → slice_index result j ≡ small_sigma1 (slice_index x j) }
{
    ((x >> 17) | (x << 15)) ^ ((x >> 19) | (x << 13)) ^ (x >> 10)
}
