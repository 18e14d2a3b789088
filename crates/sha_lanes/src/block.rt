//! One block of each of four messages (FIPS 180-4, 6.2.2).

ghost use Rattle.std.specs.Prelude.{◌≡◌, ℕ, ◌+◌, ◌<◌, ◌≤◌, List, slice_index};
ghost use Rattle.sha2.specs.Sha256.{compress, first_words, next_word, round, rounds, schedule};
ghost use Rattle.sha_lanes.specs.Lanes.{HasWords, lane};

use crate::words::{add, add_word, big_sigma0, big_sigma1, ch, maj, small_sigma0, small_sigma1};
use std::simd::u32x4;

// K 0 to K 63 (4.2.2).
const ROUND_CONSTANTS: [u32; 64] = [
    0x428a_2f98,
    0x7137_4491,
    0xb5c0_fbcf,
    0xe9b5_dba5,
    0x3956_c25b,
    0x59f1_11f1,
    0x923f_82a4,
    0xab1c_5ed5,
    0xd807_aa98,
    0x1283_5b01,
    0x2431_85be,
    0x550c_7dc3,
    0x72be_5d74,
    0x80de_b1fe,
    0x9bdc_06a7,
    0xc19b_f174,
    0xe49b_69c1,
    0xefbe_4786,
    0x0fc1_9dc6,
    0x240c_a1cc,
    0x2de9_2c6f,
    0x4a74_84aa,
    0x5cb0_a9dc,
    0x76f9_88da,
    0x983e_5152,
    0xa831_c66d,
    0xb003_27c8,
    0xbf59_7fc7,
    0xc6e0_0bf3,
    0xd5a7_9147,
    0x06ca_6351,
    0x1429_2967,
    0x27b7_0a85,
    0x2e1b_2138,
    0x4d2c_6dfc,
    0x5338_0d13,
    0x650a_7354,
    0x766a_0abb,
    0x81c2_c92e,
    0x9272_2c85,
    0xa2bf_e8a1,
    0xa81a_664b,
    0xc24b_8b70,
    0xc76c_51a3,
    0xd192_e819,
    0xd699_0624,
    0xf40e_3585,
    0x106a_a070,
    0x19a4_c116,
    0x1e37_6c08,
    0x2748_774c,
    0x34b0_bcb5,
    0x391c_0cb3,
    0x4ed8_aa4a,
    0x5b9c_ca4f,
    0x682e_6ff3,
    0x748f_82ee,
    0x78a5_636f,
    0x84c8_7814,
    0x8cc7_0208,
    0x90be_fffa,
    0xa450_6ceb,
    0xbef9_a3f7,
    0xc671_78f2,
];

// W t from the words before it.
#[inline(always)]
fn next_word(w: &[u32x4; 64], t: usize) -> u32x4
    requires low { 16 ≤ t }
    requires high { t < 64 }
    ensures { (j : ℕ) (words : List ℕ) → j < 4 → HasWords w.now j words t
        → slice_index result j ≡ next_word words t }
{
    let sum = add(small_sigma1(w[t - 2]), w[t - 7]);
    let sum = add(sum, small_sigma0(w[t - 15]));
    add(sum, w[t - 16])
}

// Computes W 16 to W 63 from the words of the block.
#[inline(always)]
fn extend(w: &mut [u32x4; 64])
    ensures { (j : ℕ) (block : List ℕ) → j < 4 → HasWords w.old j (first_words block 16) 16
        → HasWords w.new j (schedule block 48) 64 }
{
    'words: for t in 16..64 {
        w[t] = next_word(w, t);
    }
}

#[inline(always)]
fn round(v: [u32x4; 8], k: u32, word: u32x4) -> [u32x4; 8]
    ensures { (j : ℕ) → j < 4 → lane j result ≡ round (lane j v) k (slice_index word j) }
{
    let [a, b, c, d, e, f, g, h] = v;
    let s1 = add(h, big_sigma1(e));
    let s2 = add(s1, ch(e, f, g));
    let temp1 = add(add_word(s2, k), word);
    let temp2 = add(big_sigma0(a), maj(a, b, c));
    [add(temp1, temp2), a, b, c, add(d, temp1), e, f, g]
}

// Round t.
#[inline(always)]
fn step(w: &[u32x4; 64], v: [u32x4; 8], t: usize) -> [u32x4; 8]
    requires { t < 64 }
    ensures { (j : ℕ) (h words : List ℕ) → j < 4 → HasWords w.now j words 64
        → lane j v ≡ rounds h words t → lane j result ≡ rounds h words (t + 1) }
{
    round(v, ROUND_CONSTANTS[t], w[t])
}

#[inline(always)]
fn four_steps(w: &[u32x4; 64], v: [u32x4; 8], t: usize) -> [u32x4; 8]
    requires { t + 4 ≤ 64 }
    ensures { (j : ℕ) (h words : List ℕ) → j < 4 → HasWords w.now j words 64
        → lane j v ≡ rounds h words t → lane j result ≡ rounds h words (t + 4) }
{
    let v = step(w, v, t);
    let v = step(w, v, t + 1);
    let v = step(w, v, t + 2);
    step(w, v, t + 3)
}

/// Takes one block of each message into its state. `w` begins with the words of the blocks, and has
/// room for the schedule.
#[inline(always)]
pub fn compress(state: &mut [u32x4; 8], w: [u32x4; 64])
    ensures { (j : ℕ) (block : List ℕ) → j < 4 → HasWords w j (first_words block 16) 16
        → lane j state.new ≡ compress (lane j state.old) block }
{
    let mut w = w;
    extend(&mut w);
    let mut v = *state;
    'rounds: for turn in 0..16 {
        v = four_steps(&w, v, 4 * turn);
    }
    let [a, b, c, d, e, f, g, h] = *state;
    *state = [
        add(a, v[0]),
        add(b, v[1]),
        add(c, v[2]),
        add(d, v[3]),
        add(e, v[4]),
        add(f, v[5]),
        add(g, v[6]),
        add(h, v[7]),
    ];
}
