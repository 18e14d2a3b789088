//! Blocks of four messages, one after another.

ghost use Rattle.std.specs.Prelude.{◌≡◌, ◌*◌, ◌<◌, ◌≤◌, length};
ghost use Rattle.sha2.specs.Sha256.{hash_after};
ghost use Rattle.sha_lanes.specs.Lanes.{lane};

use crate::block::compress;
use crate::load::words_at;
use std::simd::u32x4;

/// Takes the first `count` blocks of each message into its lane of the state.
pub fn compress_blocks(
    state: &mut [u32x4; 8],
    first: &[u8],
    second: &[u8],
    third: &[u8],
    fourth: &[u8],
    count: usize,
)
    requires first { count * 64 ≤ length first.now }
    requires second { count * 64 ≤ length second.now }
    requires third { count * 64 ≤ length third.now }
    requires fourth { count * 64 ≤ length fourth.now }
    ensures first { lane 0 state.new ≡ hash_after (lane 0 state.old) first.now count }
    ensures second { lane 1 state.new ≡ hash_after (lane 1 state.old) second.now count }
    ensures third { lane 2 state.new ≡ hash_after (lane 2 state.old) third.now count }
    ensures fourth { lane 3 state.new ≡ hash_after (lane 3 state.old) fourth.now count }
{
    'taken: for i in 0..count {
        compress(state, words_at(first, second, third, fourth, i * 64));
    }
}

/// The states of four messages side by side.
pub fn side_by_side(
    first: &[u32; 8],
    second: &[u32; 8],
    third: &[u32; 8],
    fourth: &[u32; 8],
) -> [u32x4; 8]
    ensures first { lane 0 result ≡ first.now }
    ensures second { lane 1 result ≡ second.now }
    ensures third { lane 2 result ≡ third.now }
    ensures fourth { lane 3 result ≡ fourth.now }
{
    let [a0, a1, a2, a3, a4, a5, a6, a7] = *first;
    let [b0, b1, b2, b3, b4, b5, b6, b7] = *second;
    let [c0, c1, c2, c3, c4, c5, c6, c7] = *third;
    let [d0, d1, d2, d3, d4, d5, d6, d7] = *fourth;
    [
        u32x4::from_array([a0, b0, c0, d0]),
        u32x4::from_array([a1, b1, c1, d1]),
        u32x4::from_array([a2, b2, c2, d2]),
        u32x4::from_array([a3, b3, c3, d3]),
        u32x4::from_array([a4, b4, c4, d4]),
        u32x4::from_array([a5, b5, c5, d5]),
        u32x4::from_array([a6, b6, c6, d6]),
        u32x4::from_array([a7, b7, c7, d7]),
    ]
}

/// The state of one of the messages.
pub fn state_of(state: &[u32x4; 8], message: usize) -> [u32; 8]
    requires { message < 4 }
    ensures { result ≡ lane message state.now }
{
    let [a, b, c, d, e, f, g, h] = *state;
    [
        a.to_array()[message],
        b.to_array()[message],
        c.to_array()[message],
        d.to_array()[message],
        e.to_array()[message],
        f.to_array()[message],
        g.to_array()[message],
        h.to_array()[message],
    ]
}
