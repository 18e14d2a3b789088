//! Four texts under way side by side.

ghost use Rattle.std.specs.Prelude.{◌≡◌, ℕ, List, ◌+◌, ◌-◌, ◌*◌, ◌%◌, ◌<◌, ◌≤◌, length, map, slice_index};
ghost use Rattle.std.specs.List.{All};
ghost use Rattle.sha2.specs.Sha256.{hash_after};
ghost use Rattle.sha_lanes.specs.UnderWay.{IsLaneOf, IsNext, IsUnderWay, lefts_of, places_of};

use crate::lane::Lane;
use crate::runs::{compress_blocks, side_by_side, state_of};

// The shorter one of those that are not empty.
fn shorter<'a>(first: &'a [u8], second: &'a [u8]) -> &'a [u8]
    ensures first { 0 < length first.now
        → (0 < length result.now) × (length result.now ≤ length first.now) }
    ensures second { 0 < length second.now
        → (0 < length result.now) × (length result.now ≤ length second.now) }
    ensures whole { length first.now % 64 ≡ 0 → length second.now % 64 ≡ 0
        → length result.now % 64 ≡ 0 }
{
    if first.len() == 0 || (second.len() > 0 && second.len() < first.len()) {
        second
    } else {
        first
    }
}

// What a lane takes in: what comes next of its text, or, once it is done, blocks of no account.
fn or_spare<'a>(rest: &'a [u8], spare: &'a [u8]) -> &'a [u8]
    requires { 0 < length rest.now → length spare.now ≤ length rest.now }
    ensures long { length spare.now ≤ length result.now }
    ensures own { 0 < length rest.now → result.now ≡ rest.now }
{
    if rest.len() == 0 { spare } else { rest }
}

// The lane after `count` blocks more. One that is done stays as it is.
fn moved(lane: &Lane, count: usize, state: [u32; 8]) -> Lane
    requires { lane.now.done < lane.now.blocks → lane.now.done + count ≤ lane.now.blocks }
    ensures place { result.place ≡ lane.now.place }
    ensures nearer { lane.now.done < lane.now.blocks
        → result.blocks - result.done ≡ lane.now.blocks - (lane.now.done + count) }
    ensures under_way { (text bytes : List ℕ) → IsUnderWay text lane.now
        → (lane.now.done < lane.now.blocks → IsNext text lane.now.done bytes
        × (count * 64 ≤ length bytes) × (state ≡ hash_after lane.now.state bytes count))
        → IsUnderWay text result }
{
    if lane.is_done() {
        *lane
    } else {
        lane.after(count, state)
    }
}

/// Takes the lanes on by the same count of blocks each, as many as the first of them has next. A
/// lane that is done stays as it is.
pub fn advance(texts: &[&[u8]], lanes: &mut [Lane; 4])
    requires { All (IsLaneOf (map (λ text. text.now) texts.now)) lanes.old }
    ensures lanes { All (IsLaneOf (map (λ text. text.now) texts.now)) lanes.new }
    ensures places { places_of lanes.new ≡ places_of lanes.old }
    ensures nearer { (j : ℕ) → j < 4 → 0 < slice_index (lefts_of lanes.old) j
        → slice_index (lefts_of lanes.new) j < slice_index (lefts_of lanes.old) j }
{
    let [first, second, third, fourth] = *lanes;
    let first_rest = first.rest(texts[first.place]);
    let second_rest = second.rest(texts[second.place]);
    let third_rest = third.rest(texts[third.place]);
    let fourth_rest = fourth.rest(texts[fourth.place]);
    let spare = shorter(
        shorter(first_rest, second_rest),
        shorter(third_rest, fourth_rest),
    );
    let count = spare.len() / 64;
    let mut state = side_by_side(&first.state, &second.state, &third.state, &fourth.state);
    compress_blocks(
        &mut state,
        or_spare(first_rest, spare),
        or_spare(second_rest, spare),
        or_spare(third_rest, spare),
        or_spare(fourth_rest, spare),
        count,
    );
    *lanes = [
        moved(&first, count, state_of(&state, 0)),
        moved(&second, count, state_of(&state, 1)),
        moved(&third, count, state_of(&state, 2)),
        moved(&fourth, count, state_of(&state, 3)),
    ];
}

// The one of two lanes that has fewer blocks left.
fn nearer(lanes: &[Lane; 4], one: usize, other: usize) -> usize
    requires one { one < 4 }
    requires other { other < 4 }
    ensures lane { result < 4 }
    ensures one { slice_index (lefts_of lanes.now) result ≤ slice_index (lefts_of lanes.now) one }
    ensures other { slice_index (lefts_of lanes.now) result
        ≤ slice_index (lefts_of lanes.now) other }
{
    if lanes[one].left() < lanes[other].left() {
        one
    } else {
        other
    }
}

/// The lane that has the fewest blocks left.
pub fn nearest(lanes: &[Lane; 4]) -> usize
    ensures lane { result < 4 }
    ensures least { (j : ℕ) → j < 4
        → slice_index (lefts_of lanes.now) result ≤ slice_index (lefts_of lanes.now) j }
{
    nearer(lanes, nearer(lanes, 0, 1), nearer(lanes, 2, 3))
}

/// Takes the lanes on until that one is done.
pub fn finish(texts: &[&[u8]], lanes: &mut [Lane; 4], lane: usize)
    requires lane { lane < 4 }
    requires lanes { All (IsLaneOf (map (λ text. text.now) texts.now)) lanes.old }
    ensures lanes { All (IsLaneOf (map (λ text. text.now) texts.now)) lanes.new }
    ensures places { places_of lanes.new ≡ places_of lanes.old }
    ensures done { slice_index (lefts_of lanes.new) lane ≡ 0 }
{
    'rounds: while !lanes[lane].is_done() {
        advance(texts, lanes);
    }
}
