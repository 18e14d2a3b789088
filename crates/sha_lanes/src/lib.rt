//! SHA-256 (FIPS 180-4) of several texts at once.
//!
//! Texts are slices of bytes of any lengths, and a digest has 32 bytes. Item k of the answer is the digest of text k, the same
//! as `sha2` gives:
//!
//! ```text
//! let found = digests(alloc, &[b"abc", b"", b"a longer text"])?;
//! found[1]    // Sha256::digest(b"")
//! ```
//!
//! Four texts are hashed side by side, each in its lane of the vectors of words; of many texts this takes less than half of
//! the time that they take one after another (`sha_bench`). A lane whose text has ended takes the next text, so texts of
//! unlike lengths leave no lane idle while there are texts left; at the end the lanes that are done wait for the others.
//! Fewer than four texts go through `sha2`. Of a text's bytes nothing is copied but its last block or two, which are padded.
//!
//! It fails for want of memory alone: the answer's 32 bytes for each text are all that it allocates.
//!
//! | Module | What it has |
//! |---|---|
//! | `words` | the standard's functions on words (4.1.2), on a word of each text |
//! | `block` | the schedule and the 64 rounds of one block of each text (6.2.2) |
//! | `load` | the words of a block of each text (5.2.1), side by side |
//! | `runs` | blocks, one after another |
//! | `lane` | a text that is under way: its padding (5.1.1), its state, its digest |
//! | `lanes` | four of them, which go on together |
#![tactic(auto)]

ghost use Rattle.std.specs.Prelude.{◌≡◌, IfOk, ◌≤◌, length, map};
ghost use Rattle.std.specs.List.{All};
ghost use Rattle.sha2.specs.Sha256.{sha256};
ghost use Rattle.sha_lanes.specs.UnderWay.{IsFoundBut, IsLaneOf, places_of};

use lane::Lane;
use lanes::{finish, nearest};
use sha2::{Digest, Sha256};
use std::alloc::{AllocError, Global};

mod block;
mod lane;
mod lanes;
mod load;
mod runs;
mod words;

/// The SHA-256 digests of the texts, in their order (FIPS 180-4).
pub fn digests(alloc: Global, texts: &[&[u8]]) -> Result<Vec<[u8; 32]>, AllocError>
    ensures { IfOk result (λ found. found.items ≡ map (λ text. sha256 text.now) texts.now) }
{
    let mut found = Vec::from_elem(alloc, [0u8; 32], texts.len())?;
    if texts.len() < 4 {
        find_alone(texts, &mut found);
    } else {
        find_by_four(texts, &mut found);
    }
    Ok(found)
}

// Finds the digests one after another.
fn find_alone(texts: &[&[u8]], found: &mut [[u8; 32]])
    requires { length found.old ≡ length texts.now }
    ensures { found.new ≡ map (λ text. sha256 text.now) texts.now }
{
    'texts: for i in 0..texts.len() {
        found[i] = Sha256::digest(texts[i]);
    }
}

// Finds the digests four at a time.
fn find_by_four(texts: &[&[u8]], found: &mut [[u8; 32]])
    requires four { 4 ≤ length texts.now }
    requires room { length found.old ≡ length texts.now }
    ensures { found.new ≡ map (λ text. sha256 text.now) texts.now }
{
    let mut lanes = [
        Lane::start(texts[0], 0),
        Lane::start(texts[1], 1),
        Lane::start(texts[2], 2),
        Lane::start(texts[3], 3),
    ];
    take_all(texts, &mut lanes, found);
    finish_all(texts, &mut lanes, found);
}

// Takes each text from the fifth on into the lane that is done first, so that no lane waits.
fn take_all(texts: &[&[u8]], lanes: &mut [Lane; 4], found: &mut [[u8; 32]])
    requires four { 4 ≤ length texts.now }
    requires room { length found.old ≡ length texts.now }
    requires lanes { All (IsLaneOf (map (λ text. text.now) texts.now)) lanes.old }
    requires found { IsFoundBut (map (λ text. text.now) texts.now) found.old
        (places_of lanes.old) 0 4 }
    ensures lanes { All (IsLaneOf (map (λ text. text.now) texts.now)) lanes.new }
    ensures found { IsFoundBut (map (λ text. text.now) texts.now) found.new
        (places_of lanes.new) 0 (length texts.now) }
{
    'texts: for next in 4..texts.len() {
        let lane = nearest(lanes);
        finish(texts, lanes, lane);
        found[lanes[lane].place] = lanes[lane].digest();
        lanes[lane] = Lane::start(texts[next], next);
    }
}

// Finds the digests of the texts that are still in the lanes.
fn finish_all(texts: &[&[u8]], lanes: &mut [Lane; 4], found: &mut [[u8; 32]])
    requires room { length found.old ≡ length texts.now }
    requires lanes { All (IsLaneOf (map (λ text. text.now) texts.now)) lanes.old }
    requires found { IsFoundBut (map (λ text. text.now) texts.now) found.old
        (places_of lanes.old) 0 (length texts.now) }
    ensures { found.new ≡ map (λ text. sha256 text.now) texts.now }
{
    'lanes: for lane in 0..4 {
        finish(texts, lanes, lane);
        found[lanes[lane].place] = lanes[lane].digest();
    }
}
