// Keys and fingerprints of tasks.
ghost use Rattle.std.specs.Prelude.{◌≡◌, ◌<◌, ◌++◌, length, map, IfOk, OnOk};
ghost use Rattle.std.specs.List.{All};
ghost use Rattle.std.specs.List.Sorted.{IsNonDecreasing, IsPermutation};
ghost use Rattle.sha2.specs.Sha256.{sha256};
ghost use Rattle.run_laws.specs.Keys.{key_of};
ghost use Rattle.run_plan.specs.KeyLengths.{key_lengths};
ghost use Rattle.run_plan.specs.Memory.{OnlyMemory};
ghost use Rattle.listing.specs.Fingerprint.{printed};
ghost use Rattle.run_plan.specs.Plans.{IsValidPlan};

use crate::{Plan, PlanErr};
use closures::{closure_key, closure_key_len};
use listing::short;
use rel_path::{Bytes, Text};
use sha_lanes::digests;
use std::alloc::Global;

/// Keys are held back to be hashed side by side until they have so many bytes together.
const KEY_BYTES_HELD: usize = 16 << 20;

impl Plan {
    /// The key under which the task's result is kept: the key text of its closure. It takes about as long as the key
    /// text has bytes.
    pub fn key(&self, alloc: Global, place: u32) -> Result<Bytes, PlanErr>
        requires plan { IsValidPlan self.now }
        requires place { place < length self.now.listing.parts }
        ensures key { IfOk result (λ key. key ≡ key_of self.now.listing place) }
        ensures memory { OnlyMemory result }
    {
        Ok(closure_key(alloc, &self.listing, place)?)
    }

    /// The fingerprints of these tasks' keys (SHA-256, FIPS 180-4), in their order. Keys are held
    /// until they have 16 MiB together, and are then hashed side by side.
    pub fn fingerprints(&self, alloc: Global, places: &[u32]) -> Result<Vec<[u8; 32]>, PlanErr>
        requires plan { IsValidPlan self.now }
        requires places { All (λ place. place < length self.now.listing.parts) places.now }
        ensures prints { IfOk result (λ prints. prints.items
            ≡ map (λ place. sha256 (key_of self.now.listing place)) places.now) }
        ensures memory { OnlyMemory result }
    {
        let mut prints = Vec::with_capacity(alloc, places.len())?;
        let mut keys = Vec::new(alloc);
        let mut held = 0usize;
        for place in places {
            let key = self.key(alloc, *place)?;
            held = held.saturating_add(key.as_slice().len());
            keys.push(key)?;
            if held >= KEY_BYTES_HELD {
                add_prints(alloc, &mut prints, keys.as_slice())?;
                keys.clear();
                held = 0;
            }
        }
        add_prints(alloc, &mut prints, keys.as_slice())?;
        Ok(prints)
    }

    /// The lengths of all keys in bytes, in ascending order. No key is made for it.
    pub fn key_lengths(&self, alloc: Global) -> Result<Vec<u64>, PlanErr>
        requires plan { IsValidPlan self.now }
        ensures lengths { IfOk result (λ lengths.
            IsPermutation (key_lengths self.now) lengths.items) }
        ensures ascend { IfOk result (λ lengths. IsNonDecreasing lengths.items) }
        ensures memory { OnlyMemory result }
    {
        let mut lengths = Vec::with_capacity(alloc, self.size())?;
        'places: for place in 0..self.size() as u32 {
            lengths.push(closure_key_len(alloc, &self.listing, place)? as u64)?;
        }
        lengths.sort()?;
        Ok(lengths)
    }
}

// Adds the fingerprints of these keys, hashed side by side.
fn add_prints(alloc: Global, prints: &mut Vec<[u8; 32]>, keys: &[Bytes]) -> Result<(), PlanErr>
    ensures added { OnOk result (prints.new.items ≡ prints.old.items ++ map sha256 keys.now) }
    ensures memory { OnlyMemory result }
{
    let texts = texts_of(alloc, keys)?;
    let added = digests(alloc, texts.as_slice())?;
    prints.extend_from_slice(added.as_slice())?;
    Ok(())
}

// The bytes of the keys, where they lie.
fn texts_of<'a>(alloc: Global, keys: &'a [Bytes]) -> Result<Vec<&'a [u8]>, PlanErr>
    ensures texts { IfOk result (λ texts. map (λ text. text.now) texts.items ≡ keys.now) }
    ensures memory { OnlyMemory result }
{
    let mut texts = Vec::with_capacity(alloc, keys.len())?;
    for key in keys {
        texts.push(key.as_slice())?;
    }
    Ok(texts)
}

/// The digits that are printed of a fingerprint.
pub fn digits(alloc: Global, fingerprint: &[u8; 32]) -> Result<Text, PlanErr>
    ensures digits { IfOk result (λ text. text ≡ printed fingerprint.now) }
    ensures memory { OnlyMemory result }
{
    Ok(short(alloc, fingerprint)?)
}
