// The results that the store is filled with: result i has one input and one output, whose lengths and bytes follow from i.
ghost use Rattle.std.specs.Prelude.{IfOk};
ghost use Rattle.pair_reader.specs.Answers.{Ascend};

use anyhow::Result;
use cache_api::Artifact;
use pair_reader::Lengths;
use rel_path::{Bytes, Files, RelPath};
use std::alloc::Global;

// A key has one of so many lengths, from the least on.
const LEAST: u64 = 4_500;

const SPREAD: u64 = 5_000;

// A plan has so many keys, of as many lengths.
const PLAN: u64 = 1_000;

const OUTPUT: u64 = 3_000;

const LOG: &[u8] = b"built\n";

// What stands in a key beside its input: magic, counts, lengths, a path, and its end.
const BESIDE: u64 = 8 + 4 + 4 + INPUT.len() as u64 + 4 + END.len() as u64;

const INPUT: &str = "packages/a/src/index.js";

const END: &[u8] = b"the parts of the listing";

fn len_of(i: u64) -> u64 {
    LEAST + i % SPREAD
}

fn in_order(mut lengths: Vec<u64>) -> Result<Lengths>
    ensures ascend { IfOk result (λ lengths. Ascend lengths) }
{
    lengths.sort()?;
    Ok(Lengths::Only(lengths))
}

/// The lengths of the keys of a plan, in order.
pub fn plan_lengths(alloc: Global) -> Result<Lengths>
    ensures ascend { IfOk result (λ lengths. Ascend lengths) }
{
    let mut lengths = Vec::new(alloc);
    for i in 0..PLAN {
        lengths.push(len_of(i).saturating_add(BESIDE))?;
    }
    in_order(lengths)
}

// So many bytes that differ from one seed to another.
fn bytes_of(alloc: Global, seed: u64, len: u64) -> Result<Vec<u8>> {
    let mut bytes = Vec::from_slice(alloc, &seed.to_le_bytes())?;
    bytes.resize(len as usize, b'x')?;
    Ok(bytes)
}

fn put_word(to: &mut Vec<u8>, n: u64) -> Result<()> {
    codes::put_word(to, u32::try_from(n)?)?;
    Ok(())
}

/// The text of key i.
pub fn key_of(alloc: Global, i: u64) -> Result<Vec<u8>> {
    let mut key = Vec::from_slice(alloc, b"TURBKEY1")?;
    put_word(&mut key, 1)?;
    put_word(&mut key, INPUT.len() as u64)?;
    key.extend_from_slice(INPUT.as_bytes())?;
    let input = bytes_of(alloc, i, len_of(i))?;
    put_word(&mut key, input.len() as u64)?;
    key.extend_from_slice(input.as_slice())?;
    key.extend_from_slice(END)?;
    Ok(key)
}

/// The artifact of key i.
pub fn artifact_of(alloc: Global, i: u64) -> Result<Artifact> {
    let mut files = Files::new(alloc);
    let path = RelPath::read(alloc, "packages/a/dist/index.js")?;
    files.push((path, Bytes::from_vec(bytes_of(alloc, !i, OUTPUT)?)))?;
    Ok(Artifact {
        log: Bytes::from_vec(Vec::from_slice(alloc, LOG)?),
        files,
    })
}
