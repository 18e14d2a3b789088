//! How fast texts are hashed: four at a time by `sha_lanes`, and one after another by `sha2`.
//!
//! Words: the count of texts, the bytes of the longest and those of the shortest, which are a tenth of these if left
//! out. It says the least time of five rounds; without words it says these.
#![tactic(auto)]

use anyhow::{Context, Result};
use sha_lanes::digests;
use sha2::{Digest, Sha256};
use std::alloc::Global;
use std::env;
use std::time::Instant;

/// So many texts, with lengths from `least` to `most`.
fn texts(alloc: Global, count: u64, least: u64, most: u64) -> Result<Vec<Vec<u8>>> {
    let mut texts = Vec::new(alloc);
    let span = most.saturating_sub(least).saturating_add(1);
    let mut drawn: u64 = 1;
    for number in 0..count {
        drawn = drawn
            .wrapping_mul(6_364_136_223_846_793_005)
            .wrapping_add(1_442_695_040_888_963_407);
        let len = least.saturating_add((drawn >> 33) % span.max(1));
        texts.push(vec![in alloc; (number % 251) as u8; len.min(1 << 30) as usize]?)?;
    }
    Ok(texts)
}

/// The digests one after another.
fn alone(alloc: Global, texts: &[&[u8]]) -> Result<Vec<[u8; 32]>> {
    let mut found = Vec::new(alloc);
    for text in texts {
        found.push(Sha256::digest(*text))?;
    }
    Ok(found)
}

/// Hashes the texts in both ways, and says the least times and whether the digests are the same.
fn bench(rt: &HostRuntime, texts: &[Vec<u8>]) -> Result<()> {
    let alloc = rt.alloc();
    let mut views: Vec<&[u8]> = Vec::new(alloc);
    let mut bytes: u128 = 0;
    for text in texts {
        views.push(text.as_slice())?;
        bytes = bytes.saturating_add(text.as_slice().len() as u128);
    }
    let mut least_by_four = u128::MAX;
    let mut least_alone = u128::MAX;
    let mut is_same = true;
    for _ in 0..5 {
        let began = Instant::now(rt)?;
        let by_four = digests(alloc, views.as_slice()).ok().context("memory")?;
        least_by_four = least_by_four.min(began.elapsed(rt)?.as_micros());
        let began = Instant::now(rt)?;
        let alone = alone(alloc, views.as_slice())?;
        least_alone = least_alone.min(began.elapsed(rt)?.as_micros());
        is_same = is_same && by_four.as_slice() == alone.as_slice();
    }
    let rate_by_four = bytes / least_by_four.max(1);
    let rate_alone = bytes / least_alone.max(1);
    println!(rt;
        "{bytes} bytes: four at a time {least_by_four} us ({rate_by_four} MB/s), alone {least_alone} us ({rate_alone} MB/s), \
         the same digests: {is_same}"
    )?;
    Ok(())
}

fn main(rt: HostRuntime) -> Result<()> {
    let words: Vec<String> = env::args(&rt)?.skip(1).collect(rt.alloc())?;
    let (count, most, least) = match words.as_slice() {
        [count, most] => {
            let most = most.as_str().parse::<u64>()?;
            (count.as_str().parse::<u64>()?, most, most / 10)
        }
        [count, most, least] => (
            count.as_str().parse::<u64>()?,
            most.as_str().parse::<u64>()?,
            least.as_str().parse::<u64>()?,
        ),
        _ => {
            println!(rt; "sha_bench: COUNT BYTES [LEAST]")?;
            return Ok(());
        }
    };
    let texts = texts(rt.alloc(), count, least, most)?;
    bench(&rt, texts.as_slice())
}
