// How fast a log is appended to and opened, over memory and over a file, and what it writes for what it is given.
ghost use Rattle.std.specs.Prelude.{◌+◌, ◌<◌, ◌^◌, IsTrue, OnOk, length};
ghost use Rattle.record_log.specs.Log.{is_whole};

use crate::batches::{bench_batch, bench_opening};
use crate::file::{FileStore, file_at};
use anyhow::{Result, bail};
use record_log::{Log, LogErr, PAIR};
use rel_path::Bytes;
use std::alloc::Global;
use std::time::Instant;
use store_dev::{MemStore, StoreDevice};

pub const KEY: [u8; 64] = [b'k'; 64];

/// Appends so many pairs.
pub fn fill<S: StoreDevice>(
    alloc: Global,
    log: &mut Log<S>,
    count: u64,
    value: &[u8],
) -> Result<(), LogErr>
    requires whole { IsTrue (is_whole log.old) }
    requires value { length value.now < 2 ^ 32 }
    ensures whole { OnOk result (IsTrue (is_whole log.new)) }
{
    for _ in 0..count {
        let _number = log.append(alloc, PAIR, &KEY, value)?;
    }
    Ok(())
}

/// Reads every hundredth frame from the last on.
fn look<S: StoreDevice>(alloc: Global, log: &mut Log<S>) -> Result<u64, LogErr> {
    let mut bytes: u64 = 0;
    let count = log.frames();
    for number in 0..count {
        if number % 100 == 0 {
            let frame = log.frame_at(alloc, number)?;
            bytes = bytes.saturating_add(frame.value.as_slice().len() as u64);
        }
    }
    Ok(bytes)
}

/// Fills a log in the store, opens it again and reads in it, with the times of each.
fn bench<S: StoreDevice + Drop>(rt: &HostRuntime, store: S, count: u64, len: u64) -> Result<S> {
    let alloc = rt.alloc();
    let value = vec![in alloc; b'v'; len.min(1 << 30) as usize]?;
    let began = Instant::now(rt)?;
    let Ok(opened) = Log::open(alloc, store) else {
        bail!("not opened");
    };
    let mut log = opened;
    fill(alloc, &mut log, count, &value)?;
    let appended = began.elapsed(rt)?.as_micros();
    let store = log.device();
    let began = Instant::now(rt)?;
    let Ok(opened) = Log::open(alloc, store) else {
        bail!("not opened again");
    };
    let opening = began.elapsed(rt)?.as_micros();
    let mut log = opened;
    let frames = log.frames();
    let began = Instant::now(rt)?;
    let looked = look(alloc, &mut log)?;
    let looking = began.elapsed(rt)?.as_micros();
    let given = count.saturating_mul(len.saturating_add(64));
    println!(rt;
        "{count} appends in {appended} us, {frames} frames opened in {opening} us, every hundredth read in {looking} us ({looked} bytes)"
    )?;
    println!(rt; "{given} bytes given")?;
    Ok(log.device())
}

fn bench_memory(rt: &HostRuntime, count: &str, len: &str) -> Result<()> {
    let alloc = rt.alloc();
    let store = MemStore::new(alloc, Bytes::from_vec(Vec::new(alloc)), Vec::new(alloc));
    let store = bench(rt, store, count.parse::<u64>()?, len.parse::<u64>()?)?;
    let bytes = store.bytes().len();
    println!(rt; "{bytes} bytes in the store")?;
    Ok(())
}

fn bench_file(rt: &HostRuntime, path: &str, count: &str, len: &str) -> Result<()> {
    let store = FileStore::new(file_at(rt, path, false)?);
    let mut store = bench(rt, store, count.parse::<u64>()?, len.parse::<u64>()?)?;
    if let Ok(bytes) = store.len() {
        println!(rt; "{bytes} bytes in the store")?;
    }
    Ok(())
}

/// Measures what the words behind `log` say, if they do.
pub fn bench_log(rt: &HostRuntime, words: &[String]) -> Result<()> {
    match words {
        [kind, count, len] if kind.as_str() == "memory" => {
            bench_memory(rt, count.as_str(), len.as_str())
        }
        [kind, path, count, len] if kind.as_str() == "file" => {
            bench_file(rt, path.as_str(), count.as_str(), len.as_str())
        }
        [kind, path] if kind.as_str() == "batch" => {
            bench_batch(rt, FileStore::new(file_at(rt, path.as_str(), true)?))
        }
        [kind, path] if kind.as_str() == "opening" => {
            bench_opening(rt, FileStore::new(file_at(rt, path.as_str(), true)?))
        }
        _ => bail!("log: memory COUNT BYTES, file PATH COUNT BYTES, batch PATH or opening PATH"),
    }
}
