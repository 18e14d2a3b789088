// Frames that are appended together beside as many one by one, and a log of many frames opened again.
ghost use Rattle.std.specs.Prelude.{◌<◌, ◌^◌, IsTrue, OnOk, length};
ghost use Rattle.record_log.specs.Log.{is_whole};

use crate::logs::{KEY, fill};
use anyhow::{Result, bail};
use record_log::{Log, LogErr, NewFrame, PAIR};
use std::alloc::Global;
use std::time::Instant;
use store_dev::StoreDevice;

/// How many frames are appended together.
const BATCH: u64 = 50;

/// What each frame holds.
const VALUE: [u8; 100] = [b'v'; 100];

/// How many frames a log has that is opened again.
const MANY: u64 = 200_000;

/// How many of them are appended at a time.
const STEP: u64 = 1_000;

/// Appends so many equal pairs at once.
fn append_pairs<S: StoreDevice>(
    alloc: Global,
    log: &mut Log<S>,
    count: u64,
    value: &[u8],
) -> Result<(), LogErr>
    requires whole { IsTrue (is_whole log.old) }
    requires value { length value.now < 2 ^ 32 }
    ensures whole { OnOk result (IsTrue (is_whole log.new)) }
{
    let frame = NewFrame {
        kind: PAIR,
        key: &KEY,
        value,
    };
    let frames = vec![in alloc; frame; count as usize]?;
    let _first = log.append_all(alloc, &frames)?;
    Ok(())
}

/// Appends many frames, some at a time.
fn fill_many<S: StoreDevice>(alloc: Global, log: &mut Log<S>) -> Result<(), LogErr>
    requires { IsTrue (is_whole log.old) }
{
    for _ in 0..MANY / STEP {
        append_pairs(alloc, log, STEP, &VALUE)?;
    }
    Ok(())
}

/// Says how long single appends take, and as many at once.
pub fn bench_batch<S: StoreDevice + Drop>(rt: &HostRuntime, store: S) -> Result<()> {
    let alloc = rt.alloc();
    let Ok(opened) = Log::open(alloc, store) else {
        bail!("not opened");
    };
    let mut log = opened;
    let began = Instant::now(rt)?;
    fill(alloc, &mut log, BATCH, &VALUE)?;
    let single = began.elapsed(rt)?.as_micros();
    let began = Instant::now(rt)?;
    append_pairs(alloc, &mut log, BATCH, &VALUE)?;
    let together = began.elapsed(rt)?.as_micros();
    let count = BATCH;
    println!(rt; "{count} appends in {single} us, {count} at once in {together} us")?;
    Ok(())
}

/// Says how long a log of many frames takes to be opened.
pub fn bench_opening<S: StoreDevice + Drop>(rt: &HostRuntime, store: S) -> Result<()> {
    let alloc = rt.alloc();
    let Ok(opened) = Log::open(alloc, store) else {
        bail!("not opened");
    };
    let mut log = opened;
    let began = Instant::now(rt)?;
    fill_many(alloc, &mut log)?;
    let filling = began.elapsed(rt)?.as_micros();
    let store = log.device();
    let began = Instant::now(rt)?;
    let Ok(log) = Log::open(alloc, store) else {
        bail!("not opened again");
    };
    let opening = began.elapsed(rt)?.as_micros();
    let frames = log.frames();
    let step = STEP;
    println!(rt;
        "{frames} frames appended {step} at a time in {filling} us, and opened in {opening} us"
    )?;
    Ok(())
}
