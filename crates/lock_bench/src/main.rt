//! How long a lockfile of many entries takes to read, and what its names find and reach.
//!
//! Words: the count of packages, and `times` to tell the times too; without words the count is 20,000.
#![tactic(auto)]

use anyhow::{Context, Result};
use npm_lock::{Lock, Start};
use rel_path::Text;
use std::alloc::Global;
use std::env;
use std::time::Instant;

/// A lockfile whose package `p0` needs `p1`, this one `p2`, and so on. Each of them needs `q`, of which every tenth has
/// its own.
fn lock_text(alloc: Global, count: u32) -> Result<String> {
    let mut text = String::from_str(
        alloc,
        "{\"lockfileVersion\":3,\"packages\":{\"\":{},\"node_modules/q\":{}",
    )?;
    for i in 0..count {
        let next = i.saturating_add(1);
        if next < count {
            let entry = format!(in alloc;
                ",\"node_modules/p{i}\":{{\"dependencies\":{{\"p{next}\":\"*\",\"q\":\"*\"}}}}"
            )?;
            text.push_str(entry.as_str())?;
        } else {
            let entry = format!(in alloc; ",\"node_modules/p{i}\":{{}}")?;
            text.push_str(entry.as_str())?;
        }
        if i % 10 == 0 {
            let entry = format!(in alloc; ",\"node_modules/p{i}/node_modules/q\":{{}}")?;
            text.push_str(entry.as_str())?;
        }
    }
    text.push_str("}}")?;
    Ok(text)
}

/// How many of the packages find a `q` of their own.
fn count_own(alloc: Global, lock: &Lock, count: u32) -> Result<u32> {
    let outer = lock.found("", "q").context("q")?;
    let mut own: u32 = 0;
    for i in 0..count {
        let from = format!(in alloc; "node_modules/p{i}")?;
        if lock.found(from.as_str(), "q").context("q")? != outer {
            own = own.saturating_add(1);
        }
    }
    Ok(own)
}

/// How many locations the package reaches.
fn count_reached(alloc: Global, lock: &Lock, package: u32) -> Result<usize> {
    let name = format!(in alloc; "p{package}")?;
    let start = Start {
        from: Text::read(alloc, "").ok().context("memory")?,
        name: Text::from_string(name),
        soft: false,
    };
    let mut starts = Vec::new(alloc);
    starts.push(start)?;
    let pairs = lock
        .externals(alloc, starts.as_slice())
        .ok()
        .context("externals")?;
    Ok(pairs.as_slice().len())
}

fn bench(rt: &HostRuntime, count: u32, is_timed: bool) -> Result<()> {
    let alloc = rt.alloc();
    let text = lock_text(alloc, count)?;
    let began = Instant::now(rt)?;
    let lock = Lock::read(alloc, text.as_str().as_bytes())
        .ok()
        .context("a lockfile")?;
    let reading = began.elapsed(rt)?.as_micros();
    let began = Instant::now(rt)?;
    let own = count_own(alloc, &lock, count)?;
    let looking = began.elapsed(rt)?.as_micros();
    println!(rt; "{count} look-ups: {own} find an entry of their own")?;
    let began = Instant::now(rt)?;
    let all = count_reached(alloc, &lock, 0)?;
    let reaching = began.elapsed(rt)?.as_micros();
    let last = count_reached(alloc, &lock, count.saturating_sub(10))?;
    println!(rt; "the first package reaches {all} locations, the last but nine {last}")?;
    if is_timed {
        println!(rt; "read in {reading} us, looked up in {looking} us, reached in {reaching} us")?;
    }
    Ok(())
}

fn main(rt: HostRuntime) -> Result<()> {
    let words: Vec<String> = env::args(&rt)?.skip(1).collect(rt.alloc())?;
    match words.as_slice() {
        [count, word] if word.as_str() == "times" => bench(
            &rt,
            count.as_str().parse::<u32>()?,
            true,
        ),
        [count] => bench(&rt, count.as_str().parse::<u32>()?, false),
        _ => bench(&rt, 20_000, false),
    }
}
