//! How fast a store of results is filled, opened, asked, restored from and compacted, over a file, and how much memory
//! that takes; and how fast a log is appended to and opened.
//!
//! - `fill PATH RECORDS`: a store of so many results of about 10 KB, written anew.
//! - `open PATH RECORDS`: its opening with the fingerprints of all keys; `plan PATH RECORDS`: with those of 1,000 keys
//!   alone. Both ask then for a key that is not there and for keys that are, restore, and put one result more.
//! - `compact FROM TO`: the compaction of one store into another, which is written anew.
//! - `log memory COUNT BYTES` and `log file PATH COUNT BYTES`: so many pairs with values of so many bytes.
//! - `log batch PATH`: frames one by one and at once; `log opening PATH`: a log of many frames. The file is written anew.
//!
//! Without words it says these.
#![tactic(auto)]

ghost use Rattle.pair_reader.specs.Answers.{Ascend};

mod asking;
mod batches;
mod compaction;
mod file;
mod logs;
mod memory;
mod results;

use crate::asking::{ask, fill};
use crate::compaction::bench_compaction;
use crate::file::{FileStore, file_at};
use crate::logs::bench_log;
use crate::memory::peak;
use crate::results::plan_lengths;
use anyhow::{Result, bail};
use artifact_store::Store;
use pair_reader::Lengths;
use std::alloc::Global;
use std::env;
use std::time::Instant;

fn fill_at(rt: &HostRuntime, path: &str, records: u64) -> Result<()> {
    let alloc = rt.alloc();
    let Ok(opened) = Store::open(alloc, FileStore::new(file_at(rt, path, true)?)) else {
        bail!("not opened");
    };
    let mut store = opened;
    let began = Instant::now(rt)?;
    fill(alloc, &mut store, records)?;
    let took = began.elapsed(rt)?.as_millis();
    println!(rt; "{records} results put in {took} ms")?;
    Ok(())
}

fn open_at(rt: &HostRuntime, path: &str, records: u64, lengths: Lengths) -> Result<()>
    requires ascend { Ascend lengths }
{
    let alloc = rt.alloc();
    let device = FileStore::new(file_at(rt, path, false)?);
    let began = Instant::now(rt)?;
    let Ok(opened) = Store::open_for(alloc, device, lengths) else {
        bail!("not opened");
    };
    let took = began.elapsed(rt)?.as_millis();
    println!(rt; "opened in {took} ms")?;
    let mut store = opened;
    ask(rt, &mut store, records)?;
    let peak = peak(rt)?;
    println!(rt; "peak of memory: {peak}")?;
    Ok(())
}

fn main(rt: HostRuntime) -> Result<()> {
    let words: Vec<String> = env::args(&rt)?.skip(1).collect(rt.alloc())?;
    match words.as_slice() {
        [word, path, records] if word.as_str() == "fill" => {
            fill_at(&rt, path.as_str(), records.as_str().parse::<u64>()?)
        }
        [word, path, records] if word.as_str() == "open" => {
            let records = records.as_str().parse::<u64>()?;
            open_at(&rt, path.as_str(), records, Lengths::All)
        }
        [word, path, records] if word.as_str() == "plan" => {
            let lengths = plan_lengths(rt.alloc())?;
            let records = records.as_str().parse::<u64>()?;
            open_at(&rt, path.as_str(), records, lengths)
        }
        [word, from, to] if word.as_str() == "compact" => {
            bench_compaction(&rt, from.as_str(), to.as_str())
        }
        [word, words @ ..] if word.as_str() == "log" => bench_log(&rt, words),
        _ => {
            println!(rt; "store_bench: fill, open or plan PATH RECORDS, compact FROM TO, or log")?;
            Ok(())
        }
    }
}
