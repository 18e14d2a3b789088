// Answers and measures globs, a line of the input each: `match`, a glob and a path, or `time`, a number of rounds, a glob
// and a path, the parts between tabs.
#![tactic(auto)]

use globs::Glob;
use rel_path::RelPath;
use std::alloc::Global;
use std::io;
use std::time::{Clock, Instant};

/// `W` where the glob takes the whole path, `A` where it matches from above, `-` where it does not, else the fault.
fn answer(alloc: Global, glob: &str, path: &str) -> io::Result<String> {
    let Ok(path) = RelPath::read(alloc, path) else {
        return Ok(String::from_str(alloc, "no path")?);
    };
    let text = match Glob::read(alloc, glob) {
        Ok(glob) if glob.matches_whole(&path) => String::from_str(alloc, "W")?,
        Ok(glob) if glob.matches(&path) => String::from_str(alloc, "A")?,
        Ok(_) => String::from_str(alloc, "-")?,
        Err(fault) => format!(in alloc; "{fault}")?,
    };
    Ok(text)
}

/// The microseconds that reading the glob takes, and those that the rounds of matching take.
fn measure(
    rt: &impl Clock,
    alloc: Global,
    rounds: u64,
    glob: &str,
    path: &str,
) -> io::Result<String> {
    let Ok(path) = RelPath::read(alloc, path) else {
        return Ok(String::from_str(alloc, "no path")?);
    };
    let start = Instant::now(rt)?;
    let Ok(glob) = Glob::read(alloc, glob) else {
        return Ok(String::from_str(alloc, "no glob")?);
    };
    let reading = start.elapsed(rt)?.as_micros();
    let start = Instant::now(rt)?;
    let mut taken = 0u64;
    for _ in 0..rounds {
        if glob.matches(&path) {
            taken = taken.wrapping_add(1);
        }
    }
    let matching = start.elapsed(rt)?.as_micros();
    Ok(format!(in alloc; "{reading} {matching} {taken}")?)
}

fn main(rt: HostRuntime) -> io::Result<()> {
    let alloc = rt.alloc();
    for line in rt.lines(alloc) {
        let line = line?;
        let mut words = line.as_str().split('\t');
        let text = match (words.next(), words.next(), words.next(), words.next()) {
            (Some("match"), Some(glob), Some(path), None) => answer(alloc, glob, path)?,
            (Some("time"), Some(rounds), Some(glob), Some(path)) => {
                measure(&rt, alloc, rounds.parse::<u64>().unwrap_or(1), glob, path)?
            }
            _ => String::from_str(alloc, "no question")?,
        };
        println!(rt; "{text}")?;
    }
    Ok(())
}
