//! Whole runs of the program over devices in memory, against what the files of cases want.
//!
//! The files stand in the current folder, or in the one that is named as the first argument. A line
//! is printed for each group, and the first cases that differ.
#![tactic(auto)]

mod called;
mod cases;
mod compare;
mod scene;
mod steps;
mod turns;
mod world;

use anyhow::Result;
use cases::run_group;
use run_case_files::Tally;
use std::rt::Files;
use std::{env, fs};

/// The groups, each in a file of its name.
const GROUPS: [&str; 19] = [
    "one_package",
    "monorepo",
    "graphs",
    "chain",
    "apart",
    "twins",
    "rooms",
    "orders",
    "filters",
    "inputs",
    "root_tasks",
    "environment",
    "pruning",
    "sample",
    "compaction",
    "stores",
    "refusals",
    "sizes",
    "limits",
];

fn run_file(
    rt: &(impl Files + AllocGlobal),
    folder: &str,
    group: &str,
    tally: &mut Tally,
) -> Result<()> {
    let path = format!(in rt.alloc(); "{folder}/{group}.json")?;
    let text = fs::read_to_string(rt, path.as_str())?;
    run_group(rt.alloc(), text.as_str(), tally)
}

// Runs the cases of a group and prints its line. A file that can't be run is shown as a case that
// differs.
fn run(rt: &HostRuntime, folder: &str, group: &str) -> Result<()> {
    let mut tally = Tally::new(rt.alloc());
    if let Err(error) = run_file(rt, folder, group, &mut tally) {
        tally.fail(&error)?;
    }
    tally.print(rt, group)
}

fn main(rt: HostRuntime) -> Result<()> {
    let folder = match env::args(&rt)?.skip(1).next() {
        Some(folder) => folder,
        None => String::from_str(rt.alloc(), ".")?,
    };
    for group in GROUPS {
        run(&rt, folder.as_str(), group)?;
    }
    Ok(())
}
