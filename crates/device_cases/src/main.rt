//! Compares what the devices in memory, the log, the store of results and the calls on owned files answer with the
//! wanted answers of cases, and prints a line a section.
//!
//! The cases stand in the current folder, or in the one that is named as the one argument.
#![tactic(auto)]

mod artifacts;
mod caches;
mod devices;
mod logs;
mod marks;
mod parts;
mod rooms;
mod sessions;
mod sinks;
mod trees;

use anyhow::Result;
use case_files::print_section;
use std::env;

fn print_stores(rt: &HostRuntime, folder: &str) -> Result<()> {
    print_section(rt, folder, "devices", devices::answer)?;
    print_section(rt, folder, "logs", logs::answer)?;
    print_section(rt, folder, "artifacts", artifacts::answer)?;
    print_section(rt, folder, "caches", caches::answer)?;
    print_section(rt, folder, "marks", marks::answer)?;
    print_section(rt, folder, "rooms", rooms::answer)
}

fn print_files(rt: &HostRuntime, folder: &str) -> Result<()> {
    print_section(rt, folder, "trees", trees::answer)?;
    print_section(rt, folder, "sinks", sinks::answer)
}

fn main(rt: HostRuntime) -> Result<()> {
    let folder = match env::args(&rt)?.skip(1).next() {
        Some(folder) => folder,
        None => String::from_str(rt.alloc(), ".")?,
    };
    print_stores(&rt, folder.as_str())?;
    print_files(&rt, folder.as_str())
}
