//! Compares the crates that read texts with cases, a file of them for each section, and prints a line a section.
//!
//! The cases stand in the current folder, or in the one that is named as the one argument.
#![tactic(auto)]

mod codes_section;
mod configuration_section;
mod environment_section;
mod glob_faults;
mod globs_section;
mod ignore_section;
mod json_section;
mod keys_section;
mod listing_section;
mod lockfiles_section;
mod manifests_section;
mod paths_section;
mod ranges_section;
mod words_section;

use anyhow::Result;
use case_files::print_section;
use std::env;

// The sections of the crates below all others.
fn print_texts(rt: &HostRuntime, folder: &str) -> Result<()> {
    print_section(rt, folder, "paths", paths_section::answer)?;
    print_section(rt, folder, "json", json_section::answer)?;
    print_section(rt, folder, "keys", keys_section::answer)?;
    print_section(rt, folder, "codes", codes_section::answer)?;
    print_section(rt, folder, "listing", listing_section::answer)
}

// The sections of patterns, and of what they take.
fn print_patterns(rt: &HostRuntime, folder: &str) -> Result<()> {
    print_section(rt, folder, "globs", globs_section::answer)?;
    print_section(rt, folder, "environment", environment_section::answer)?;
    print_section(rt, folder, "ignore", ignore_section::answer)?;
    print_section(rt, folder, "ranges", ranges_section::answer)
}

// The sections of whole files, and of the command line.
fn print_files(rt: &HostRuntime, folder: &str) -> Result<()> {
    print_section(rt, folder, "words", words_section::answer)?;
    print_section(rt, folder, "manifests", manifests_section::answer)?;
    print_section(rt, folder, "lockfiles", lockfiles_section::answer)?;
    print_section(rt, folder, "configuration", configuration_section::answer)
}

fn main(rt: HostRuntime) -> Result<()> {
    let folder = match env::args(&rt)?.skip(1).next() {
        Some(folder) => folder,
        None => String::from_str(rt.alloc(), ".")?,
    };
    print_texts(&rt, folder.as_str())?;
    print_patterns(&rt, folder.as_str())?;
    print_files(&rt, folder.as_str())
}
