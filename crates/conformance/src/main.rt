//! Compares the crates with answers that outside tools gave, and prints a line a section.
//!
//! The cases stand in the current folder, or in the one that is named as the one argument.
#![tactic(auto)]

mod cases;
mod edges_section;
mod globs_section;
mod ignore_section;
mod locks_section;
mod ranges_section;
mod spaces;
mod workspaces_section;

use anyhow::Result;
use cases::Outcome;
use std::alloc::Global;
use std::rt::Files;
use std::{env, fs};

fn read(rt: &(impl Files + AllocGlobal), folder: &str, file: &str) -> Result<String> {
    let path = format!(in rt.alloc(); "{folder}/{file}")?;
    Ok(fs::read_to_string(rt, path.as_str())?)
}

// Compares the cases of a file and prints the line of their section.
fn section<F: Fn(Global, &str) -> Result<Outcome>>(
    rt: &HostRuntime,
    folder: &str,
    file: &str,
    name: &str,
    cases_are: &str,
    compare: F,
) -> Result<()>
    requires { F.IsAlwaysCallable compare }
{
    let text = read(rt, folder, file)?;
    let outcome = compare(rt.alloc(), text.as_str())?;
    outcome.print(rt, name, cases_are)
}

// The sections of the crates that read texts by themselves.
fn print_texts(rt: &HostRuntime, folder: &str) -> Result<()> {
    section(
        rt,
        folder,
        "globs.jsonl",
        "globs",
        "globs",
        globs_section::compare,
    )?;
    section(
        rt,
        folder,
        "ignore.jsonl",
        "ignore",
        "trees",
        ignore_section::compare,
    )?;
    section(
        rt,
        folder,
        "ignore-real.jsonl",
        "ignore-real",
        "trees",
        ignore_section::compare,
    )?;
    section(
        rt,
        folder,
        "ignore-grid.jsonl",
        "ignore-grid",
        "patterns",
        ignore_section::compare_grid,
    )?;
    section(
        rt,
        folder,
        "ranges.jsonl",
        "ranges",
        "texts",
        ranges_section::compare,
    )
}

// The sections of the crates that read whole repositories.
fn print_repositories(rt: &HostRuntime, folder: &str) -> Result<()> {
    section(
        rt,
        folder,
        "locks.tsv",
        "lockfiles",
        "locks",
        locks_section::compare,
    )?;
    section(
        rt,
        folder,
        "edges.jsonl",
        "edges",
        "dependencies",
        edges_section::compare,
    )?;
    section(
        rt,
        folder,
        "workspaces.jsonl",
        "workspaces",
        "workspaces",
        workspaces_section::compare,
    )
}

fn main(rt: HostRuntime) -> Result<()> {
    let folder = match env::args(&rt)?.skip(1).next() {
        Some(folder) => folder,
        None => String::from_str(rt.alloc(), ".")?,
    };
    print_texts(&rt, folder.as_str())?;
    print_repositories(&rt, folder.as_str())
}
