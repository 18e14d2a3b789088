//! Compares what caches over several stores answer with the wanted answers of cases, and prints a
//! line a section: two stores behind one (`relays`), a store written anew into a spare one
//! (`compactions`), and a file that several runs use (`turns`).
//!
//! The cases stand in the current folder, or in the one that is named as the one argument.
#![tactic(auto)]

mod calls;
mod compactions;
mod cuts;
mod pairs;
mod parts;
mod relays;
mod turns;

use anyhow::Result;
use case_files::print_section;
use std::env;

fn main(rt: HostRuntime) -> Result<()> {
    let folder = match env::args(&rt)?.skip(1).next() {
        Some(folder) => folder,
        None => String::from_str(rt.alloc(), ".")?,
    };
    print_section(&rt, folder.as_str(), "relays", relays::answer)?;
    print_section(&rt, folder.as_str(), "compactions", compactions::answer)?;
    print_section(&rt, folder.as_str(), "turns", turns::answer)
}
