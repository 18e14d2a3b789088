//! Compares what is found in whole repositories, and what is printed, with cases, a file of them for each section, and
//! prints a line a section.
//!
//! The cases stand in the current folder, or in the one that is named as the one argument.
#![tactic(auto)]

mod filters_section;
mod graph_section;
mod inputs_section;
mod packages_section;
mod page_section;
mod planning;
mod plans_section;
mod refusal_answers;
mod repositories;
mod repository_section;

use anyhow::Result;
use case_files::print_section;
use std::env;

fn main(rt: HostRuntime) -> Result<()> {
    let folder = match env::args(&rt)?.skip(1).next() {
        Some(folder) => folder,
        None => String::from_str(rt.alloc(), ".")?,
    };
    let folder = folder.as_str();
    print_section(&rt, folder, "packages", packages_section::answer)?;
    print_section(&rt, folder, "filters", filters_section::answer)?;
    print_section(&rt, folder, "graph", graph_section::answer)?;
    print_section(&rt, folder, "inputs", inputs_section::answer)?;
    print_section(&rt, folder, "repository", repository_section::answer)?;
    print_section(&rt, folder, "plans", plans_section::answer)?;
    print_section(&rt, folder, "page", page_section::answer)
}
