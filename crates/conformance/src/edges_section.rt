// Edges between two packages against the answers of npm.
use crate::cases::Outcome;
use crate::spaces::space_of;
use anyhow::{Context, Result};
use json_view::View;
use rel_path::Texts;
use std::alloc::Global;
use workspaces::Packages;

fn has_name(names: &Texts, name: &str) -> bool {
    names.as_slice().iter().any(|text| text.as_str() == name)
}

// Whether the first package depends on the second, and whether it needs the name of that from outside.
fn found(space: &Packages) -> (bool, bool) {
    if space.count() != 2 {
        return (false, false);
    }
    let needs = space.needs(0);
    let name = space.name(1).as_str();
    (
        space.edges(0).as_slice().contains(&1),
        has_name(&needs.hard, name) || has_name(&needs.soft, name),
    )
}

fn compare_case(alloc: Global, line: &str, outcome: &mut Outcome) -> Result<()> {
    let case = View::read(alloc, line.as_bytes()).ok().context("a case")?;
    let is_edge = case
        .flag_at(alloc, "/edge")
        .ok()
        .flatten()
        .context("a flag")?;
    outcome.count_case();
    let (depends, needs) = match space_of(alloc, &case)? {
        Ok(space) => found(&space),
        Err(_) => (false, false),
    };
    outcome.count_answer(depends == is_edge, line)?;
    outcome.count_answer(needs != is_edge, line)
}

/// Compares each case of the text, one a line: a workspace of two packages, and whether the first depends on the second
/// or else needs its name from outside.
pub fn compare(alloc: Global, text: &str) -> Result<Outcome> {
    let mut outcome = Outcome::new(alloc);
    for line in text.lines() {
        compare_case(alloc, line, &mut outcome)?;
    }
    Ok(outcome)
}
