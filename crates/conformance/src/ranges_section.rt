// Ranges against the answers of node-semver.
use crate::cases::Outcome;
use anyhow::{Context, Result};
use json_view::View;
use npm_range::Range;
use semver::Version;
use std::alloc::Global;

// Compares the versions at the pointer, all of which are wanted to be admitted, or none.
fn compare_versions(
    alloc: Global,
    range: &Range,
    case: &View,
    pointer: &str,
    wanted: bool,
    line: &str,
    outcome: &mut Outcome,
) -> Result<()> {
    let versions = case
        .texts_at(alloc, pointer)
        .ok()
        .flatten()
        .context("versions")?;
    for text in versions.as_slice() {
        let version = Version::parse(alloc, text.as_str())
            .ok()
            .context("a version")?;
        outcome.count_answer(range.admits(&version) == wanted, line)?;
    }
    Ok(())
}

fn compare_case(alloc: Global, line: &str, outcome: &mut Outcome) -> Result<()> {
    let case = View::read(alloc, line.as_bytes()).ok().context("a case")?;
    let text = case
        .text_at(alloc, "/range")
        .ok()
        .flatten()
        .context("a range")?;
    let reads = case
        .flag_at(alloc, "/read")
        .ok()
        .flatten()
        .context("a flag")?;
    outcome.count_case();
    match Range::read(alloc, text.as_str()) {
        Ok(range) if reads => {
            outcome.count_answer(true, line)?;
            compare_versions(alloc, &range, &case, "/yes", true, line, outcome)?;
            compare_versions(alloc, &range, &case, "/no", false, line, outcome)
        }
        Ok(_range) => outcome.count_answer(false, line),
        Err(_) => outcome.count_answer(!reads, line),
    }
}

/// Compares each case of the text, one a line: a range, and versions that it admits or does not.
pub fn compare(alloc: Global, text: &str) -> Result<Outcome> {
    let mut outcome = Outcome::new(alloc);
    for line in text.lines() {
        compare_case(alloc, line, &mut outcome)?;
    }
    Ok(outcome)
}
