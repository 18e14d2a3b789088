// Globs against the answers of minimatch.
use crate::cases::Outcome;
use anyhow::{Context, Result};
use globs::Glob;
use json_view::View;
use rel_path::RelPath;
use std::alloc::Global;

// How a glob matches a path.
#[derive(Clone, Copy, PartialEq, Eq)]
enum Match {
    Whole,
    Below,
    Nothing,
}

fn match_of(glob: &Glob, path: &RelPath) -> Match {
    if glob.matches_whole(path) {
        return Match::Whole;
    }
    if glob.matches(path) {
        return Match::Below;
    }
    Match::Nothing
}

// Compares the paths of a list, all of which are wanted to match so.
fn compare_list(
    alloc: Global,
    case: &View,
    glob: &Glob,
    line: &str,
    list: &str,
    wanted: Match,
    outcome: &mut Outcome,
) -> Result<()> {
    let paths = case
        .texts_at(alloc, list)
        .ok()
        .flatten()
        .context("a list of paths")?;
    for path in paths.as_slice() {
        let read = RelPath::read(alloc, path.as_str()).ok().context("a path")?;
        outcome.count_answer(match_of(glob, &read) == wanted, line)?;
    }
    Ok(())
}

fn compare_case(alloc: Global, line: &str, outcome: &mut Outcome) -> Result<()> {
    let case = View::read(alloc, line.as_bytes()).ok().context("a case")?;
    let text = case
        .text_at(alloc, "/glob")
        .ok()
        .flatten()
        .context("a glob")?;
    outcome.count_case();
    match Glob::read(alloc, text.as_str()) {
        Err(_) => outcome.count_answer(false, line),
        Ok(glob) => {
            compare_list(alloc, &case, &glob, line, "/whole", Match::Whole, outcome)?;
            compare_list(alloc, &case, &glob, line, "/below", Match::Below, outcome)?;
            compare_list(alloc, &case, &glob, line, "/none", Match::Nothing, outcome)
        }
    }
}

/// Compares each case of the text, one a line.
pub fn compare(alloc: Global, text: &str) -> Result<Outcome> {
    let mut outcome = Outcome::new(alloc);
    for line in text.lines() {
        compare_case(alloc, line, &mut outcome)?;
    }
    Ok(outcome)
}
