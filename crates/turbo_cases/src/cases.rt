// Cases, each of one run or of a run for each call that fails.
use crate::called::Seen;
use crate::compare::{Differences, compare};
use crate::scene::{Scene, are_same};
use crate::steps::{run_step, scene_of};
use anyhow::{Context, Result};
use run_case_files::{Case, Fault, Group, Step, Sweep, Tally, Wanted};
use std::alloc::Global;

/// A run of a case: the call that fails in one of its steps, and what is wanted in the place of
/// what the steps say.
#[derive(Clone, Copy, Drop)]
struct Run<'a> {
    group: &'a Group,
    case: &'a Case,
    at: usize,
    fault: Option<Fault>,
    outcome: Option<&'a Vec<Wanted>>,
}

fn wanted_of<'a>(run: &Run<'a>, number: usize, step: &'a Step) -> Option<&'a Wanted> {
    match run.outcome {
        Some(outcome) => outcome.get(number),
        None => step.wanted.as_ref(),
    }
}

fn compare_first(seen: &Seen, first: Option<&Seen>, differences: &mut Differences) -> Result<()> {
    let first = first.context("no first step")?;
    differences.compare("page", first.page.as_str(), seen.page.as_str())?;
    let wanted = first.store.as_slice().len();
    differences.compare_number("bytes of the store", wanted, seen.store.as_slice().len())
}

// Compares what is seen of a step with what is wanted, with what was before it, and with the first
// step.
fn compare_step(
    alloc: Global,
    wanted: &Wanted,
    seen: &Seen,
    before: &Scene,
    first: Option<&Seen>,
    differences: &mut Differences,
) -> Result<()> {
    compare(alloc, wanted, seen, differences)?;
    if wanted.refusal.is_some() && !are_same(&before.files, &seen.files) {
        differences.add("files", "as before", "changed")?;
    }
    if wanted.as_first {
        compare_first(seen, first, differences)?;
    }
    Ok(())
}

// Makes the steps, up to the first that differs, and answers how it does.
fn differences_of(alloc: Global, run: &Run) -> Result<Vec<String>> {
    let mut scene = scene_of(alloc, run.group, run.case)?;
    let mut first = None;
    for (number, step) in run.case.steps.iter().enumerate() {
        let fault = if number == run.at { run.fault } else { None };
        let seen = run_step(alloc, run.group, run.case, step, fault, &mut scene)?;
        let mut differences = Differences::new(alloc, number);
        if let Some(wanted) = wanted_of(run, number, step) {
            compare_step(
                alloc,
                wanted,
                &seen,
                &scene,
                first.as_ref(),
                &mut differences,
            )?;
        }
        if !differences.lines.is_empty() {
            return Ok(differences.lines);
        }
        scene.files = seen.files.copy()?;
        scene.store = seen.store.copy()?;
        scene.spare = seen.spare.copy()?;
        scene.second = seen.second.copy()?;
        scene.shared = seen.shared.copy()?;
        first = first.or(Some(seen));
    }
    Ok(Vec::new(alloc))
}

// What cannot be run is a difference too.
fn found(alloc: Global, run: &Run) -> Result<Vec<String>> {
    match differences_of(alloc, run) {
        Ok(differences) => Ok(differences),
        Err(error) => {
            let mut lines = Vec::new(alloc);
            lines.push(format!(in alloc; "{error}")?)?;
            Ok(lines)
        }
    }
}

// Adds the name so many times as the part says: `3 tree`.
fn push_times<'a>(names: &mut Vec<&'a str>, part: &'a str) -> Result<()> {
    let (times, name) = part.split_once(" ").context("no count of outcomes")?;
    let times = times.parse::<usize>().ok().context("no count of outcomes")?;
    for _ in 0..times {
        names.push(name)?;
    }
    Ok(())
}

// The outcome of each run.
fn outcomes_of(alloc: Global, calls: &str) -> Result<Vec<&str>> {
    let mut names = Vec::new(alloc);
    for part in calls.split(", ") {
        push_times(&mut names, part)?;
    }
    Ok(names)
}

fn sweep<'a>(
    alloc: Global,
    group: &'a Group,
    case: &'a Case,
    sweep: &'a Sweep,
    tally: &mut Tally,
) -> Result<()> {
    let names = outcomes_of(alloc, sweep.calls.as_str())?;
    for (number, name) in names.iter().enumerate() {
        let label = format!(in alloc; "{}, call {number} ({name})", case.name)?;
        let fault = Fault {
            device: sweep.device,
            number: number as u64,
            fill: sweep.fill,
            keep: sweep.keep.unwrap_or(u64::MAX),
        };
        let outcome = sweep.outcomes.get(*name).context("no such outcome")?;
        let run = Run {
            group,
            case,
            at: sweep.step,
            fault: Some(fault),
            outcome: Some(outcome),
        };
        tally.count(label.as_str(), found(alloc, &run)?)?;
    }
    Ok(())
}

fn run_case<'a>(alloc: Global, group: &'a Group, case: &'a Case, tally: &mut Tally) -> Result<()> {
    if let Some(each) = &case.sweep {
        return sweep(alloc, group, case, each, tally);
    }
    let run = Run {
        group,
        case,
        at: 0,
        fault: None,
        outcome: None,
    };
    tally.count(case.name.as_str(), found(alloc, &run)?)
}

/// Runs the cases of a group.
pub fn run_group(alloc: Global, text: &str, tally: &mut Tally) -> Result<()> {
    let group: Group = serde_json::from_str(alloc, text)?;
    for case in group.cases.iter() {
        run_case(alloc, &group, case, tally)?;
    }
    Ok(())
}
