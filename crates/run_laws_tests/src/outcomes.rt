// Outcomes of the run without a cache, on worked examples.
use crate::graphs::{file, lit, one, rule, three_packages, two_packages};
use crate::{Rule, clean};
use rel_path::RelPath;
use run_laws::{Effect, Mode, Outcome};
use std::alloc::Global;
use std::process::Abort;
use std::test::Fail;

const MODES: [Mode; 3] = [Mode::Never, Mode::DependenciesSuccessful, Mode::Always];

/// `ui` copies its source into `dist/a.js`, and so does `web`, which prints what it sees of `ui`'s file.
pub fn copying(alloc: Global, ui_status: u8) -> Result<Vec<Rule>, Fail> {
    let mut rules = Vec::new(alloc);
    rules.push(rule(
        alloc,
        "ui",
        one(alloc, lit(alloc, "built ui\n")?)?,
        ui_status,
        "packages/ui/dist/a.js",
        one(alloc, file(alloc, "packages/ui/src/a.js")?)?,
    )?)?;
    rules.push(rule(
        alloc,
        "web",
        one(alloc, file(alloc, "packages/ui/dist/a.js")?)?,
        0,
        "packages/web/dist/a.js",
        one(alloc, file(alloc, "packages/web/src/a.js")?)?,
    )?)?;
    Ok(rules)
}

fn effect_in(outcome: &Outcome) -> Option<&Effect> {
    match outcome {
        Outcome::Skipped => None,
        Outcome::Passed => None,
        Outcome::Done(effect) => Some(effect),
    }
}

pub fn effect_at(outcomes: &[Outcome], place: usize) -> Option<&Effect> {
    match outcomes.get(place) {
        Some(outcome) => effect_in(outcome),
        None => None,
    }
}

fn is_left_out(outcome: &Outcome) -> bool {
    match outcome {
        Outcome::Skipped => true,
        Outcome::Passed => false,
        Outcome::Done(_) => false,
    }
}

fn is_skipped(outcomes: &[Outcome], place: usize) -> bool {
    match outcomes.get(place) {
        Some(outcome) => is_left_out(outcome),
        None => false,
    }
}

/// The task at the place did this, and wrote one file.
fn did(
    rt: &impl Abort,
    alloc: Global,
    outcomes: &[Outcome],
    place: usize,
    wanted: (&str, u8, &str, &str),
) -> Result<(), Fail> {
    let (log, status, path, bytes) = wanted;
    let path = RelPath::read(alloc, path)?;
    match effect_at(outcomes, place) {
        Some(effect) => {
            assert_eq!(rt; effect.log.as_slice(), log.as_bytes(), "log of {place}");
            assert_eq!(rt; effect.status, status, "status of {place}");
            let files = effect.files.as_slice();
            assert_eq!(rt; files.len(), 1, "files of {place}");
            assert!(rt; files[0].0 == path, "path of {place}");
            assert_eq!(rt; files[0].1.as_slice(), bytes.as_bytes(), "bytes of {place}");
        }
        None => assert!(rt; false, "no effect of {place}"),
    }
    Ok(())
}

#[test]
fn two_tasks(rt: HostRuntime) -> Result<(), Fail> {
    let alloc = rt.alloc();
    let listing = two_packages(alloc, "let a;", "let b;")?;
    for mode in MODES {
        let outcomes = clean(alloc, mode, &copying(alloc, 0)?, &listing)?;
        assert_eq!(rt; outcomes.len(), 2);
        let ui = ("built ui\n", 0, "packages/ui/dist/a.js", "let a;");
        did(&rt, alloc, &outcomes, 0, ui)?;
        let web = ("let a;", 0, "packages/web/dist/a.js", "let b;");
        did(&rt, alloc, &outcomes, 1, web)?;
    }
    Ok(())
}

// The failed command has written its file all the same, and the task above it sees that where it runs.
#[test]
fn a_failure_below(rt: HostRuntime) -> Result<(), Fail> {
    let alloc = rt.alloc();
    let listing = two_packages(alloc, "let a;", "let b;")?;
    for mode in MODES {
        let outcomes = clean(alloc, mode, &copying(alloc, 2)?, &listing)?;
        let ui = ("built ui\n", 2, "packages/ui/dist/a.js", "let a;");
        did(&rt, alloc, &outcomes, 0, ui)?;
        let left = mode != Mode::Always;
        assert_eq!(rt; is_skipped(&outcomes, 1), left);
        if !left {
            let web = ("let a;", 0, "packages/web/dist/a.js", "let b;");
            did(&rt, alloc, &outcomes, 1, web)?;
        }
    }
    Ok(())
}

/// Each of `a`, `b` and `c` prints its name and writes `dist/x` in its folder.
pub fn naming(alloc: Global, statuses: [u8; 3]) -> Result<Vec<Rule>, Fail> {
    let mut rules = Vec::new(alloc);
    let rows = [("a", "a/dist/x"), ("b", "b/dist/x"), ("c", "c/dist/x")];
    for ((name, path), status) in rows.iter().zip(statuses.iter()) {
        let log = one(alloc, lit(alloc, name)?)?;
        let bytes = one(alloc, lit(alloc, name)?)?;
        rules.push(rule(alloc, name, log, *status, path, bytes)?)?;
    }
    Ok(rules)
}

// Tasks that depend on nothing do what they do, whatever others end with.
#[test]
fn three_alone(rt: HostRuntime) -> Result<(), Fail> {
    let alloc = rt.alloc();
    let listing = three_packages(alloc, &[], &[], &[])?;
    for mode in MODES {
        let outcomes = clean(alloc, mode, &naming(alloc, [0, 3, 0])?, &listing)?;
        did(&rt, alloc, &outcomes, 0, ("a", 0, "a/dist/x", "a"))?;
        did(&rt, alloc, &outcomes, 1, ("b", 3, "b/dist/x", "b"))?;
        did(&rt, alloc, &outcomes, 2, ("c", 0, "c/dist/x", "c"))?;
    }
    Ok(())
}

// A failure leaves out what depends on it through others too.
#[test]
fn two_edges_above_a_failure(rt: HostRuntime) -> Result<(), Fail> {
    let alloc = rt.alloc();
    let listing = three_packages(alloc, &[], &[0], &[1])?;
    for mode in MODES {
        let outcomes = clean(alloc, mode, &naming(alloc, [1, 0, 0])?, &listing)?;
        let left = mode != Mode::Always;
        assert_eq!(rt; is_skipped(&outcomes, 1), left);
        assert_eq!(rt; is_skipped(&outcomes, 2), left);
    }
    Ok(())
}
