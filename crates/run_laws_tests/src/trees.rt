// What commands leave among files: old outputs, orders of ends, log files.
use crate::graphs::{files, three_packages, two_packages};
use crate::outcomes::{copying, effect_at, naming};
use crate::{clean, cleared, log_name, over};
use listing::Listing;
use rel_path::{Files, RelPath, Text};
use run_laws::{Mode, Outcome};
use std::alloc::Global;
use std::process::Abort;
use std::test::Fail;

/// What stands at the path, and nothing where no file does.
fn bytes_at<'a>(files: &'a Files, path: &RelPath) -> &'a [u8] {
    for file in files.as_slice() {
        if file.0 == *path {
            return file.1.as_slice();
        }
    }
    &[]
}

/// The files after the command of the task at the place has run over them.
fn after(
    alloc: Global,
    listing: &Listing,
    outcomes: &[Outcome],
    place: usize,
    before: &Files,
) -> Result<Files, Fail> {
    let mut now = before.copy()?;
    if let Some(part) = listing.parts.as_slice().get(place) {
        now = cleared(alloc, &part.outs, now.as_slice())?;
    }
    if let Some(effect) = effect_at(outcomes, place) {
        now = over(alloc, now.as_slice(), effect.files.as_slice())?;
    }
    Ok(now)
}

fn stands(
    rt: &impl Abort,
    alloc: Global,
    files: &Files,
    path: &str,
    wanted: &str,
) -> Result<(), Fail> {
    let path = RelPath::read(alloc, path)?;
    assert_eq!(rt; bytes_at(files, &path), wanted.as_bytes());
    Ok(())
}

// An old output is gone after the command, and no input is touched.
#[test]
fn an_old_output(rt: HostRuntime) -> Result<(), Fail> {
    let alloc = rt.alloc();
    let listing = two_packages(alloc, "let a;", "let b;")?;
    let outcomes = clean(alloc, Mode::Never, &copying(alloc, 0)?, &listing)?;
    let rows = [
        ("packages/ui/dist/old.js", "old"),
        ("packages/ui/src/a.js", "let a;"),
        ("packages/web/dist/old.js", "old"),
    ];
    let before = files(alloc, &rows)?;
    let now = after(alloc, &listing, &outcomes, 0, &before)?;
    stands(&rt, alloc, &now, "packages/ui/dist/old.js", "")?;
    stands(&rt, alloc, &now, "packages/ui/dist/a.js", "let a;")?;
    stands(&rt, alloc, &now, "packages/ui/src/a.js", "let a;")?;
    stands(&rt, alloc, &now, "packages/web/dist/old.js", "old")
}

// Whatever order three tasks end in, the same files stand there.
#[test]
fn two_orders_of_ends(rt: HostRuntime) -> Result<(), Fail> {
    let alloc = rt.alloc();
    let listing = three_packages(alloc, &[], &[], &[])?;
    let outcomes = clean(alloc, Mode::Never, &naming(alloc, [0, 0, 0])?, &listing)?;
    for order in [[1, 0, 2], [0, 1, 2]] {
        let mut now = files(alloc, &[("b/dist/old", "old")])?;
        for place in order {
            now = after(alloc, &listing, &outcomes, place, &now)?;
        }
        stands(&rt, alloc, &now, "a/dist/x", "a")?;
        stands(&rt, alloc, &now, "b/dist/x", "b")?;
        stands(&rt, alloc, &now, "c/dist/x", "c")?;
        stands(&rt, alloc, &now, "b/dist/old", "")?;
    }
    Ok(())
}

#[test]
fn log_names(rt: HostRuntime) -> Result<(), Fail> {
    let alloc = rt.alloc();
    let rows = [
        ("build", "turbo-build.log"),
        ("test:unit", "turbo-test$colon$unit.log"),
        ("e2e/all", "turbo-e2e$slash$all.log"),
    ];
    for (task, wanted) in rows {
        let name = log_name(alloc, &Text::read(alloc, task)?)?;
        assert_eq!(rt; name.as_slice(), wanted.as_bytes());
    }
    Ok(())
}
