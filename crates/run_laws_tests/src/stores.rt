// Which tasks of a run are hits, by the keys of their closures.
use crate::graphs::{three_packages, two_packages};
use crate::outcomes::copying;
use crate::{Rule, clean, closure};
use globs::OutSet;
use listing::{Listing, key_text};
use rel_path::{Bytes, Files};
use run_laws::{Effect, Mark, Mode, Outcome};
use std::alloc::Global;
use std::process::Abort;
use std::test::Fail;

/// A key with the artifact under it.
#[derive(Debug, Drop)]
struct Kept {
    key: Bytes,
    log: Bytes,
    files: Files,
}

fn key_of(alloc: Global, listing: &Listing, place: usize) -> Result<Bytes, Fail> {
    let part = closure(alloc, listing, place)?;
    Ok(key_text(alloc, &part)?)
}

fn owns_all(outs: &OutSet, files: &Files) -> bool {
    files.as_slice().iter().all(|file| outs.takes(&file.0))
}

/// The last artifact with the whole key whose files the task owns.
fn found<'a>(store: &'a [Kept], key: &Bytes, outs: &OutSet) -> Option<&'a Kept> {
    let mut last = None;
    for kept in store {
        if kept.key.as_slice() == key.as_slice() && owns_all(outs, &kept.files) {
            last = Some(kept);
        }
    }
    last
}

fn mark(alloc: Global, store: &[Kept], listing: &Listing, place: usize) -> Result<Mark, Fail> {
    let key = key_of(alloc, listing, place)?;
    match listing.parts.as_slice().get(place) {
        Some(part) => match found(store, &key, &part.outs) {
            Some(_) => Ok(Mark::Hit),
            None => Ok(Mark::Miss),
        },
        None => Ok(Mark::Bypass),
    }
}

fn marks(alloc: Global, store: &[Kept], listing: &Listing) -> Result<Vec<Mark>, Fail> {
    let mut all = Vec::new(alloc);
    for place in 0..listing.parts.as_slice().len() {
        all.push(mark(alloc, store, listing, place)?)?;
    }
    Ok(all)
}

fn is_good(outcome: &Outcome) -> bool {
    match outcome {
        Outcome::Skipped => false,
        Outcome::Passed => true,
        Outcome::Done(effect) => effect.status == 0,
    }
}

fn keep(
    alloc: Global,
    store: &mut Vec<Kept>,
    listing: &Listing,
    place: usize,
    effect: &Effect,
) -> Result<(), Fail> {
    store.push(Kept {
        key: key_of(alloc, listing, place)?,
        log: effect.log.copy()?,
        files: effect.files.copy()?,
    })?;
    Ok(())
}

/// What a run adds: the artifacts of all tasks whose closures came to good ends.
fn stored(alloc: Global, mode: Mode, rules: &[Rule], listing: &Listing) -> Result<Vec<Kept>, Fail> {
    let outcomes = clean(alloc, mode, rules, listing)?;
    let mut store = Vec::new(alloc);
    for (place, outcome) in outcomes.iter().enumerate() {
        let part = closure(alloc, listing, place)?;
        let all_good = clean(alloc, mode, rules, &part)?.iter().all(is_good);
        match outcome {
            Outcome::Done(effect) if all_good => keep(alloc, &mut store, listing, place, effect)?,
            _ => {}
        }
    }
    Ok(store)
}

fn check_marks(
    rt: &impl Abort,
    alloc: Global,
    store: &[Kept],
    listing: &Listing,
    wanted: [Mark; 2],
) -> Result<(), Fail> {
    let all = marks(alloc, store, listing)?;
    assert_eq!(rt; all.as_slice(), wanted.as_slice());
    Ok(())
}

#[test]
fn nothing_is_stored(rt: HostRuntime) -> Result<(), Fail> {
    let alloc = rt.alloc();
    let listing = two_packages(alloc, "let a;", "let b;")?;
    check_marks(&rt, alloc, &[], &listing, [Mark::Miss, Mark::Miss])
}

#[test]
fn the_same_again(rt: HostRuntime) -> Result<(), Fail> {
    let alloc = rt.alloc();
    let listing = two_packages(alloc, "let a;", "let b;")?;
    let store = stored(alloc, Mode::Never, &copying(alloc, 0)?, &listing)?;
    assert_eq!(rt; store.len(), 2);
    check_marks(&rt, alloc, &store, &listing, [Mark::Hit, Mark::Hit])
}

#[test]
fn another_byte_below(rt: HostRuntime) -> Result<(), Fail> {
    let alloc = rt.alloc();
    let before = two_packages(alloc, "let a;", "let b;")?;
    let store = stored(alloc, Mode::Never, &copying(alloc, 0)?, &before)?;
    let listing = two_packages(alloc, "let c;", "let b;")?;
    check_marks(&rt, alloc, &store, &listing, [Mark::Miss, Mark::Miss])
}

#[test]
fn another_byte_above(rt: HostRuntime) -> Result<(), Fail> {
    let alloc = rt.alloc();
    let before = two_packages(alloc, "let a;", "let b;")?;
    let store = stored(alloc, Mode::Never, &copying(alloc, 0)?, &before)?;
    let listing = two_packages(alloc, "let a;", "let c;")?;
    check_marks(&rt, alloc, &store, &listing, [Mark::Hit, Mark::Miss])
}

// A failure is not kept, and neither is what ran above it.
#[test]
fn a_failure_below(rt: HostRuntime) -> Result<(), Fail> {
    let alloc = rt.alloc();
    let listing = two_packages(alloc, "let a;", "let b;")?;
    for mode in [Mode::Never, Mode::DependenciesSuccessful, Mode::Always] {
        let store = stored(alloc, mode, &copying(alloc, 2)?, &listing)?;
        assert_eq!(rt; store.len(), 0);
    }
    Ok(())
}

// Places in a key are those within the closure, so a task keeps its key where others come before it.
#[test]
fn tasks_beside(rt: HostRuntime) -> Result<(), Fail> {
    let alloc = rt.alloc();
    let before = three_packages(alloc, &[], &[], &[0])?;
    let after = three_packages(alloc, &[], &[0], &[0])?;
    for place in [0, 2] {
        let old = key_of(alloc, &before, place)?;
        assert_eq!(rt; old.as_slice(), key_of(alloc, &after, place)?.as_slice());
    }
    let old = key_of(alloc, &before, 1)?;
    assert!(rt; old.as_slice() != key_of(alloc, &after, 1)?.as_slice());
    Ok(())
}

// An ancestor of an ancestor is in the closure.
#[test]
fn two_edges_away(rt: HostRuntime) -> Result<(), Fail> {
    let alloc = rt.alloc();
    let listing = three_packages(alloc, &[], &[0], &[1])?;
    let part = closure(alloc, &listing, 2)?;
    assert_eq!(rt; part.parts.as_slice().len(), 3);
    let part = closure(alloc, &listing, 1)?;
    assert_eq!(rt; part.parts.as_slice().len(), 2);
    Ok(())
}
