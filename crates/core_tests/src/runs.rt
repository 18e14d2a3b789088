// Worked runs: what is looked up, started and ended, where the command that was started with the least place ends first.
use crate::play::{Case, Choices, play};
use rel_path::Places;
use run_core::{Mode, State};
use std::alloc::Global;
use std::process::Abort;
use std::test::Fail;

fn lists(alloc: Global, deps: &[&[u32]]) -> Result<Vec<Places>, Fail> {
    let mut lists = Vec::new(alloc);
    for places in deps {
        lists.push(Places::from_vec(places.to_vec(alloc)?))?;
    }
    Ok(lists)
}

/// The moves of a run and the states at its end. All tasks have a command that is to run, but those of status 255, which
/// are hits.
fn check(
    rt: &impl Abort,
    alloc: Global,
    deps: &[&[u32]],
    statuses: &[u8],
    width: u32,
    mode: Mode,
    moves: &str,
    states: &[State],
) -> Result<(), Fail> {
    let mut runs = Vec::new(alloc);
    for status in statuses {
        runs.push(*status != 255)?;
    }
    let case = Case {
        deps: lists(alloc, deps)?,
        runs,
        statuses: statuses.to_vec(alloc)?,
        width,
        mode,
    };
    let mut choices = Choices::new(alloc);
    let Some(found) = play(alloc, &case, &mut choices)? else {
        assert!(rt; false, "the machines differ");
        return Ok(());
    };
    assert_eq!(rt; choices.trace.as_str(), moves);
    assert_eq!(rt; found.as_slice(), states);
    Ok(())
}

const GOOD: State = State::Ended(0);

#[test]
fn four_commands_at_once(rt: HostRuntime) -> Result<(), Fail> {
    check(
        &rt,
        rt.alloc(),
        &[&[], &[], &[], &[], &[]],
        &[0, 0, 0, 0, 0],
        4,
        Mode::Never,
        "?0 ?1 ?2 ?3 ?4 +0 +1 +2 +3 -0 +4 -1 -2 -3 -4 ",
        &[GOOD, GOOD, GOOD, GOOD, GOOD],
    )
}

#[test]
fn one_command_at_once(rt: HostRuntime) -> Result<(), Fail> {
    check(
        &rt,
        rt.alloc(),
        &[&[], &[0], &[], &[1, 2]],
        &[0, 0, 0, 0],
        1,
        Mode::Never,
        "?0 ?2 +0 -0 ?1 +1 -1 +2 -2 ?3 +3 -3 ",
        &[GOOD, GOOD, GOOD, GOOD],
    )
}

// What waits for a hit is looked up before anything is started.
#[test]
fn hits_pass_at_once(rt: HostRuntime) -> Result<(), Fail> {
    check(
        &rt,
        rt.alloc(),
        &[&[], &[0], &[1], &[]],
        &[255, 255, 0, 0],
        2,
        Mode::Never,
        "=0 =1 ?2 ?3 +2 +3 -2 -3 ",
        &[State::Passed, State::Passed, GOOD, GOOD],
    )
}

// After a failure nothing is started, but what runs is waited for.
#[test]
fn never_goes_on(rt: HostRuntime) -> Result<(), Fail> {
    check(
        &rt,
        rt.alloc(),
        &[&[], &[], &[], &[0], &[1]],
        &[7, 0, 0, 0, 0],
        2,
        Mode::Never,
        "?0 ?1 ?2 +0 +1 -0 -1 ",
        &[
            State::Ended(7),
            GOOD,
            State::Missed,
            State::Left,
            State::Waiting,
        ],
    )
}

// Only what depends on the failure is left.
#[test]
fn others_go_on(rt: HostRuntime) -> Result<(), Fail> {
    check(
        &rt,
        rt.alloc(),
        &[&[], &[], &[0], &[1], &[2, 3], &[3]],
        &[1, 0, 0, 0, 0, 0],
        2,
        Mode::DependenciesSuccessful,
        "?0 ?1 +0 +1 -0 -1 ?3 +3 -3 ?5 +5 -5 ",
        &[State::Ended(1), GOOD, State::Left, GOOD, State::Left, GOOD],
    )
}

// A failure stops nothing.
#[test]
fn all_go_on(rt: HostRuntime) -> Result<(), Fail> {
    check(
        &rt,
        rt.alloc(),
        &[&[], &[0], &[1, 1, 0]],
        &[2, 3, 255],
        3,
        Mode::Always,
        "?0 +0 -0 ?1 +1 -1 =2 ",
        &[State::Ended(2), State::Ended(3), State::Passed],
    )
}
