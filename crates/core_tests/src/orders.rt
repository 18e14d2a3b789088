// All orders of ends of small graphs, beside the plain machine.
use crate::play::{Case, Choices, play};
use rel_path::Places;
use run_core::{Mode, State};
use std::alloc::Global;
use std::process::Abort;
use std::test::Fail;

const MODES: [Mode; 3] = [Mode::Never, Mode::DependenciesSuccessful, Mode::Always];

// The graph of so many tasks whose edges to lower tasks are the digits of a number.
fn graph(alloc: Global, count: u32, edges: u32) -> Result<Vec<Places>, Fail> {
    let mut left = edges;
    let mut deps = Vec::new(alloc);
    for t in 0..count {
        let mut list = Places::new(alloc);
        for d in 0..t {
            if left % 2 == 1 {
                list.push(d)?;
            }
            left /= 2;
        }
        deps.push(list)?;
    }
    Ok(deps)
}

fn digits(alloc: Global, count: u32, number: u32) -> Result<Vec<bool>, Fail> {
    let mut left = number;
    let mut digits = Vec::new(alloc);
    for _ in 0..count {
        digits.push(left % 2 == 1)?;
        left /= 2;
    }
    Ok(digits)
}

// Each failing task has a status of its own.
fn statuses(alloc: Global, count: u32, number: u32) -> Result<Vec<u8>, Fail> {
    let mut statuses = Vec::new(alloc);
    let mut status: u8 = 1;
    for fails in digits(alloc, count, number)? {
        statuses.push(if fails { status } else { 0 })?;
        status = status.saturating_add(1);
    }
    Ok(statuses)
}

// Plays a case in all orders of ends. Where no failure stops the run, all orders end in the same states.
fn all_orders(rt: &impl Abort, alloc: Global, case: &Case) -> Result<(), Fail> {
    let mut choices = Choices::new(alloc);
    let mut first: Option<Vec<State>> = None;
    for _ in 0..100_000u32 {
        let Some(states) = play(alloc, case, &mut choices)? else {
            return assert_all(rt);
        };
        if let Some(first) = &first {
            assert!(rt; case.mode == Mode::Never || states.as_slice() == first.as_slice());
        }
        first = Some(states);
        if !choices.advance()? {
            return Ok(());
        }
    }
    assert!(rt; false, "too many orders");
    Ok(())
}

fn assert_all(rt: &impl Abort) -> Result<(), Fail> {
    assert!(rt; false, "the machines differ");
    Ok(())
}

fn all_widths(
    rt: &impl Abort,
    alloc: Global,
    count: u32,
    edges: u32,
    runs: u32,
    fails: u32,
) -> Result<(), Fail> {
    for width in 1..4u32 {
        for mode in MODES {
            let case = Case {
                deps: graph(alloc, count, edges)?,
                runs: digits(alloc, count, runs)?,
                statuses: statuses(alloc, count, fails)?,
                width,
                mode,
            };
            all_orders(rt, alloc, &case)?;
        }
    }
    Ok(())
}

#[test]
fn graphs_of_up_to_three_tasks(rt: HostRuntime) -> Result<(), Fail> {
    for (count, graphs, sets) in [(0u32, 1u32, 1u32), (1, 1, 2), (2, 2, 4), (3, 8, 8)] {
        for edges in 0..graphs {
            for runs in 0..sets {
                for fails in 0..sets {
                    all_widths(&rt, rt.alloc(), count, edges, runs, fails)?;
                }
            }
        }
    }
    Ok(())
}

#[test]
fn graphs_of_four_tasks(rt: HostRuntime) -> Result<(), Fail> {
    for edges in 0..64u32 {
        for fails in 0..16u32 {
            all_widths(&rt, rt.alloc(), 4, edges, 15, fails)?;
        }
    }
    Ok(())
}

#[test]
fn graphs_of_four_tasks_with_hits(rt: HostRuntime) -> Result<(), Fail> {
    for edges in 0..64u32 {
        for runs in 0..15u32 {
            all_widths(&rt, rt.alloc(), 4, edges, runs, 15 - runs)?;
        }
    }
    Ok(())
}
