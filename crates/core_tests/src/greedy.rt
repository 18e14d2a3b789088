// A run whose steps are proved greedy.
ghost use Rattle.std.specs.Prelude.{◌≡◌, ◌<◌, [], true, false, slice_index_or, IfOk, IfSome};
ghost use Rattle.run_core.specs.Greedy.{AreLower, IsGreedy};
ghost use Rattle.run_core.specs.Machine.{next as next_of};
ghost use Rattle.run_core.specs.Moves.{IsAt};
ghost use Rattle.run_core.specs.Core.{rules, states, has_command, Keeps};
ghost use Rattle.core_tests.specs.Tasks.{tasks};

use rel_path::Places;
use run_core::{Core, Mode, Next, State, Step, is_topological};
use std::test::Fail;

fn first_running(core: &Core, count: u32) -> Option<u32>
    requires { (rules core.now).size ≡ count }
    ensures below { IfSome result (λ t. t < count) }
    ensures running { IfSome result (λ t. states core.now t ≡ State.Running) }
{
    for t in 0..count {
        if let State::Running = core.state(t) {
            return Some(t);
        }
    }
    None
}

fn status_of(statuses: &[u8], t: u32) -> u8 {
    statuses.get(t as usize).copied().unwrap_or(0)
}

/// One move, with its step; whether the run goes on.
fn advance(
    core: &mut Core,
    runs: &[bool],
    statuses: &[u8],
    count: u32,
    steps: &mut Vec<Step>,
) -> Result<bool, Fail>
    requires size { (rules core.old).size ≡ count }
    requires commands { has_command core.old ≡ (λ t. slice_index_or runs.now t false) }
    requires at { IsAt (tasks core.old) (states core.old) steps.old.items }
    ensures kept { Keeps core.old core.new }
    ensures at { IfOk result (λ more. IsAt (tasks core.old) (states core.new) steps.new.items) }
    ensures over { IfOk result (λ more. more ≡ false → next_of (rules core.new) (states core.new) ≡ Next.Finished) }
{
    match core.next() {
        Next::Lookup(t) => {
            if crate::play::has(runs, t) {
                core.missed(t);
            } else {
                core.found(t);
            }
            Ok(true)
        }
        Next::Start(t) => {
            core.started(t);
            steps.push(Step::Start(t))?;
            Ok(true)
        }
        Next::WaitFirst => match first_running(core, count) {
            Some(t) => {
                let status = status_of(statuses, t);
                core.ended(t, status);
                steps.push(Step::End(t, status))?;
                Ok(true)
            }
            None => Ok(true),
        },
        Next::Finished => Ok(false),
    }
}

/// A run in which the least running command ends first, of at most a hundred moves: whether it came to its end.
fn run_all(
    core: &mut Core,
    runs: &[bool],
    statuses: &[u8],
    count: u32,
    steps: &mut Vec<Step>,
) -> Result<bool, Fail>
    requires size { (rules core.old).size ≡ count }
    requires commands { has_command core.old ≡ (λ t. slice_index_or runs.now t false) }
    requires order { AreLower (rules core.old) }
    requires at { IsAt (tasks core.old) (states core.old) steps.old.items }
    ensures { IfOk result (λ over. over ≡ true → IsGreedy (tasks core.old) steps.new.items) }
{
    for _ in 0..100u32 {
        if !advance(core, runs, statuses, count, steps)? {
            return Ok(true);
        }
    }
    Ok(false)
}

#[test]
fn a_diamond_is_greedy(rt: HostRuntime) -> Result<(), Fail> {
    let alloc = rt.alloc();
    let mut deps = Vec::new(alloc);
    for list in [
        [].as_slice(),
        [0].as_slice(),
        [0].as_slice(),
        [1, 2].as_slice(),
    ] {
        deps.push(Places::from_vec(list.to_vec(alloc)?))?;
    }
    let runs = [true, true, true, true];
    assert!(rt; is_topological(&deps));
    assert_eq!(rt; deps.len(), 4);
    let mut core = Core::new(alloc, &deps, &runs, 2, Mode::Never)?;
    let mut steps = Vec::new(alloc);
    let over = run_all(&mut core, &runs, &[0, 0, 0, 0], 4, &mut steps)?;
    assert!(rt; over);
    let wanted = [
        Step::Start(0),
        Step::End(0, 0),
        Step::Start(1),
        Step::Start(2),
        Step::End(1, 0),
        Step::End(2, 0),
        Step::Start(3),
        Step::End(3, 0),
    ];
    assert_eq!(rt; steps.as_slice(), wanted.as_slice());
    Ok(())
}
