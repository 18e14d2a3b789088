// The ends of commands.
ghost use Rattle.std.specs.Prelude.{◌≡◌, ◌<◌, List, ℕ, length, Some, true, false, IsTrue, IfOk, IfErr, OnOk, OnErr, if◌then◌else◌};
ghost use Rattle.sha2.specs.Sha256.{sha256};
ghost use Rattle.rel_path.specs.Paths.{Path};
ghost use Rattle.cache_api.specs.Cache.{AllLast};
ghost use Rattle.cache_api.specs.Keys as keys;
ghost use Rattle.cache_api.specs.Moments.{Leaves};
ghost use Rattle.capture.specs.Owned.{declares};
ghost use Rattle.page.specs.declared.blocks.Mark.TheVariants as printed_mark;
ghost use Rattle.run_core.specs.Core.{rules, states};
ghost use Rattle.run_core.specs.Machine.{next, IsCalm};
ghost use Rattle.run_laws.specs.Ancestors.{part_at};
ghost use Rattle.run_laws.specs.Plans.{log_path};
ghost use Rattle.run_plan.specs.Openings.{Opening, rules_of};
ghost use Rattle.run_plan.specs.Pages.{digits_of};
ghost use Rattle.run_plan.specs.Plans.{IsValidPlan, bypasses};
ghost use Rattle.run_plan.specs.StoryLaws.{Stands};
ghost use Rattle.task_devices.specs.Devices.{OnlyAt};
ghost use Rattle.task_devices.specs.Keeping.{AreFirstOf, IsPartOf};
ghost use Rattle.task_devices.specs.Stops.{StopsBy};
ghost use Rattle.runner.specs.Answers.{LeavesSafe, NoneLost, faults_in};
ghost use Rattle.run_board.specs.Boards.{IsBoard, IsKnown, IsMove};
ghost use Rattle.runner.specs.Costs.{Spends, SpendsAtMost};
ghost use Rattle.runner.specs.Ends.{IsKeptOf, MayBeKeptOf, with_log};
ghost use Rattle.runner.specs.Halting.{CacheGoes, HaltsFrom, WorldGoes};
ghost use Rattle.run_board.specs.Progress.{StaysOn, now_of};
ghost use Rattle.runner.specs.Running.{InStep};

use crate::hashing::hash_while_running;
use crate::settling::settle_before_wait;
use cache_api::{Cache, OwnKey};
use page::Mark;
use rel_path::Bytes;
use run_board::Board;
use run_core::Next;
use run_plan::{Plan, Report, digits, halt_law, story_law};
use spawn_dev::{Ended, Spawner};
use std::alloc::Global;
use task_devices::{RunErr, keep, keep_log, wait};

// The key of a text whose fingerprint may be known.
fn key_with(text: Bytes, known: Option<[u8; 32]>) -> OwnKey
    requires { (print : List ℕ) → known ≡ Some print → print ≡ sha256 text }
    ensures { keys.own_text result ≡ text }
{
    match known {
        Some(fingerprint) => OwnKey::with_print(text, fingerprint),
        None => OwnKey::new(text),
    }
}

fn mark_of(bypassed: bool) -> Mark
    ensures { result ≡ (if bypassed then printed_mark.Bypass else printed_mark.Miss) }
{
    if bypassed { Mark::Bypass } else { Mark::Miss }
}

// Writes the log file of an end, keeps its result where it is to be put, and answers what is to be
// said of it.
fn report_end<W: Spawner, C: Cache>(
    alloc: Global,
    plan: &Plan,
    ended: &Ended,
    sound: bool,
    known: Option<[u8; 32]>,
    world: &mut W,
    cache: &mut C,
) -> Result<Report, RunErr>
    requires plan { IsValidPlan plan.now }
    requires place { ended.now.place < length plan.now.listing.parts }
    requires known { IsKnown plan.now ended.now.place known }
    requires whole { IsTrue (C.state cache.old).whole }
    requires log_free { (W.state world.old).held
        (log_path (part_at plan.now.listing ended.now.place)) ≡ false }
    requires free { (path : Path)
        → declares (part_at plan.now.listing ended.now.place).outs path ≡ true
        → (W.state world.old).held path ≡ false }
    ensures runs { W.runs world.new ≡ W.runs world.old }
    ensures others { W.tells
        → OnlyAt plan.now ended.now.place (W.state world.old).files (W.state world.new).files }
    ensures logged { W.tells → OnOk result ((W.state world.new).files
        ≡ with_log plan.now ended.now (W.state world.old).files) }
    ensures report { IfOk result (λ report. report ≡ record {
      mark = (if bypasses plan.now ended.now.place then printed_mark.Bypass else printed_mark.Miss);
      digits = digits_of plan.now ended.now.place;
      status = ended.now.status;
      note = report.note;
    }) }
    ensures kept { W.tells → C.tells → IfOk result (λ report. IsKeptOf plan.now ended.now sound
        (W.state world.old).files (C.state cache.old).pairs
        (C.state cache.new).room (C.state cache.new).pairs report.note) }
    ensures failed { W.tells → C.tells → OnErr result (AreFirstOf (C.state cache.old).lasting
        (MayBeKeptOf plan.now ended.now sound (W.state world.old).files
        (C.state cache.old).pairs) (C.state cache.new).pairs) }
    // whatever it answers
    ensures left { W.tells → C.tells → Leaves C.moment C.left cache.old cache.new (λ image.
        IsPartOf (C.state cache.old).lasting
        (MayBeKeptOf plan.now ended.now sound (W.state world.old).files (C.state cache.old).pairs)
        (C.says (C.state cache.old).base image)) }
    ensures cache { CacheGoes C.tells C.state C.moment C.left C.says cache.old cache.new }
    ensures whole { OnOk result (IsTrue (C.state cache.new).whole) }
    ensures cause { StopsBy
        (faults_in (W.state world.old) (C.state cache.old) (W.runs world.old) 0)
        (faults_in (W.state world.new) (C.state cache.new) (W.runs world.new) 0)
        result }
{
    keep_log(alloc, plan, ended.place, ended.log.as_slice(), world)?;
    let text = plan.key(alloc, ended.place)?;
    let key = key_with(text, known);
    let digits = digits(alloc, key.as_key().print())?;
    let note = keep(alloc, plan, ended, sound, key, world, cache)?;
    Ok(Report {
        mark: mark_of(plan.bypasses(ended.place)),
        digits,
        status: ended.status,
        note,
    })
}

// Waits for the end of a command, writes its log file, and keeps its result.
fn finish<W: Spawner, C: Cache>(
    alloc: Global,
    plan: &Plan,
    board: &mut Board,
    world: &mut W,
    cache: &mut C,
) -> Result<(), RunErr>
    requires plan { IsValidPlan plan.now }
    requires board { IsBoard plan.now board.old }
    requires steps { InStep plan.now (states board.old.core) (W.runs world.old) }
    requires whole { IsTrue (C.state cache.old).whole }
    requires calm { IsCalm (rules_of plan.now) (states board.old.core) }
    requires next { next (rules board.old.core) (states board.old.core) ≡ Next.WaitFirst }
    ensures moved { OnOk result (IsMove plan.now board.old board.new) }
    ensures steps { OnOk result (InStep plan.now (states board.new.core) (W.runs world.new)) }
    ensures whole { OnOk result (IsTrue (C.state cache.new).whole) }
    ensures world { WorldGoes W.tells plan.now (W.runs world.old) (W.runs world.new)
        (W.state world.old) (W.state world.new) }
    ensures cache { CacheGoes C.tells C.state C.moment C.left C.says cache.old cache.new }
    ensures stands { W.tells → C.tells → OnOk result (StaysOn plan.now
        (now_of board.old W.effect (W.runs world.old) (W.state world.old) (C.state cache.old))
        (now_of board.new W.effect (W.runs world.new) (W.state world.new) (C.state cache.new))) }
    ensures halts { W.tells → C.tells → IfErr result (λ e. HaltsFrom plan.now
        (now_of board.old W.effect (W.runs world.old) (W.state world.old) (C.state cache.old))
        (W.runs world.new) (W.state world.new).files (C.state cache.new).pairs
        (C.state cache.new).lasting (C.state cache.new).room
        (NoneLost e (C.state cache.old).faults (C.state cache.new).faults)) }
    ensures left { W.tells → C.tells → (o : Opening) → Stands plan.now o
        (now_of board.old W.effect (W.runs world.old) (W.state world.old) (C.state cache.old))
        → LeavesSafe C.state C.moment C.left C.says plan.now o (W.runs world.new).steps
        cache.old cache.new }
    ensures stays { W.tells → C.tells → (W.runs world.new).steps ≡ (W.runs world.old).steps
        → AllLast (C.state cache.old) → AllLast (C.state cache.new) }
    ensures spends { W.tells → C.tells → (W.runs world.new).steps ≡ (W.runs world.old).steps
        → AllLast (C.state cache.old)
        → OnOk result (Spends plan.now C.state C.cost (states board.old.core)
        (states board.new.core) cache.old cache.new) }
    ensures spent { W.tells → C.tells → (W.runs world.new).steps ≡ (W.runs world.old).steps
        → AllLast (C.state cache.old)
        → SpendsAtMost plan.now C.state C.cost (states board.old.core) cache.old cache.new }
    ensures cause { StopsBy
        (faults_in (W.state world.old) (C.state cache.old) (W.runs world.old) 0)
        (faults_in (W.state world.new) (C.state cache.new) (W.runs world.new) 0)
        result }
{
    story_law();
    halt_law();
    let ended = wait(alloc, world)?;
    let sound = board.sound(plan, ended.place);
    let known = board.fingerprints.at(ended.place as usize);
    let report = report_end(alloc, plan, &ended, sound, known, world, cache)?;
    board.end(plan, ended, sound, report);
    Ok(())
}

/// Waits for the end of a command, writes its log file, and keeps its result. Where no command has
/// ended yet, what is due is put before, and then keys are hashed that will be asked for.
pub fn wait_first<W: Spawner, C: Cache>(
    alloc: Global,
    plan: &Plan,
    board: &mut Board,
    world: &mut W,
    cache: &mut C,
) -> Result<(), RunErr>
    requires plan { IsValidPlan plan.now }
    requires board { IsBoard plan.now board.old }
    requires steps { InStep plan.now (states board.old.core) (W.runs world.old) }
    requires whole { IsTrue (C.state cache.old).whole }
    requires calm { IsCalm (rules_of plan.now) (states board.old.core) }
    requires next { next (rules board.old.core) (states board.old.core) ≡ Next.WaitFirst }
    ensures moved { OnOk result (IsMove plan.now board.old board.new) }
    ensures steps { OnOk result (InStep plan.now (states board.new.core) (W.runs world.new)) }
    ensures whole { OnOk result (IsTrue (C.state cache.new).whole) }
    ensures world { WorldGoes W.tells plan.now (W.runs world.old) (W.runs world.new)
        (W.state world.old) (W.state world.new) }
    ensures cache { CacheGoes C.tells C.state C.moment C.left C.says cache.old cache.new }
    ensures stands { W.tells → C.tells → OnOk result (StaysOn plan.now
        (now_of board.old W.effect (W.runs world.old) (W.state world.old) (C.state cache.old))
        (now_of board.new W.effect (W.runs world.new) (W.state world.new) (C.state cache.new))) }
    ensures halts { W.tells → C.tells → IfErr result (λ e. HaltsFrom plan.now
        (now_of board.old W.effect (W.runs world.old) (W.state world.old) (C.state cache.old))
        (W.runs world.new) (W.state world.new).files (C.state cache.new).pairs
        (C.state cache.new).lasting (C.state cache.new).room
        (NoneLost e (C.state cache.old).faults (C.state cache.new).faults)) }
    ensures left { W.tells → C.tells → (o : Opening) → Stands plan.now o
        (now_of board.old W.effect (W.runs world.old) (W.state world.old) (C.state cache.old))
        → LeavesSafe C.state C.moment C.left C.says plan.now o (W.runs world.new).steps
        cache.old cache.new }
    ensures stays { W.tells → C.tells → (W.runs world.new).steps ≡ (W.runs world.old).steps
        → AllLast (C.state cache.old) → AllLast (C.state cache.new) }
    ensures spends { W.tells → C.tells → (W.runs world.new).steps ≡ (W.runs world.old).steps
        → AllLast (C.state cache.old)
        → OnOk result (Spends plan.now C.state C.cost (states board.old.core)
        (states board.new.core) cache.old cache.new) }
    ensures spent { W.tells → C.tells → (W.runs world.new).steps ≡ (W.runs world.old).steps
        → AllLast (C.state cache.old)
        → SpendsAtMost plan.now C.state C.cost (states board.old.core) cache.old cache.new }
    ensures cause { StopsBy
        (faults_in (W.state world.old) (C.state cache.old) (W.runs world.old) 0)
        (faults_in (W.state world.new) (C.state cache.new) (W.runs world.new) 0)
        result }
{
    story_law();
    halt_law();
    settle_before_wait(alloc, world, cache)?;
    hash_while_running(alloc, plan, board, world)?;
    finish(alloc, plan, board, world, cache)
}
