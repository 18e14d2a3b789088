// The page of a run, as it comes.
ghost use Rattle.std.specs.Prelude.{◌≡◌, ◌+◌, ◌<◌, ◌&&◌, ◌++◌, ℕ, List, length, nat_lt, OnOk, IfErr};
ghost use Rattle.run_core.specs.Core.{states};
ghost use Rattle.run_plan.specs.Openings.{Opening};
ghost use Rattle.run_plan.specs.Pages.{IsCut};
ghost use Rattle.run_plan.specs.Plans.{IsValidPlan};
ghost use Rattle.run_plan.specs.Reports.{report_in, summary_by};
ghost use Rattle.run_plan.specs.Stories.{Now, is_settled};
ghost use Rattle.run_plan.specs.StoryLaws.{Stands};
ghost use Rattle.task_devices.specs.Stops.{faults_of, StopsBy, is_sink_fault};
ghost use Rattle.run_board.specs.Boards.{IsBoard, IsOver, IsUpToDate, ShowsSettled};
ghost use Rattle.run_board.specs.Causes.{cause_of};
ghost use Rattle.run_board.specs.Progress.{PageIs, PageGoesOn, StaysOn, TearsAt, with_board, next_text};

use crate::board::Board;
use run_core::State;
use run_plan::{Plan, story_law};
use std::alloc::Global;
use task_devices::{RunErr, put_text};
use tree_dev::Sink;

// Puts the block of the next task to be shown, if it has one.
fn put_block<K: Sink>(alloc: Global, plan: &Plan, board: &Board, out: &mut K) -> Result<(), RunErr>
    requires plan { IsValidPlan plan.now }
    requires board { IsBoard plan.now board.now }
    requires next { board.now.shown < length plan.now.listing.parts }
    ensures put { K.tells → OnOk result (
        K.written out.new ≡ K.written out.old ++ next_text plan.now board.now) }
    ensures torn { K.tells → IfErr result (λ e. IsCut (is_sink_fault e)
        (next_text plan.now board.now) (K.written out.old) (K.written out.new)) }
    ensures cause { StopsBy (faults_of 0 0 0 (K.faults out.old))
        (faults_of 0 0 0 (K.faults out.new))
        result }
{
    let place = board.shown;
    match board.reports.at(place) {
        None => Ok(()),
        Some(report) => {
            let text = plan.block(alloc, place as u32, report, board.logs.at(place))?;
            put_text(alloc, text.as_slice(), out)?;
            Ok(())
        }
    }
}

/// Shows the next task: its block is put, if it has one, and its log is forgotten.
fn show_one<K: Sink>(
    alloc: Global,
    plan: &Plan,
    board: &mut Board,
    out: &mut K,
) -> Result<(), RunErr>
    requires plan { IsValidPlan plan.now }
    requires board { IsBoard plan.now board.old }
    requires next { board.old.shown < length plan.now.listing.parts }
    ensures board { OnOk result (IsBoard plan.now board.new) }
    ensures core { OnOk result (board.new.core ≡ board.old.core) }
    ensures reports { OnOk result (board.new.reports ≡ board.old.reports) }
    ensures shown { OnOk result (board.new.shown ≡ board.old.shown + 1) }
    ensures stands { OnOk result ((now : Now)
        → StaysOn plan.now (with_board now board.old) (with_board now board.new)) }
    ensures page { K.tells → OnOk result ((now : Now)
        → PageGoesOn plan.now (with_board now board.old) (with_board now board.new)
        (K.written out.old) (K.written out.new)) }
    ensures torn { K.tells → IfErr result (λ e. (now : Now)
        → TearsAt plan.now (with_board now board.old) (cause_of e)
        (K.written out.old) (K.written out.new)) }
    ensures cause { StopsBy (faults_of 0 0 0 (K.faults out.old))
        (faults_of 0 0 0 (K.faults out.new))
        result }
{
    story_law();
    put_block(alloc, plan, board, out)?;
    board.turn_page(plan);
    Ok(())
}

fn is_settled(state: State) -> bool
    ensures { result ≡ is_settled state }
{
    match state {
        State::Passed | State::Ended(_) | State::Left => true,
        State::Waiting | State::Missed | State::Running => false,
    }
}

// Whether the next task to be shown is settled.
fn can_show(plan: &Plan, board: &Board) -> bool
    requires plan { IsValidPlan plan.now }
    requires board { IsBoard plan.now board.now }
    ensures { result ≡ (nat_lt board.now.shown (length plan.now.listing.parts)
        && is_settled (states board.now.core board.now.shown)) }
{
    board.shown < plan.size() && is_settled(board.core.state(board.shown as u32))
}

/// Shows tasks as long as the next one is settled.
pub fn show_settled<K: Sink>(
    alloc: Global,
    plan: &Plan,
    board: &mut Board,
    out: &mut K,
) -> Result<(), RunErr>
    requires plan { IsValidPlan plan.now }
    requires board { IsBoard plan.now board.old }
    requires settled { ShowsSettled board.old }
    ensures current { OnOk result (IsUpToDate plan.now board.new) }
    ensures core { OnOk result (board.new.core ≡ board.old.core) }
    ensures stands { OnOk result ((now : Now)
        → StaysOn plan.now (with_board now board.old) (with_board now board.new)) }
    ensures page { K.tells → OnOk result ((now : Now)
        → PageGoesOn plan.now (with_board now board.old) (with_board now board.new)
        (K.written out.old) (K.written out.new)) }
    ensures torn { K.tells → IfErr result (λ e. (now : Now)
        → TearsAt plan.now (with_board now board.old) (cause_of e)
        (K.written out.old) (K.written out.new)) }
    ensures cause { StopsBy (faults_of 0 0 0 (K.faults out.old))
        (faults_of 0 0 0 (K.faults out.new))
        result }
{
    'settled: while can_show(plan, board) {
        show_one(alloc, plan, board, out)?;
    }
    Ok(())
}

/// Shows all tasks that are left.
fn show_rest<K: Sink>(
    alloc: Global,
    plan: &Plan,
    board: &mut Board,
    out: &mut K,
) -> Result<(), RunErr>
    requires plan { IsValidPlan plan.now }
    requires board { IsBoard plan.now board.old }
    requires over { IsOver plan.now board.old }
    ensures board { OnOk result (IsBoard plan.now board.new) }
    ensures core { OnOk result (board.new.core ≡ board.old.core) }
    ensures reports { OnOk result (board.new.reports ≡ board.old.reports) }
    ensures shown { OnOk result (board.new.shown ≡ length plan.now.listing.parts) }
    ensures stands { OnOk result ((now : Now)
        → StaysOn plan.now (with_board now board.old) (with_board now board.new)) }
    ensures page { K.tells → OnOk result ((now : Now)
        → PageGoesOn plan.now (with_board now board.old) (with_board now board.new)
        (K.written out.old) (K.written out.new)) }
    ensures torn { K.tells → IfErr result (λ e. (now : Now)
        → TearsAt plan.now (with_board now board.old) (cause_of e)
        (K.written out.old) (K.written out.new)) }
    ensures cause { StopsBy (faults_of 0 0 0 (K.faults out.old))
        (faults_of 0 0 0 (K.faults out.new))
        result }
{
    'rest: while board.shown < plan.size() {
        show_one(alloc, plan, board, out)?;
    }
    Ok(())
}

/// Ends the page: the tasks that are left, and the summary.
pub fn conclude<K: Sink>(
    alloc: Global,
    plan: &Plan,
    board: &mut Board,
    out: &mut K,
) -> Result<(), RunErr>
    requires plan { IsValidPlan plan.now }
    requires board { IsBoard plan.now board.old }
    requires over { IsOver plan.now board.old }
    ensures board { OnOk result (IsBoard plan.now board.new) }
    ensures core { OnOk result (board.new.core ≡ board.old.core) }
    ensures reports { OnOk result (board.new.reports ≡ board.old.reports) }
    ensures shown { OnOk result (board.new.shown ≡ length plan.now.listing.parts) }
    ensures page { K.tells → OnOk result ((now : Now) (o : Opening) (before : List ℕ)
        → Stands plan.now o (with_board now board.old)
        → PageIs plan.now o (with_board now board.old) before (K.written out.old)
        → (text : List ℕ) × PageIs plan.now o (with_board now board.new) before text
        × (K.written out.new ≡ text ++ summary_by plan.now (report_in board.new.reports))) }
    ensures torn { K.tells → IfErr result (λ e. (now : Now)
        → TearsAt plan.now (with_board now board.old) (cause_of e)
        (K.written out.old) (K.written out.new)) }
    ensures cause { StopsBy (faults_of 0 0 0 (K.faults out.old))
        (faults_of 0 0 0 (K.faults out.new))
        result }
{
    story_law();
    show_rest(alloc, plan, board, out)?;
    let summary = plan.summary(alloc, &board.reports)?;
    put_text(alloc, summary.as_slice(), out)?;
    Ok(())
}
