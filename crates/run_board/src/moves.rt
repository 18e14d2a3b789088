// How the tables of a run change.
ghost use Rattle.std.specs.Prelude.{◌≡◌, ◌<◌, ◌+◌, ◌==◌, ◌&&◌, [], true, length, Some, None, IfOk};
ghost use Rattle.std.specs.List.{list_all};
ghost use Rattle.page.specs.declared.blocks.Mark.TheVariants as printed_mark;
ghost use Rattle.page.specs.declared.blocks.Note.TheVariants as printed_note;
ghost use Rattle.spawn_dev.specs.Spawn.{put_at};
ghost use Rattle.run_core.specs.Core.{rules, states, has_command};
ghost use Rattle.run_core.specs.Machine.{next, put, after_end, IsCalm};
ghost use Rattle.run_laws.specs.Ancestors.{part_at, has_script};
ghost use Rattle.run_plan.specs.Plans.{IsValidPlan};
ghost use Rattle.run_plan.specs.Openings.{rules_of};
ghost use Rattle.run_plan.specs.Reports.{report_in};
ghost use Rattle.task_devices.specs.Stops.{OnlyMemory};
ghost use Rattle.run_board.specs.Boards.{IsBoard, IsKnown, IsMove};
ghost use Rattle.run_board.specs.Tables.{log_in, flag_in};

use crate::board::Board;
use crate::tables::{Fingerprints, Flags, Logs};
use page::{Mark, Note};
use rel_path::{Bytes, Text};
use run_core::{Core, Next, State};
use run_plan::{Plan, Report, Reports};
use spawn_dev::Ended;
use std::alloc::Global;
use task_devices::RunErr;

fn core_of(alloc: Global, plan: &Plan) -> Result<Core, RunErr>
    requires { IsValidPlan plan.now }
    ensures rules { IfOk result (λ core. rules core ≡ rules_of plan.now) }
    ensures commands { IfOk result (λ core.
        has_command core ≡ (λ t. has_script (part_at plan.now.listing t))) }
    ensures states { IfOk result (λ core. states core ≡ (λ t. State.Waiting)) }
    ensures memory { OnlyMemory result }
{
    let deps = plan.deps(alloc)?;
    let scripts = plan.scripts(alloc)?;
    Ok(Core::new(
        alloc,
        deps.as_slice(),
        scripts.as_slice(),
        plan.width,
        plan.mode,
    )?)
}

impl Board {
    /// A board of which all tasks wait.
    pub fn new(alloc: Global, plan: &Plan) -> Result<Board, RunErr>
        requires { IsValidPlan plan.now }
        ensures board { IfOk result (IsBoard plan.now) }
        ensures states { IfOk result (λ board. states board.core ≡ (λ t. State.Waiting)) }
        ensures reports { IfOk result (λ board. report_in board.reports ≡ (λ t. None)) }
        ensures shown { IfOk result (λ board. board.shown ≡ 0) }
        ensures memory { OnlyMemory result }
    {
        let core = core_of(alloc, plan)?;
        let size = plan.size();
        Ok(Board {
            core,
            reports: Reports::new(alloc, size)?,
            logs: Logs::new(alloc, size)?,
            good: Flags::new(alloc, size)?,
            fingerprints: Fingerprints::new(alloc, size)?,
            shown: 0,
            ahead: 0,
        })
    }

    /// Whether all ancestors of a task came to a good end.
    pub fn sound(&self, plan: &Plan, place: u32) -> bool
        requires place { place < length plan.now.listing.parts }
        ensures { result ≡ list_all (flag_in self.now.good) (part_at plan.now.listing place).deps }
    {
        let deps = plan.part(place).deps.as_slice();
        deps.iter().all(|dep| self.good.at(*dep as usize))
    }

    /// Takes a task without a script.
    pub fn pass(&mut self, plan: &Plan, place: u32)
        requires plan { IsValidPlan plan.now }
        requires place { place < length plan.now.listing.parts }
        requires board { IsBoard plan.now self.old }
        requires next { next (rules self.old.core) (states self.old.core) ≡ Next.Lookup place }
        ensures moved { IsMove plan.now self.old self.new }
        ensures states { states self.new.core ≡ put (states self.old.core) place State.Passed }
        ensures reports { report_in self.new.reports ≡ report_in self.old.reports }
        ensures logs { log_in self.new.logs ≡ log_in self.old.logs }
        ensures shown { self.new.shown ≡ self.old.shown }
    {
        let sound = self.sound(plan, place);
        self.good.set(place as usize, sound);
        self.core.found(place);
    }

    /// Takes a task that is to run, with the fingerprint of its key where that was made.
    pub fn miss(&mut self, plan: &Plan, place: u32, fingerprint: Option<[u8; 32]>)
        requires plan { IsValidPlan plan.now }
        requires place { place < length plan.now.listing.parts }
        requires board { IsBoard plan.now self.old }
        requires next { next (rules self.old.core) (states self.old.core) ≡ Next.Lookup place }
        requires script { has_script (part_at plan.now.listing place) ≡ true }
        requires known { IsKnown plan.now place fingerprint }
        ensures moved { IsMove plan.now self.old self.new }
        ensures states { states self.new.core ≡ put (states self.old.core) place State.Missed }
        ensures reports { report_in self.new.reports ≡ report_in self.old.reports }
        ensures logs { log_in self.new.logs ≡ log_in self.old.logs }
        ensures shown { self.new.shown ≡ self.old.shown }
    {
        self.fingerprints.set(place as usize, fingerprint);
        self.core.missed(place);
    }

    /// Takes a task that was found in the cache, with the digits of its fingerprint and its log.
    pub fn hit(&mut self, plan: &Plan, place: u32, digits: Text, log: Bytes)
        requires plan { IsValidPlan plan.now }
        requires place { place < length plan.now.listing.parts }
        requires board { IsBoard plan.now self.old }
        requires next { next (rules self.old.core) (states self.old.core) ≡ Next.Lookup place }
        ensures moved { IsMove plan.now self.old self.new }
        ensures states { states self.new.core ≡ put (states self.old.core) place State.Passed }
        ensures reports { report_in self.new.reports ≡ put_at (report_in self.old.reports) place
            (Some (record {
              mark = printed_mark.Hit;
              digits = digits;
              status = 0;
              note = printed_note.Stored;
            })) }
        ensures logs { log_in self.new.logs ≡ put_at (log_in self.old.logs) place log }
        ensures shown { self.new.shown ≡ self.old.shown }
    {
        let sound = self.sound(plan, place);
        let report = Report {
            mark: Mark::Hit,
            digits,
            status: 0,
            note: Note::Stored,
        };
        self.reports.set(place as usize, report);
        self.logs.set(place as usize, log);
        self.good.set(place as usize, sound);
        self.core.found(place);
    }

    /// Takes the start of a task's command.
    pub fn begin(&mut self, plan: &Plan, place: u32)
        requires plan { IsValidPlan plan.now }
        requires board { IsBoard plan.now self.old }
        requires next { next (rules self.old.core) (states self.old.core) ≡ Next.Start place }
        ensures moved { IsMove plan.now self.old self.new }
        ensures states { states self.new.core ≡ put (states self.old.core) place State.Running }
        ensures reports { report_in self.new.reports ≡ report_in self.old.reports }
        ensures logs { log_in self.new.logs ≡ log_in self.old.logs }
        ensures shown { self.new.shown ≡ self.old.shown }
    {
        self.core.started(place);
    }

    /// Takes the end of a task's command, with whether its ancestors came to a good end, and what
    /// is to be said of it.
    pub fn end(&mut self, plan: &Plan, ended: Ended, sound: bool, report: Report)
        requires plan { IsValidPlan plan.now }
        requires place { ended.place < length plan.now.listing.parts }
        requires board { IsBoard plan.now self.old }
        requires calm { IsCalm (rules_of plan.now) (states self.old.core) }
        requires next { next (rules self.old.core) (states self.old.core) ≡ Next.WaitFirst }
        requires running { states self.old.core ended.place ≡ State.Running }
        requires sound { sound
            ≡ list_all (flag_in self.old.good) (part_at plan.now.listing ended.place).deps }
        ensures moved { IsMove plan.now self.old self.new }
        ensures states { states self.new.core
            ≡ after_end (rules_of plan.now) (states self.old.core) ended.place ended.status }
        ensures reports { report_in self.new.reports
            ≡ put_at (report_in self.old.reports) ended.place (Some report) }
        ensures logs { log_in self.new.logs ≡ put_at (log_in self.old.logs) ended.place ended.log }
        ensures shown { self.new.shown ≡ self.old.shown }
    {
        let place = ended.place as usize;
        self.reports.set(place, report);
        self.good.set(place, both(ended.status == 0, sound));
        self.core.ended(ended.place, ended.status);
        self.logs.set(place, ended.log);
    }
}

impl Board {
    /// Goes on to the next task to be shown. The log of this one is forgotten.
    pub fn turn_page(&mut self, plan: &Plan)
        requires plan { IsValidPlan plan.now }
        requires board { IsBoard plan.now self.old }
        requires next { self.old.shown < length plan.now.listing.parts }
        ensures board { IsBoard plan.now self.new }
        ensures core { self.new.core ≡ self.old.core }
        ensures reports { self.new.reports ≡ self.old.reports }
        ensures logs { log_in self.new.logs ≡ put_at (log_in self.old.logs) self.old.shown [] }
        ensures shown { self.new.shown ≡ self.old.shown + 1 }
    {
        self.logs.clear(self.shown);
        self.shown += 1;
    }
}

fn both(left: bool, right: bool) -> bool
    ensures { result ≡ (left && right) }
{
    left && right
}
