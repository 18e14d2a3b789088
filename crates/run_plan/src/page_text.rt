// The page of a run, by its reports.
ghost use Rattle.std.specs.Prelude.{◌≡◌, ◌++◌, ◌∷◌, [], ◌<◌, length, IfOk, OnOk};
ghost use Rattle.std.specs.Option.{option_map};
ghost use Rattle.run_plan.specs.Memory.{OnlyMemory};
ghost use Rattle.run_plan.specs.Plans.{IsValidPlan};
ghost use Rattle.run_plan.specs.Pages.{block_of, script_count};
ghost use Rattle.run_plan.specs.Reports.{report_in, failed, failed_by, summary_by};

use crate::reports::Reports;
use crate::tables::runs;
use crate::{Plan, PlanErr, Report};
use rel_path::Bytes;
use std::alloc::Global;
use turbo_config::{TaskId, TaskIds};

// A copy of the task.
fn copy_of(id: &TaskId) -> Result<TaskId, PlanErr>
    ensures value { IfOk result (λ copy. copy ≡ id.now) }
    ensures memory { OnlyMemory result }
{
    Ok(TaskId {
        package: id.package.copy()?,
        task: id.task.copy()?,
    })
}

/// Adds a copy of the task.
pub(crate) fn push_task(tasks: &mut TaskIds, id: &TaskId) -> Result<(), PlanErr>
    ensures pushed { OnOk result (tasks.new ≡ tasks.old ++ id.now ∷ []) }
    ensures memory { OnlyMemory result }
{
    let copy = copy_of(id)?;
    match tasks.push(copy) {
        Ok(()) => Ok(()),
        Err(_) => Err(PlanErr::OutOfMemory),
    }
}

fn has_failed(report: Option<&Report>) -> bool
    ensures { result ≡ failed (option_map (λ r. r.now) report.entry) }
{
    match report {
        Some(report) => report.status != 0,
        None => false,
    }
}

impl Plan {
    /// The lines of a task with this report and log.
    pub fn block(
        &self,
        alloc: Global,
        place: u32,
        report: &Report,
        log: &[u8],
    ) -> Result<Bytes, PlanErr>
        requires { place < length self.now.ids }
        ensures text { IfOk result (λ bytes. bytes ≡ block_of self.now place report.now log.now) }
        ensures memory { OnlyMemory result }
    {
        let id = self.id(place);
        let mode = self.log_mode(place);
        Ok(page::block(
            alloc,
            id,
            report.mark,
            &report.digits,
            log,
            report.status,
            &report.note,
            mode,
        )?)
    }

    // How many tasks have a script.
    fn script_count(&self) -> u32
        requires { IsValidPlan self.now }
        ensures { result ≡ script_count self.now }
    {
        let mut count = 0;
        for part in self.listing.parts.as_slice() {
            if runs(part) {
                count += 1;
            }
        }
        count
    }

    // The tasks that failed, in the order of the plan.
    fn failed(&self, alloc: Global, reports: &Reports) -> Result<TaskIds, PlanErr>
        requires { IsValidPlan self.now }
        ensures tasks { IfOk result
            (λ tasks. tasks ≡ failed_by self.now (report_in reports.now)
            (length self.now.listing.parts)) }
        ensures memory { OnlyMemory result }
    {
        let mut tasks = TaskIds::new(alloc);
        for place in 0..self.size() {
            if has_failed(reports.at(place)) {
                push_task(&mut tasks, self.id(place as u32))?;
            }
        }
        Ok(tasks)
    }

    /// The summary of a run with these reports.
    #[tactic(auto, unfolding(crate::specs::Reports::summary_by))]
    pub fn summary(&self, alloc: Global, reports: &Reports) -> Result<Bytes, PlanErr>
        requires plan { IsValidPlan self.now }
        requires size { length reports.now ≡ length self.now.listing.parts }
        ensures text { IfOk result (λ bytes. bytes ≡ summary_by self.now (report_in reports.now)) }
        ensures memory { OnlyMemory result }
    {
        let failed = self.failed(alloc, reports)?;
        let total = self.script_count();
        Ok(page::summary(alloc, reports.good(), reports.cached(), total, &failed)?)
    }
}
