// What is to be said of each task of a plan.
ghost use Rattle.std.specs.Prelude.{◌≡◌, ◌<◌, ◌^◌, length, IfOk, None, Some};
ghost use Rattle.std.specs.Option.{option_map};
ghost use Rattle.run_core.specs.Greedy.{count_below};
ghost use Rattle.spawn_dev.specs.Spawn.{put_at};
ghost use Rattle.run_plan.specs.Memory.{OnlyMemory};
ghost use Rattle.run_plan.specs.Reports.{report_in, succeeded, was_cached, worst_by};

use crate::report::{status_of, succeeded, was_cached};
use crate::{PlanErr, Report};
use std::alloc::Global;
use std::marker::Model;

/// A table with room for a report of each task.
#[derive(Debug, Drop)]
pub struct Reports {
    items: Vec<Option<Report>>,
}

impl Model for Reports {
    ghost use Rattle.std.specs.Prelude.{List, Option};
    ghost use Rattle.run_plan.specs.declared.report.Report.{Report};

    ghost Value = { List (Option Report) };

    ghost view = { λ t. t.items.items };
}

impl Reports {
    /// A table for so many tasks, in which no report stands yet.
    pub fn new(alloc: Global, size: usize) -> Result<Reports, PlanErr>
        ensures size { IfOk result (λ table. length table ≡ size) }
        ensures none { IfOk result (λ table. report_in table ≡ (λ t. None)) }
        ensures memory { OnlyMemory result }
    {
        let mut items = Vec::with_capacity(alloc, size)?;
        for _ in 0..size {
            items.push(None)?;
        }
        Ok(Reports { items })
    }

    /// The report of a task, if there is one.
    pub fn at(&self, place: usize) -> Option<&Report>
        ensures { option_map (λ r. r.now) result ≡ report_in self.now place }
    {
        match self.items.get(place) {
            Some(Some(report)) => Some(report),
            _ => None,
        }
    }

    /// Puts a report into its place.
    pub fn set(&mut self, place: usize, report: Report)
        requires { place < length self.old }
        ensures size { length self.new ≡ length self.old }
        ensures set { report_in self.new ≡ put_at (report_in self.old) place (Some report) }
    {
        self.items[place] = Some(report);
    }

    /// How many tasks succeeded.
    pub fn good(&self) -> u32
        requires { length self.now < 2 ^ 32 }
        ensures { result ≡ count_below (λ t. succeeded (report_in self.now t)) (length self.now) }
    {
        count_good(self.items.as_slice())
    }

    /// How many tasks were found in the cache.
    pub fn cached(&self) -> u32
        requires { length self.now < 2 ^ 32 }
        ensures { result ≡ count_below (λ t. was_cached (report_in self.now t)) (length self.now) }
    {
        count_cached(self.items.as_slice())
    }

    /// The greatest status.
    pub fn worst(&self) -> u8
        ensures { result ≡ worst_by (report_in self.now) (length self.now) }
    {
        worst_of(self.items.as_slice())
    }
}

fn count_good(table: &[Option<Report>]) -> u32
    requires { length table.now < 2 ^ 32 }
    ensures { result ≡ count_below (λ t. succeeded (report_in table.now t)) (length table.now) }
{
    let mut count = 0;
    for report in table {
        if succeeded(report) {
            count += 1;
        }
    }
    count
}

fn count_cached(table: &[Option<Report>]) -> u32
    requires { length table.now < 2 ^ 32 }
    ensures { result ≡ count_below (λ t. was_cached (report_in table.now t)) (length table.now) }
{
    let mut count = 0;
    for report in table {
        if was_cached(report) {
            count += 1;
        }
    }
    count
}

fn worst_of(table: &[Option<Report>]) -> u8
    ensures { result ≡ worst_by (report_in table.now) (length table.now) }
{
    let mut worst = 0;
    for report in table {
        worst = worst.max(status_of(report));
    }
    worst
}
