// What is to be said of a task.
ghost use Rattle.std.specs.Prelude.{◌≡◌};
ghost use Rattle.run_plan.specs.Reports.{succeeded, failed, was_cached, is_cached, status_in};

use page::{Mark, Note};
use rel_path::Text;

/// What is to be said of a task that was found in the cache or that ended, beside its log: where its result comes from,
/// the digits of its fingerprint, its status, and why its result was not put into the cache.
#[derive(Debug, Drop)]
pub struct Report {
    pub mark: Mark,
    pub digits: Text,
    pub status: u8,
    pub note: Note,
}

/// Whether the task succeeded.
pub(crate) fn succeeded(report: &Option<Report>) -> bool
    ensures { result ≡ succeeded report.now }
{
    match report {
        Some(report) => report.status == 0,
        None => false,
    }
}

/// Whether the task failed.
pub(crate) fn failed(report: &Option<Report>) -> bool
    ensures { result ≡ failed report.now }
{
    match report {
        Some(report) => report.status != 0,
        None => false,
    }
}

fn is_cached(mark: Mark) -> bool
    ensures { result ≡ is_cached mark }
{
    match mark {
        Mark::Hit => true,
        Mark::Miss | Mark::Bypass => false,
    }
}

/// Whether the task's result came from the cache.
pub(crate) fn was_cached(report: &Option<Report>) -> bool
    ensures { result ≡ was_cached report.now }
{
    match report {
        Some(report) => is_cached(report.mark),
        None => false,
    }
}

/// The task's status, and 0 where nothing is reported.
pub(crate) fn status_of(report: &Option<Report>) -> u8
    ensures { result ≡ status_in report.now }
{
    match report {
        Some(report) => report.status,
        None => 0,
    }
}
