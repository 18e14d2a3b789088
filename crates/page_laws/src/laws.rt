// The law of pages. It is the contract of a function that does nothing: who calls it, knows the
// law.
ghost use Rattle.page_laws.specs.Pages.{PageLaw};

/// In the modes in which no failure stops the run, two runs of a plan from one opening print one
/// page, whatever the order of ends, but for the notes that the store is full; and where neither
/// has such a note, the pages are equal.
pub fn page_law()
    ensures { PageLaw }
{
    run_core::reported_law();
    schedule_laws::starts_law();
}
