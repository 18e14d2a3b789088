// The packages that a run is for.
ghost use Rattle.std.specs.Prelude.{◌≡◌, None, MatchResult};
ghost use Rattle.filters.specs.Selection.{AreSelectedBy, words_fault};
ghost use Rattle.planner.specs.Refusals.{filter_refusal};
ghost use Rattle.planner.specs.Plans.{AfterFilters};
ghost use Rattle.planner.specs.Steps.{Ends, NoMore, error_of};
ghost use Rattle.planner.specs.Wanted.{asks_all};

use filters::{FilterErr, selected};
use refusals::{Refusal, Stop};
use rel_path::{Places, Texts};
use std::alloc::Global;
use workspaces::Packages;

fn filter_error(fault: FilterErr) -> Stop
    ensures { result ≡ error_of (filter_refusal fault) }
{
    match fault {
        FilterErr::Unreadable { word } => Stop::Refused(Refusal::Filter { word }),
        FilterErr::NoPackage { name } => Stop::Refused(Refusal::NoPackage { name }),
        FilterErr::OutOfMemory => Stop::OutOfMemory,
    }
}

/// The packages that the words of `--filter` select, ascending.
pub(crate) fn selected_packages(
    alloc: Global,
    words: &Texts,
    packages: &Packages,
) -> Result<Places, Stop>
    ensures { MatchResult result
        (λ found. (words_fault packages.now.packages words.now ≡ None)
        × AreSelectedBy packages.now.packages words.now found)
        (Ends (AfterFilters packages.now.packages words.now NoMore)) }
{
    match selected(alloc, words, packages) {
        Ok(found) => Ok(found),
        Err(fault) => Err(filter_error(fault)),
    }
}

/// Whether no word of `--filter` stands: then the root is asked for as each package is.
pub(crate) fn asks_all(filters: &Texts) -> bool
    ensures { result ≡ asks_all filters.now }
{
    filters.as_slice().is_empty()
}
