// What holds of each listing. Who calls a function of these knows its law.
ghost use Rattle.collect.specs.Laws.{ListingLaw};

/// The listing of tasks that can be listed stands in order, its tasks keep out of each other's way, and its files are
/// its inputs with their bytes, whatever the files are.
pub fn listing_law()
    ensures { ListingLaw }
{
    task_definitions::definition_law();
    folder_globs::exclusion_law();
    run_laws::log_law();
}
