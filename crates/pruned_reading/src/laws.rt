// What a pruned repository's files say. The law is the contract of a function that does nothing: who calls it, knows the law.
ghost use Rattle.pruned_reading.specs.Laws.{ReadingLaw};

/// Of files that make a repository, those that a pruning leaves make the repository of the packages that stay: its walk
/// is the paths that were picked, its packages, their files and scripts are those of the folders that stay, and its
/// lockfile is the cut one, where the text of that is within the limit of a file.
pub fn reading_law()
    ensures { ReadingLaw }
{}
