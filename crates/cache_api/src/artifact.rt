// What a task left.
ghost use Rattle.std.specs.Prelude.{◌≡◌};
ghost use Rattle.cache_api.specs.Reading.{artifact_in, ReadsBack, ReadsText, ReadsOnly};
ghost use Rattle.globs.specs.OwnedFiles as spec;

use globs::OutSet;
use rel_path::{Bytes, Files, RelPath};

/// What a task left: its log, and the files that it owns with their paths from the root, ascending.
#[derive(Debug, Drop)]
pub struct Artifact {
    pub log: Bytes,
    pub files: Files,
}

/// The law of artifacts. An artifact whose strings and lists are short enough for their lengths to be written and whose
/// paths are texts and ascend is read back from its text; and what is read was written so. From the text of any artifact
/// that can be told from its text nothing but that artifact is read.
pub fn artifact_law()
    ensures back { ReadsBack artifact_in }
    ensures text { ReadsText artifact_in }
    ensures only { ReadsOnly artifact_in }
{}

/// Whether a task owns each of the files.
pub fn owns_all(outs: &OutSet, files: &[(RelPath, Bytes)]) -> bool
    ensures { result ≡ spec.owns_all outs.now files.now }
{
    files.iter().all(|file| outs.takes(&file.0))
}
