// The folder `out`.
ghost use Rattle.std.specs.Prelude.{◌≡◌, IfOk};
ghost use Rattle.std.specs.Option.{option_copied};
ghost use Rattle.rel_path.specs.Paths.{parts_of};
ghost use Rattle.workspaces.specs.Space.{lies_below};
ghost use Rattle.prune.specs.Folders.{out_folder, json_folder, folder_of_all, first_below_out};
ghost use Rattle.prune.specs.Steps.{OnlyMemory};

use crate::PruneErr;
use rel_path::RelPath;
use std::alloc::Global;

const OUT_NAME: &str = "out";

const FULL_FOLDER: &str = "out/full";

const JSON_FOLDER: &str = "out/json";

/// Whether the path lies below `out`.
fn lies_below_out(path: &RelPath) -> bool
    ensures { result ≡ lies_below path.now out_folder }
{
    match path.components() {
        [first, _, ..] => OUT_NAME == first.as_str(),
        _ => false,
    }
}

/// The first of the paths that lies below `out`.
pub(crate) fn first_below_out(walk: &[RelPath]) -> Option<&RelPath>
    ensures { option_copied result ≡ first_below_out walk.now }
{
    walk.iter().find(|path| lies_below_out(path))
}

fn folder_at(alloc: Global, text: &str) -> Result<RelPath, PruneErr>
    ensures value { IfOk result (λ path. path ≡ parts_of text.now) }
    ensures memory { OnlyMemory result }
{
    match RelPath::read(alloc, text) {
        Ok(path) => Ok(path),
        Err(_) => Err(PruneErr::OutOfMemory),
    }
}

/// The folder of all files: `out`, and with folders for containers `full` in it.
pub(crate) fn folder_of_all(alloc: Global, docker: bool) -> Result<RelPath, PruneErr>
    ensures value { IfOk result (λ path. path ≡ folder_of_all docker) }
    ensures memory { OnlyMemory result }
{
    if docker {
        folder_at(alloc, FULL_FOLDER)
    } else {
        folder_at(alloc, OUT_NAME)
    }
}

/// The folder of the files that an installation needs.
pub(crate) fn json_folder(alloc: Global) -> Result<RelPath, PruneErr>
    ensures value { IfOk result (λ path. path ≡ json_folder) }
    ensures memory { OnlyMemory result }
{
    folder_at(alloc, JSON_FOLDER)
}
