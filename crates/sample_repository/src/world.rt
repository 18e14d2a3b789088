// The repository as a world in memory.
ghost use Rattle.std.specs.Prelude.{IfOk, IsOkUnless};
ghost use Rattle.rel_path.specs.Files.{file_at};
ghost use Rattle.sample_repository.specs.Changes.{changed_at};
ghost use Rattle.sample_repository.specs.Repository.{IsSize, sample_files, source_path};
ghost use Rattle.sample_repository.specs.Worlds.{IsFresh};

use crate::changes::files_with;
use crate::files::sample_files;
use crate::paths::source_path;
use crate::rules::sample_rules;
use page::PageErr;
use rel_path::Files;
use spawn_dev::MemWorld;
use std::alloc::Global;

/// A world with these files, in which the commands of n packages may run.
fn world_over(alloc: Global, n: u32, files: Files) -> Result<MemWorld, PageErr>
    ensures fresh { IfOk result (IsFresh n (file_at files)) }
    ensures memory { IsOkUnless result PageErr.OutOfMemory }
{
    let book = sample_rules(alloc, n)?;
    Ok(MemWorld::new(alloc, files, book, Vec::new(alloc), Vec::new(alloc)))
}

/// The repository of n packages, 1 to 400, and what its commands do. Nothing was started, no call of
/// the world fails, and of the commands that run the first one ends first.
pub fn sample_world(alloc: Global, n: u32) -> Result<MemWorld, PageErr>
    requires { IsSize n }
    ensures fresh { IfOk result (IsFresh n (file_at (sample_files n))) }
    ensures memory { IsOkUnless result PageErr.OutOfMemory }
{
    world_over(alloc, n, sample_files(alloc, n)?)
}

/// A world with these files, in which the source of a package begins with this byte if it stands there
/// and is not empty. The commands of n packages may run in it, and nothing was started.
pub fn changed_world(
    alloc: Global,
    n: u32,
    files: &Files,
    number: u32,
    first: u8,
) -> Result<MemWorld, PageErr>
    ensures fresh { IfOk result
        (IsFresh n (changed_at (source_path number) first (file_at files.now))) }
    ensures memory { IsOkUnless result PageErr.OutOfMemory }
{
    let path = source_path(alloc, number)?;
    world_over(alloc, n, files_with(alloc, files, &path, first)?)
}
