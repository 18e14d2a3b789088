// A change of a file.
ghost use Rattle.std.specs.Prelude.{◌≡◌, IfOk, IsOkUnless};
ghost use Rattle.sample_repository.specs.Changes.{begun_with, file_with, files_with};

use page::PageErr;
use rel_path::{Bytes, Files, RelPath};
use std::alloc::Global;

/// The bytes, whose first one is this one.
fn begun_with(alloc: Global, first: u8, bytes: &[u8]) -> Result<Bytes, PageErr>
    ensures value { IfOk result (λ changed. changed ≡ begun_with first bytes.now) }
    ensures memory { IsOkUnless result PageErr.OutOfMemory }
{
    let mut changed = Vec::new(alloc);
    if let Some((_, rest)) = bytes.split_first() {
        changed.push(first)?;
        changed.extend_from_slice(rest)?;
    }
    Ok(Bytes::from_vec(changed))
}

/// The file, whose first byte is this one if it stands at the path.
fn file_with(
    alloc: Global,
    file: &(RelPath, Bytes),
    path: &RelPath,
    first: u8,
) -> Result<(RelPath, Bytes), PageErr>
    ensures value { IfOk result (λ changed. changed ≡ file_with path.now first file.now) }
    ensures memory { IsOkUnless result PageErr.OutOfMemory }
{
    let copy = file.0.copy()?;
    if file.0 == *path {
        return Ok((copy, begun_with(alloc, first, file.1.as_slice())?));
    }
    Ok((copy, file.1.copy()?))
}

/// The files, of which the one at the path begins with this byte.
pub(crate) fn files_with(
    alloc: Global,
    files: &Files,
    path: &RelPath,
    first: u8,
) -> Result<Files, PageErr>
    ensures value { IfOk result (λ changed. changed ≡ files_with path.now first files.now) }
    ensures memory { IsOkUnless result PageErr.OutOfMemory }
{
    let mut changed = Files::new(alloc);
    for file in files.as_slice() {
        changed.push(file_with(alloc, file, path, first)?)?;
    }
    Ok(changed)
}
