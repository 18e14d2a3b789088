// What a run does to files, as plain programs.
ghost use Rattle.std.specs.Prelude.{◌≡◌, ◌++◌, [], not, filter, IfOk, OnOk};
ghost use Rattle.rel_path.specs.Paths.{Path};
ghost use Rattle.rel_path.specs.Files.{file_at, over};
ghost use Rattle.globs.specs.Outputs.{takes};
ghost use Rattle.run_laws.specs.Plans.{spelled, log_name};
ghost use Rattle.globs.specs.OwnedFiles.{cleared};

use globs::OutSet;
use rel_path::{Bytes, Files, RelPath, Text};
use std::alloc::{AllocError, Global};

fn kept(alloc: Global, outs: &OutSet, files: &[(RelPath, Bytes)]) -> Result<Files, AllocError>
    ensures files { IfOk result (λ kept. kept ≡ filter (λ f. not (takes outs.now f.0)) files.now) }
{
    let mut kept = Files::new(alloc);
    for file in files {
        if !outs.takes(&file.0) {
            kept.push((file.0.copy()?, file.1.copy()?))?;
        }
    }
    Ok(kept)
}

/// The files without those that the task owns.
pub fn cleared(
    alloc: Global,
    outs: &OutSet,
    files: &[(RelPath, Bytes)],
) -> Result<Files, AllocError>
    ensures files { IfOk result (λ left. (path : Path) → file_at left path ≡ cleared outs.now (file_at files.now) path) }
{
    let left = kept(alloc, outs, files)?;
    Ok(left)
}

fn push_copies(to: &mut Files, files: &[(RelPath, Bytes)]) -> Result<(), AllocError>
    ensures files { OnOk result (to.new ≡ to.old ++ files.now) }
{
    for file in files {
        to.push((file.0.copy()?, file.1.copy()?))?;
    }
    Ok(())
}

/// The second files over the first.
pub fn over(
    alloc: Global,
    below: &[(RelPath, Bytes)],
    above: &[(RelPath, Bytes)],
) -> Result<Files, AllocError>
    ensures files { IfOk result (λ all. (path : Path) → file_at all path ≡ over (file_at below.now) (file_at above.now) path) }
{
    let mut all = Files::new(alloc);
    push_copies(&mut all, above)?;
    push_copies(&mut all, below)?;
    Ok(all)
}

fn push_spelled(to: &mut Vec<u8>, task: &[u8]) -> Result<(), AllocError>
    ensures bytes { OnOk result (to.new.items ≡ to.old.items ++ spelled task.now) }
{
    for byte in task {
        match *byte {
            b':' => to.extend_from_slice(b"$colon$")?,
            b'/' => to.extend_from_slice(b"$slash$")?,
            byte => to.push(byte)?,
        }
    }
    Ok(())
}

/// The name of the file in which the log of the task is kept.
pub fn log_name(alloc: Global, task: &Text) -> Result<Vec<u8>, AllocError>
    ensures name { IfOk result (λ name. name.items ≡ log_name task.now) }
{
    let mut name = Vec::new(alloc);
    name.extend_from_slice(b"turbo-")?;
    push_spelled(&mut name, task.as_str().as_bytes())?;
    name.extend_from_slice(b".log")?;
    Ok(name)
}
