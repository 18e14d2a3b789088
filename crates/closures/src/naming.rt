// The files that parts name.
ghost use Rattle.std.specs.Prelude.{◌≡◌, ◌||◌, Bool, filter, length, IfOk};
ghost use Rattle.rel_path.specs.Paths.{Path, is_among, path_eq};
ghost use Rattle.listing.specs.Memory.{OnlyMemory};
ghost use Rattle.run_laws.specs.Closures.{names};
ghost use Rattle.spawn_dev.specs.Orders.{AscendByPath};
ghost use Rattle.closures.specs.Named.{marks_of};

use listing::{FileIn, ListErr, PartIn};
use rel_path::{Bytes, RelPath};
use std::alloc::Global;

// Marks the file of this path, if there is one.
fn mark(marks: &mut [bool], files: &[(RelPath, Bytes)], path: &RelPath)
    requires ascend { AscendByPath files.now }
    requires size { length marks.old ≡ length files.now }
    ensures size { length marks.new ≡ length marks.old }
    ensures marked { (passes : Path → Bool) → marks.old ≡ marks_of passes files.now
        → marks.new ≡ marks_of (λ other. path_eq path.now other || passes other) files.now }
{
    if let Ok(place) = files.binary_search_by(|file| file.0.cmp(path)) {
        marks[place] = true;
    }
}

// Marks the files of these paths.
fn mark_all(marks: &mut [bool], files: &[(RelPath, Bytes)], paths: &[RelPath])
    requires ascend { AscendByPath files.now }
    requires size { length marks.old ≡ length files.now }
    ensures size { length marks.new ≡ length marks.old }
    ensures marked { (passes : Path → Bool) → marks.old ≡ marks_of passes files.now
        → marks.new ≡ marks_of (λ other. is_among paths.now other || passes other) files.now }
{
    for path in paths {
        mark(marks, files, path);
    }
}

// Marks on the files that one of the parts names. It looks each path up, since the files may be many more.
fn marks_of(
    alloc: Global,
    files: &[(RelPath, Bytes)],
    parts: &[PartIn<'_>],
) -> Result<Vec<bool>, ListErr>
    requires { AscendByPath files.now }
    ensures marks { IfOk result (λ marks. marks.items ≡ marks_of (names parts.now) files.now) }
    ensures memory { OnlyMemory result }
{
    let mut marks = vec![in alloc; false; files.len()]?;
    for part in parts {
        mark_all(marks.as_mut_slice(), files, part.inputs().as_slice());
    }
    Ok(marks)
}

// Those of the files that have a mark.
fn marked<'a>(
    alloc: Global,
    files: &'a [(RelPath, Bytes)],
    marks: &[bool],
) -> Result<Vec<FileIn<'a>>, ListErr>
    requires { length marks.now ≡ length files.now }
    ensures files { (passes : Path → Bool) → marks.now ≡ marks_of passes files.now
        → IfOk result (λ found. found.items ≡ filter (λ f. passes f.0) files.now) }
    ensures memory { OnlyMemory result }
{
    let mut found = Vec::new(alloc);
    for (place, file) in files.iter().enumerate() {
        if marks[place] {
            found.push(FileIn::new(file))?;
        }
    }
    Ok(found)
}

/// Those of the files that one of the parts names. They ascend by path.
pub fn files_of<'a>(
    alloc: Global,
    files: &'a [(RelPath, Bytes)],
    parts: &[PartIn<'_>],
) -> Result<Vec<FileIn<'a>>, ListErr>
    requires { AscendByPath files.now }
    ensures files { IfOk result (λ found.
        found.items ≡ filter (λ f. names parts.now f.0) files.now) }
    ensures memory { OnlyMemory result }
{
    let marks = marks_of(alloc, files, parts)?;
    marked(alloc, files, marks.as_slice())
}
