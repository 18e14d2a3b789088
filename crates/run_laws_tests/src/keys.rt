// The closure of a task as a plain program. It is slow, and it is the definition.
ghost use Rattle.std.specs.Prelude.{◌≡◌, ◌≤◌, ◌++◌, ◌∷◌, [], map, filter, IfOk, OnOk};
ghost use Rattle.run_laws.specs.Picks.{rank};
ghost use Rattle.run_laws.specs.Closures.{names, renumbered, in_closure, closure};
ghost use Rattle.run_laws_tests.specs.Walks.{parts_from};

use crate::program::{has_input, is_above};
use globs::OutSet;
use listing::{Listing, Part, Parts};
use rel_path::{Bytes, Files, Places, RelPath};
use std::alloc::{AllocError, Global};

fn is_kept(listing: &Listing, place: usize, other: usize) -> bool
    ensures { result ≡ in_closure listing.now place other }
{
    other == place || is_above(listing, place, other)
}

// How many places below this one are kept.
fn rank(listing: &Listing, place: usize, below: usize) -> usize
    ensures value { result ≡ rank (in_closure listing.now place) below }
    ensures small { result ≤ below }
{
    let mut count = 0usize;
    for other in 0..below {
        if is_kept(listing, place, other) {
            count += 1;
        }
    }
    count
}

fn places_in(
    alloc: Global,
    listing: &Listing,
    place: usize,
    deps: &[u32],
) -> Result<Places, AllocError>
    ensures places { IfOk result (λ places. places ≡ map (rank (in_closure listing.now place)) deps.now) }
{
    let mut places = Places::new(alloc);
    for dep in deps {
        places.push(rank(listing, place, *dep as usize) as u32)?;
    }
    Ok(places)
}

fn outs_of(part: &Part) -> Result<OutSet, AllocError>
    ensures value { IfOk result (λ outs. outs ≡ part.now.outs) }
{
    match part.outs.copy() {
        Ok(outs) => Ok(outs),
        Err(_) => Err(AllocError),
    }
}

fn part_in(alloc: Global, listing: &Listing, place: usize, part: &Part) -> Result<Part, AllocError>
    ensures value { IfOk result (λ copy. copy ≡ renumbered (in_closure listing.now place) part.now) }
{
    Ok(Part {
        package: part.package.copy()?,
        folder: part.folder.copy()?,
        task: part.task.copy()?,
        scripts: part.scripts.copy()?,
        args: part.args.copy()?,
        outs: outs_of(part)?,
        env: part.env.copy()?,
        inputs: part.inputs.copy()?,
        externals: part.externals.copy()?,
        deps: places_in(alloc, listing, place, part.deps.as_slice())?,
    })
}

fn push_part(parts: &mut Parts, part: Part) -> Result<(), AllocError>
    ensures pushed { OnOk result (parts.new ≡ parts.old ++ part ∷ []) }
{
    match parts.push(part) {
        Ok(()) => Ok(()),
        Err(_) => Err(AllocError),
    }
}

fn parts_in(alloc: Global, listing: &Listing, place: usize) -> Result<Parts, AllocError>
    ensures parts { IfOk result (λ parts. parts ≡ parts_from (in_closure listing.now place) 0 listing.now.parts) }
{
    let mut parts = Parts::new(alloc);
    for (other, part) in listing.parts.as_slice().iter().enumerate() {
        if is_kept(listing, place, other) {
            push_part(&mut parts, part_in(alloc, listing, place, part)?)?;
        }
    }
    Ok(parts)
}

fn names(parts: &[Part], path: &RelPath) -> bool
    ensures { result ≡ names parts.now path.now }
{
    parts.iter().any(|part| has_input(part, path))
}

fn files_in(alloc: Global, files: &[(RelPath, Bytes)], parts: &[Part]) -> Result<Files, AllocError>
    ensures files { IfOk result (λ kept. kept ≡ filter (λ f. names parts.now f.0) files.now) }
{
    let mut kept = Files::new(alloc);
    for file in files {
        if names(parts, &file.0) {
            kept.push((file.0.copy()?, file.1.copy()?))?;
        }
    }
    Ok(kept)
}

/// The listing of the task at the place and its ancestors.
pub fn closure(alloc: Global, listing: &Listing, place: usize) -> Result<Listing, AllocError>
    ensures value { IfOk result (λ part. part ≡ closure listing.now place) }
{
    let parts = parts_in(alloc, listing, place)?;
    let files = files_in(alloc, listing.files.as_slice(), parts.as_slice())?;
    Ok(Listing { files, parts })
}
