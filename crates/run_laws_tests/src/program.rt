// The run without a cache as a plain program. It is slow, and it is the definition.
ghost use Rattle.std.specs.Prelude.{◌≡◌, ◌++◌, ◌<◌, List, [], length, slice_get, IfOk, OnOk, Some, None, option_map, unwrap_or, if◌then◌else◌};
ghost use Rattle.std.specs.List.{list_any};
ghost use Rattle.rel_path.specs.Files.{file_at};
ghost use Rattle.rel_path.specs.Paths.{is_among};
ghost use Rattle.globs.specs.Outputs.{takes};
ghost use Rattle.run_laws.specs.declared.outcome.Outcome.{Outcome};
ghost use Rattle.run_laws.specs.Ancestors.{part_at, reaches, is_above};
ghost use Rattle.run_laws.specs.Clean.{skips, is_bad, written, seen, outcome, clean};
ghost use Rattle.run_laws.specs.Worlds.{is_read};
ghost use Rattle.run_laws_tests.specs.Walks.{names_from, last_written};
ghost use Rattle.run_laws_tests.specs.Books.{piece_bytes, pieces_bytes, files_of, is_for, effect_of};

use crate::book::{Piece, Rule, Write};
use listing::{Listing, Part};
use rel_path::{Bytes, Files, RelPath};
use run_laws::{Effect, Mode, Outcome};
use std::alloc::{AllocError, Global};

// ---- ancestors

fn deps_at(listing: &Listing, place: usize) -> &[u32]
    ensures { result.now ≡ (part_at listing.now place).deps }
{
    match listing.parts.as_slice().get(place) {
        Some(part) => part.deps.as_slice(),
        None => &[],
    }
}

// Whether at least one edge and at most `most` lead from one place to the other.
fn reaches(listing: &Listing, most: usize, from: usize, to: usize) -> bool
    ensures { result ≡ reaches listing.now most from to }
{
    if most == 0 {
        return false;
    }
    for dep in deps_at(listing, from) {
        let dep = *dep as usize;
        if dep == to || reaches(listing, most - 1, dep, to) {
            return true;
        }
    }
    false
}

pub(crate) fn is_above(listing: &Listing, place: usize, other: usize) -> bool
    ensures { result ≡ is_above listing.now place other }
{
    reaches(listing, place, place, other)
}

// ---- what a task sees

fn bytes_at<'a>(files: &'a [(RelPath, Bytes)], path: &RelPath) -> Option<&'a Bytes>
    ensures { option_map (λ b. b.now) result ≡ file_at files.now path.now }
{
    for file in files {
        if file.0 == *path {
            return Some(&file.1);
        }
    }
    None
}

pub(crate) fn has_input(part: &Part, path: &RelPath) -> bool
    ensures { result ≡ is_among part.now.inputs path.now }
{
    part.inputs.as_slice().contains(path)
}

fn is_own_input(listing: &Listing, place: usize, path: &RelPath) -> bool
    ensures { result ≡ is_among (part_at listing.now place).inputs path.now }
{
    match listing.parts.as_slice().get(place) {
        Some(part) => has_input(part, path),
        None => false,
    }
}

fn is_input_above(listing: &Listing, place: usize, path: &RelPath) -> bool
    ensures { result ≡ names_from (is_above listing.now place) 0 listing.now.parts path.now }
{
    for (other, part) in listing.parts.as_slice().iter().enumerate() {
        if is_above(listing, place, other) && has_input(part, path) {
            return true;
        }
    }
    false
}

fn is_read(listing: &Listing, place: usize, path: &RelPath) -> bool
    ensures { result ≡ is_read listing.now place path.now }
{
    is_own_input(listing, place, path) || is_input_above(listing, place, path)
}

fn input_at<'a>(listing: &'a Listing, place: usize, path: &RelPath) -> Option<&'a Bytes>
    ensures { option_map (λ b. b.now) result ≡ (if is_read listing.now place path.now then file_at listing.now.files path.now else None) }
{
    if is_read(listing, place, path) {
        bytes_at(listing.files.as_slice(), path)
    } else {
        None
    }
}

fn written_at<'a>(outcome: &'a Outcome, path: &RelPath) -> Option<&'a Bytes>
    ensures { option_map (λ b. b.now) result ≡ file_at (written outcome.now) path.now }
{
    match outcome {
        Outcome::Skipped => None,
        Outcome::Passed => None,
        Outcome::Done(effect) => bytes_at(effect.files.as_slice(), path),
    }
}

fn last_written<'a>(
    listing: &Listing,
    place: usize,
    outcomes: &'a [Outcome],
    path: &RelPath,
    below: Option<&'a Bytes>,
) -> Option<&'a Bytes>
    ensures { option_map (λ b. b.now) result ≡ last_written (is_above listing.now place) 0 outcomes.now path.now (option_map (λ b. b.now) below.entry) }
{
    let mut found = below;
    for (other, outcome) in outcomes.iter().enumerate() {
        if is_above(listing, place, other) {
            found = written_at(outcome, path).or(found);
        }
    }
    found
}

/// What the task at the place sees at the path, by the outcomes of the places before it.
pub fn seen_at<'a>(
    listing: &'a Listing,
    place: usize,
    outcomes: &'a [Outcome],
    path: &RelPath,
) -> Option<&'a Bytes>
    ensures { option_map (λ b. b.now) result ≡ (seen listing.now place outcomes.now).files path.now }
{
    let input = input_at(listing, place, path);
    last_written(listing, place, outcomes, path, input)
}

// ---- what a command does

fn push_file(
    to: &mut Vec<u8>,
    listing: &Listing,
    place: usize,
    outcomes: &[Outcome],
    path: &RelPath,
) -> Result<(), AllocError>
    ensures bytes { OnOk result (to.new.items ≡ to.old.items ++ unwrap_or ((seen listing.now place outcomes.now).files path.now) []) }
{
    match seen_at(listing, place, outcomes, path) {
        Some(bytes) => to.extend_from_slice(bytes.as_slice())?,
        None => {}
    }
    Ok(())
}

fn push_piece(
    to: &mut Vec<u8>,
    listing: &Listing,
    place: usize,
    outcomes: &[Outcome],
    piece: &Piece,
) -> Result<(), AllocError>
    ensures bytes { OnOk result (to.new.items ≡ to.old.items ++ piece_bytes (seen listing.now place outcomes.now) piece.now) }
{
    match piece {
        Piece::Lit(bytes) => to.extend_from_slice(bytes.as_slice())?,
        Piece::File(path) => push_file(to, listing, place, outcomes, path)?,
    }
    Ok(())
}

fn bytes_of(
    alloc: Global,
    listing: &Listing,
    place: usize,
    outcomes: &[Outcome],
    pieces: &[Piece],
) -> Result<Bytes, AllocError>
    ensures bytes { IfOk result (λ bytes. bytes ≡ pieces_bytes (seen listing.now place outcomes.now) pieces.now) }
{
    let mut bytes = Vec::new(alloc);
    for piece in pieces {
        push_piece(&mut bytes, listing, place, outcomes, piece)?;
    }
    Ok(Bytes::from_vec(bytes))
}

fn part_at(listing: &Listing, place: usize) -> &Part
    requires { place < length listing.now.parts }
    ensures { part_at listing.now place ≡ result.now }
{
    &listing.parts.as_slice()[place]
}

#[tactic(auto, unfolding(run_laws::specs::Clean::seen))]
fn owns(listing: &Listing, place: usize, path: &RelPath) -> bool
    requires { place < length listing.now.parts }
    ensures { (outcomes : List Outcome) → result ≡ takes (seen listing.now place outcomes).outs path.now }
{
    part_at(listing, place).outs.takes(path)
}

#[tactic(auto, unfolding(run_laws::specs::Clean::seen))]
fn is_for(listing: &Listing, place: usize, rule: &Rule) -> bool
    requires { place < length listing.now.parts }
    ensures { (outcomes : List Outcome) → result ≡ is_for (seen listing.now place outcomes) rule.now }
{
    let part = part_at(listing, place);
    rule.package == part.package && rule.task == part.task
}

fn files_of(
    alloc: Global,
    listing: &Listing,
    place: usize,
    outcomes: &[Outcome],
    writes: &[Write],
) -> Result<Files, AllocError>
    requires { place < length listing.now.parts }
    ensures files { IfOk result (λ files. files ≡ files_of (seen listing.now place outcomes.now) writes.now) }
{
    let mut files = Files::new(alloc);
    for write in writes {
        if owns(listing, place, &write.path) {
            let bytes = bytes_of(alloc, listing, place, outcomes, &write.bytes)?;
            files.push((write.path.copy()?, bytes))?;
        }
    }
    Ok(files)
}

fn effect_at(
    alloc: Global,
    rules: &[Rule],
    listing: &Listing,
    place: usize,
    outcomes: &[Outcome],
) -> Result<Effect, AllocError>
    requires { place < length listing.now.parts }
    ensures effect { IfOk result (λ effect. effect ≡ effect_of rules.now (seen listing.now place outcomes.now)) }
{
    for rule in rules {
        if is_for(listing, place, rule) {
            let log = bytes_of(alloc, listing, place, outcomes, &rule.log)?;
            let files = files_of(alloc, listing, place, outcomes, &rule.files)?;
            let status = rule.status;
            return Ok(Effect { log, status, files });
        }
    }
    Ok(Effect {
        log: Bytes::from_vec(Vec::new(alloc)),
        status: 0,
        files: Files::new(alloc),
    })
}

// ---- the run

fn skips(mode: Mode) -> bool
    ensures { result ≡ skips mode }
{
    match mode {
        Mode::Never => true,
        Mode::DependenciesSuccessful => true,
        Mode::Always => false,
    }
}

fn is_bad(outcome: &Outcome) -> bool
    ensures { result ≡ is_bad (Some outcome.now) }
{
    match outcome {
        Outcome::Skipped => true,
        Outcome::Passed => false,
        Outcome::Done(effect) => effect.status != 0,
    }
}

fn is_bad_at(outcomes: &[Outcome], place: usize) -> bool
    ensures { result ≡ is_bad (slice_get outcomes.now place) }
{
    match outcomes.get(place) {
        Some(outcome) => is_bad(outcome),
        None => false,
    }
}

fn has_bad(outcomes: &[Outcome], deps: &[u32]) -> bool
    ensures { result ≡ list_any (λ d. is_bad (slice_get outcomes.now d)) deps.now }
{
    deps.iter().any(|dep| is_bad_at(outcomes, *dep as usize))
}

#[tactic(auto, unfolding(run_laws::specs::Clean::outcome))]
fn outcome_at(
    alloc: Global,
    mode: Mode,
    rules: &[Rule],
    listing: &Listing,
    outcomes: &[Outcome],
    place: usize,
) -> Result<Outcome, AllocError>
    requires { place < length listing.now.parts }
    ensures outcome { IfOk result (λ o. o ≡ outcome mode (effect_of rules.now) listing.now place outcomes.now) }
{
    let part = part_at(listing, place);
    if skips(mode) && has_bad(outcomes, part.deps.as_slice()) {
        return Ok(Outcome::Skipped);
    }
    if part.scripts.as_slice().is_empty() {
        return Ok(Outcome::Passed);
    }
    let effect = effect_at(alloc, rules, listing, place, outcomes)?;
    Ok(Outcome::Done(effect))
}

/// The outcome of each task of the listing without a cache, where commands do what the rules say.
pub fn clean(
    alloc: Global,
    mode: Mode,
    rules: &[Rule],
    listing: &Listing,
) -> Result<Vec<Outcome>, AllocError>
    ensures outcomes { IfOk result (λ all. all.items ≡ clean mode (effect_of rules.now) listing.now) }
{
    let mut all = Vec::new(alloc);
    for place in 0..listing.parts.as_slice().len() {
        let outcome = outcome_at(alloc, mode, rules, listing, &all, place)?;
        all.push(outcome)?;
    }
    Ok(all)
}
