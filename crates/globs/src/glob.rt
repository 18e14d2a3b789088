// Globs.
ghost use Rattle.std.specs.Prelude.{◌≡◌, ◌↔◌, ◌<◌, ◌≤◌, ◌+◌, ◌^◌, length, IsTrue, IfOk, IfErr, IsOkUnless, None};
ghost use Rattle.std.specs.Str.{chars};
ghost use Rattle.rel_path.specs.Limits.{alternative_limit};
ghost use Rattle.glob_syntax.specs.Reading.{fault_at, glob_from, MayRefuse};
ghost use Rattle.globs.specs.Match.{is_plain, are_plain, is_above, alternative_matches, matches, matches_whole, Matches, MatchesWhole};
ghost use Rattle.globs.specs.Entries.{match_as};

use glob_syntax::{Alternative, GlobErr, Part, read_alternatives, spells_path};
use rel_path::{RelPath, Text};
use std::alloc::Global;
use std::marker::Model;

/// A glob, which contracts see as its alternatives, each the list of its parts.
#[derive(Debug, Drop)]
pub struct Glob {
    alternatives: Vec<Alternative>,
}

impl Model for Glob {
    ghost use Rattle.std.specs.Prelude.{List};
    ghost use Rattle.glob_syntax.specs.declared.part.Part.{Part};

    ghost Value = { List (List Part) };

    ghost view = { λ g. g.alternatives.items };
}

impl Glob {
    /// The glob that the text writes. `OpenClass`, `OpenBrace`, `Nested`, `Climbs` and `Wide` come as `GlobErr` says;
    /// of several the one with the least place.
    pub fn read(alloc: Global, text: &str) -> Result<Glob, GlobErr>
        ensures value { IfOk result (λ glob. glob ≡ glob_from 0 (chars text.now)) }
        ensures whole { IfOk result (λ glob. fault_at 0 (chars text.now) ≡ None) }
        ensures few { IfOk result (λ glob. length glob ≤ alternative_limit) }
        ensures err { IfErr result (MayRefuse (fault_at 0 (chars text.now))) }
    {
        let _len = text.len();
        Glob::read_from(alloc, 0, text)
    }

    /// The same, of a text whose first character has the place `start` in what was written whole.
    pub(crate) fn read_from(alloc: Global, start: u64, text: &str) -> Result<Glob, GlobErr>
        requires { start + length text.now < 2 ^ 64 }
        ensures value { IfOk result (λ glob. glob ≡ glob_from start (chars text.now)) }
        ensures whole { IfOk result (λ glob. fault_at start (chars text.now) ≡ None) }
        ensures few { IfOk result (λ glob. length glob ≤ alternative_limit) }
        ensures err { IfErr result (MayRefuse (fault_at start (chars text.now))) }
    {
        let alternatives = read_alternatives(alloc, start, text)?;
        Ok(Glob { alternatives })
    }

    fn alternatives(&self) -> &[Alternative]
        ensures { result.now ≡ self.now }
    {
        self.alternatives.as_slice()
    }

    /// Whether the glob matches the path: one of its alternatives takes the whole path, or has no wildcards and takes
    /// a folder above it. An alternative without components takes every folder, so it matches every path.
    pub fn matches(&self, path: &RelPath) -> bool
        ensures value { result ≡ matches self.now path.now }
        ensures meaning { IsTrue result ↔ Matches self.now path.now }
    {
        self.matches_components(path.components())
    }

    /// Whether one of the alternatives takes the whole path.
    pub fn matches_whole(&self, path: &RelPath) -> bool
        ensures value { result ≡ matches_whole self.now path.now }
        ensures meaning { IsTrue result ↔ MatchesWhole self.now path.now }
    {
        self.matches_all_components(path.components())
    }

    #[tactic(auto, unfolding(crate::specs::Match::matches))]
    pub(crate) fn matches_components(&self, path: &[Text]) -> bool
        ensures { result ≡ matches self.now path.now }
    {
        let alternatives = self.alternatives();
        alternatives.iter().any(|alternative| alternative_matches(alternative.parts(), path))
    }

    #[tactic(auto, unfolding(crate::specs::Match::matches_whole))]
    pub(crate) fn matches_all_components(&self, path: &[Text]) -> bool
        ensures { result ≡ matches_whole self.now path.now }
    {
        let alternatives = self.alternatives();
        alternatives
            .iter()
            .any(|alternative| spells_path(alternative.parts(), path))
    }

    /// Whether it matches whole, or also from above.
    pub(crate) fn matches_as(&self, whole: bool, path: &[Text]) -> bool
        ensures { result ≡ match_as whole self.now path.now }
    {
        if whole {
            self.matches_all_components(path)
        } else {
            self.matches_components(path)
        }
    }

    pub fn copy(&self) -> Result<Glob, GlobErr>
        ensures value { IfOk result (λ copy. copy ≡ self.now) }
        ensures memory { IsOkUnless result GlobErr.OutOfMemory }
    {
        let alternatives = copy_of(*self.alternatives.allocator(), self.alternatives())?;
        Ok(Glob { alternatives })
    }
}

fn copy_of(alloc: Global, alternatives: &[Alternative]) -> Result<Vec<Alternative>, GlobErr>
    ensures value { IfOk result (λ copy. copy.items ≡ alternatives.now) }
    ensures memory { IsOkUnless result GlobErr.OutOfMemory }
{
    let mut copy = Vec::new(alloc);
    for alternative in alternatives {
        copy.push(alternative.copy()?)?;
    }
    Ok(copy)
}

/// Without wildcards.
fn is_plain(part: &Part) -> bool
    ensures { result ≡ is_plain part.now }
{
    match part {
        Part::Span => false,
        Part::Named(name) => name.is_plain(),
    }
}

fn are_plain(parts: &[Part]) -> bool
    ensures { result ≡ are_plain parts.now }
{
    parts.iter().all(|part| is_plain(part))
}

fn alternative_matches(parts: &[Part], path: &[Text]) -> bool
    ensures { result ≡ alternative_matches parts.now path.now }
{
    spells_path(parts, path) || are_plain(parts) && is_above(parts, path)
}

/// Whether the parts take the folder above the path that has as many components as they are.
fn is_above(parts: &[Part], path: &[Text]) -> bool
    ensures { result ≡ is_above parts.now path.now }
{
    parts.len() < path.len() && spells_path(parts, &path[..parts.len()])
}
