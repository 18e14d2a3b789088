// Reading ranges: words, sets of comparators, and sets between bars.
ghost use Rattle.std.specs.Prelude.{◌≡◌, ◌==◌, ◌∷◌, [], None, Some, OnOk, IfOk, IfErr};
ghost use Rattle.npm_range.specs.Grammar as spec;
ghost use Rattle.npm_range.specs.Limits.{admits, release_of, set_admits};
ghost use Rattle.std.specs.List.{slice_split};
ghost use Rattle.npm_range.specs.declared.characters.TheConstants.{TAB};
ghost use Rattle.npm_range.specs.Reading.{Reads};
ghost use Rattle.npm_range.specs.Refusal.{MayRefuse};

use crate::characters::{BAR, CARET, EQUALS, GREATER, LESS, SPACE, TAB, TILDE};
use crate::comparator::Operator;
use crate::error::RangeErr;
use crate::limit::{Bound, is_admitted};
use crate::table::add_bounds;
use crate::version::{read_version, without};
use semver::Version;
use std::alloc::Global;
use std::marker::Model;

/// The operator at the front of a word, and the rest.
fn operator_at(word: &str) -> (Option<Operator>, &str)
    ensures operator { result.0 ≡ (spec.operator_at word.now).0 }
    ensures rest { result.1.now ≡ (spec.operator_at word.now).1 }
{
    if let Some(rest) = word.strip_prefix(TILDE) {
        (Some(Operator::Tilde), without(rest, GREATER))
    } else if let Some(rest) = word.strip_prefix(CARET) {
        (Some(Operator::Caret), rest)
    } else if let Some(rest) = word.strip_prefix(EQUALS) {
        (Some(Operator::Equal), rest)
    } else if let Some(rest) = word.strip_prefix(GREATER) {
        or_equal(Operator::Above, Operator::AtLeast, rest)
    } else if let Some(rest) = word.strip_prefix(LESS) {
        or_equal(Operator::Below, Operator::AtMost, rest)
    } else {
        (None, word)
    }
}

fn or_equal(alone: Operator, equal: Operator, rest: &str) -> (Option<Operator>, &str)
    ensures operator { result.0 ≡ (spec.or_equal alone equal rest.now).0 }
    ensures rest { result.1.now ≡ (spec.or_equal alone equal rest.now).1 }
{
    match rest.strip_prefix(EQUALS) {
        Some(rest) => (Some(equal), rest),
        None => (Some(alone), rest),
    }
}

/// What the words of a set say so far: bounds, and an operator whose version is the next word.
#[derive(Drop)]
struct Reader {
    waiting: Option<Operator>,
    bounds: Vec<Bound>,
}

impl Reader {
    fn take(&mut self, alloc: Global, operator: Operator, word: &str) -> Result<(), RangeErr>
        ensures ok { OnOk result
            ((self.new.waiting ≡ None)
            × (spec.both (Some self.old.bounds.items)
            (spec.comparator operator (spec.version word.now)) ≡ Some self.new.bounds.items)) }
        ensures err { IfErr result (MayRefuse (spec.version word.now)) }
    {
        let (numbers, pre) = read_version(alloc, word)?;
        add_bounds(alloc, &mut self.bounds, operator, numbers, pre)?;
        self.waiting = None;
        Ok(())
    }

    /// Reads a word that is not empty.
    fn read_word(&mut self, alloc: Global, word: &str) -> Result<(), RangeErr>
        ensures { Reads self.old (word.now ∷ []) result self.new }
    {
        if word.is_empty() {
            return Ok(());
        }
        if let Some(operator) = self.waiting {
            return self.take(alloc, operator, word);
        }
        let (operator, rest) = operator_at(word);
        if rest.is_empty() {
            self.waiting = operator;
            return Ok(());
        }
        self.take(alloc, operator.unwrap_or(Operator::Equal), rest)
    }

    /// Reads the words between the tabs of a piece.
    fn read_piece(&mut self, alloc: Global, piece: &str) -> Result<(), RangeErr>
        ensures { Reads self.old (slice_split (λ b. b == TAB) piece.now) result self.new }
    {
        for word in piece.split(TAB) {
            self.read_word(alloc, word)?;
        }
        Ok(())
    }
}

/// The bounds of a set.
fn read_set(alloc: Global, text: &str) -> Result<Vec<Bound>, RangeErr>
    ensures ok { IfOk result (λ set. spec.set text.now ≡ Some set.items) }
    ensures err { IfErr result (MayRefuse (spec.set text.now)) }
{
    let mut reader = Reader {
        waiting: None,
        bounds: Vec::new(alloc),
    };
    for piece in text.split(SPACE) {
        reader.read_piece(alloc, piece)?;
    }
    match reader.waiting {
        None => Ok(reader.bounds),
        Some(_) => Err(RangeErr::NotARange),
    }
}

/// The bounds of comparators that all have to hold.
#[derive(Debug, Drop)]
struct Set {
    bounds: Vec<Bound>,
}

impl Model for Set {
    ghost use Rattle.std.specs.Prelude.{List};
    ghost use Rattle.npm_range.specs.Limits as spec;

    ghost Value = { List spec.Bound };

    ghost view = { λ s. s.bounds.items };
}

/// A range, which contracts see as its sets, each the list of its bounds.
#[derive(Debug, Drop)]
pub struct Range {
    sets: Vec<Set>,
}

impl Model for Range {
    ghost use Rattle.std.specs.Prelude.{List};
    ghost use Rattle.npm_range.specs.Limits as spec;

    ghost Value = { List (List spec.Bound) };

    ghost view = { λ r. r.sets.items };
}

impl Set {
    fn admits(&self, version: &Version) -> bool
        ensures { result ≡ set_admits (release_of version.now) self.now }
    {
        is_admitted(self.bounds.as_slice(), version)
    }
}

fn read_sets(alloc: Global, text: &str) -> Result<Vec<Set>, RangeErr>
    ensures ok { IfOk result (λ sets. spec.range text.now ≡ Some sets.items) }
    ensures err { IfErr result (MayRefuse (spec.range text.now)) }
{
    let mut sets = Vec::new(alloc);
    let mut is_set = true;
    for piece in text.split(BAR) {
        if is_set {
            let bounds = read_set(alloc, piece)?;
            sets.push(Set { bounds })?;
        } else if !piece.is_empty() {
            return Err(RangeErr::NotARange);
        }
        is_set = !is_set;
    }
    if is_set {
        Err(RangeErr::NotARange)
    } else {
        Ok(sets)
    }
}

impl Range {
    /// The range that the text writes; `NotARange` exactly where the grammar has no reading of it.
    pub fn read(alloc: Global, text: &str) -> Result<Range, RangeErr>
        ensures ok { IfOk result (λ range. spec.range text.now ≡ Some range) }
        ensures err { IfErr result (MayRefuse (spec.range text.now)) }
    {
        let sets = read_sets(alloc, text)?;
        Ok(Range { sets })
    }

    fn sets(&self) -> &[Set]
        ensures { result.now ≡ self.now }
    {
        self.sets.as_slice()
    }

    /// Whether one of the sets admits the version. Takes no memory.
    #[tactic(auto, unfolding(crate::specs::Limits::admits))]
    pub fn admits(&self, version: &Version) -> bool
        ensures { result ≡ admits self.now (release_of version.now) }
    {
        self.sets().iter().any(|set| set.admits(version))
    }
}
