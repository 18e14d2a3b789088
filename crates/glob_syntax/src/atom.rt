// The pattern of one component.
ghost use Rattle.std.specs.Prelude.{◌≡◌, IfOk};
ghost use Rattle.std.specs.List.{list_all};
ghost use Rattle.glob_syntax.specs.Atoms.{is_listed, class_takes, accepts, is_char, is_star};
ghost use Rattle.glob_syntax.specs.Match.{spells_name};

use crate::characters::Characters;
use std::alloc::{AllocError, Global};
use std::marker::Model;
use wildcards::Item;

/// A set of characters: those in one of the ranges, or where it is negated all others. A range holds its first and
/// its last character, and is empty where they are reversed.
#[derive(Debug, Drop)]
pub struct Class {
    negated: bool,
    ranges: Vec<(char, char)>,
}

impl Model for Class {
    ghost use Rattle.std.specs.Prelude.{List, ℕ, Bool};

    ghost Value = { Bool × List (ℕ × ℕ) };

    ghost view = { λ c. (c.negated, c.ranges.items) };
}

impl Class {
    pub fn new(negated: bool, ranges: Vec<(char, char)>) -> Class
        ensures { result ≡ (negated, ranges.items) }
    {
        Class { negated, ranges }
    }

    fn copy(&self, alloc: Global) -> Result<Class, AllocError>
        ensures { IfOk result (λ copy. copy ≡ self.now) }
    {
        let ranges = Vec::from_slice(alloc, &self.ranges)?;
        Ok(Class {
            negated: self.negated,
            ranges,
        })
    }

    /// Whether the class has the character.
    pub fn takes(&self, c: char) -> bool
        ensures { result ≡ class_takes self.now c }
    {
        let listed = is_listed(&self.ranges, c);
        if self.negated { !listed } else { listed }
    }
}

fn is_listed(ranges: &[(char, char)], c: char) -> bool
    ensures { result ≡ is_listed ranges.now c }
{
    ranges.iter().any(|range| range.0 <= c && c <= range.1)
}

/// One step of the pattern of a component.
#[derive(Debug, Drop)]
pub enum Atom {
    /// Any run of characters: `*`.
    Star,
    /// Any one character: `?`.
    One,
    /// This character.
    Char(char),
    /// One character of the class.
    OneOf(Class),
}

impl Atom {
    pub(crate) fn copy(&self, alloc: Global) -> Result<Atom, AllocError>
        ensures { IfOk result (λ copy. copy ≡ self.now) }
    {
        match self {
            Atom::Star => Ok(Atom::Star),
            Atom::One => Ok(Atom::One),
            Atom::Char(c) => Ok(Atom::Char(*c)),
            Atom::OneOf(class) => Ok(Atom::OneOf(class.copy(alloc)?)),
        }
    }

    /// Whether it is a plain character.
    fn is_char(&self) -> bool
        ensures { result ≡ is_char self.now }
    {
        matches!(self, Atom::Char(_))
    }

    /// Whether it is `*`.
    pub fn is_star(&self) -> bool
        ensures { result ≡ is_star self.now }
    {
        matches!(self, Atom::Star)
    }
}

impl Item<char> for Atom {
    ghost is_run = { is_star };

    ghost takes = { accepts };

    fn is_run(&self) -> bool {
        self.is_star()
    }

    /// Whether the atom takes this one character. A `*` takes a run and no single character.
    fn takes(&self, c: &char) -> bool {
        match self {
            Atom::Star => false,
            Atom::One => true,
            Atom::Char(d) => *c == *d,
            Atom::OneOf(class) => class.takes(*c),
        }
    }
}

/// The pattern of a component, which contracts see as the list of its atoms.
#[derive(Debug, Drop)]
pub struct Name {
    atoms: Vec<Atom>,
}

impl Model for Name {
    ghost use Rattle.std.specs.Prelude.{List};
    ghost use Rattle.glob_syntax.specs.declared.atom.Atom.{Atom};

    ghost Value = { List Atom };

    ghost view = { λ n. n.atoms.items };
}

impl Name {
    pub fn new(atoms: Vec<Atom>) -> Name
        ensures { result ≡ atoms.items }
    {
        Name { atoms }
    }

    fn atoms(&self) -> &[Atom]
        ensures { result.now ≡ self.now }
    {
        self.atoms.as_slice()
    }

    /// Whether it takes the whole text.
    #[tactic(auto, unfolding(crate::specs::Match::spells_name))]
    pub fn takes(&self, text: &str) -> bool
        ensures { result ≡ spells_name self.now text.now }
    {
        wildcards::spells(self.atoms(), Characters::of(text))
    }

    pub(crate) fn copy(&self, alloc: Global) -> Result<Name, AllocError>
        ensures { IfOk result (λ copy. copy ≡ self.now) }
    {
        let atoms = copy_of(alloc, &self.atoms)?;
        Ok(Name { atoms })
    }

    /// Whether it has no wildcard. A class is one, however many characters it has.
    pub fn is_plain(&self) -> bool
        ensures { result ≡ list_all is_char self.now }
    {
        are_chars(&self.atoms)
    }
}

fn copy_of(alloc: Global, atoms: &[Atom]) -> Result<Vec<Atom>, AllocError>
    ensures { IfOk result (λ copy. copy.items ≡ atoms.now) }
{
    let mut copy = Vec::new(alloc);
    for atom in atoms {
        copy.push(atom.copy(alloc)?)?;
    }
    Ok(copy)
}

fn are_chars(atoms: &[Atom]) -> bool
    ensures { result ≡ list_all is_char atoms.now }
{
    atoms.iter().all(|atom| atom.is_char())
}
