// The parts of an alternative, from its tokens.
ghost use Rattle.std.specs.Prelude.{◌≡◌, ◌↔◌, ◌++◌, [], IsTrue, IfOk, IsOkUnless, OnOk, false, map};
ghost use Rattle.std.specs.Option.{option_to_list};
ghost use Rattle.glob_syntax.specs.Pieces.{seen};
ghost use Rattle.glob_syntax.specs.Match.{is_span, takes_component, spells_path, SpellsPath};
ghost use Rattle.glob_syntax.specs.Parts.{atom_of, name_from, part_of, parts_of};

use crate::atom::{Atom, Name};
use crate::error::GlobErr;
use crate::piece::Tokens;
use crate::token::{Sign, Token};
use rel_path::Text;
use std::alloc::{AllocError, Global};
use std::marker::Model;
use wildcards::Item;

/// What stands between two slashes of a glob.
#[derive(Debug, Drop)]
pub enum Part {
    /// `**`: any number of components.
    Span,
    /// One component, by a pattern.
    Named(Name),
}

impl Part {
    fn copy(&self, alloc: Global) -> Result<Part, AllocError>
        ensures { IfOk result (λ copy. copy ≡ self.now) }
    {
        match self {
            Part::Span => Ok(Part::Span),
            Part::Named(name) => Ok(Part::Named(name.copy(alloc)?)),
        }
    }
}

impl Item<Text> for Part {
    ghost is_run = { is_span };

    ghost takes = { takes_component };

    fn is_run(&self) -> bool {
        matches!(self, Part::Span)
    }

    /// Whether the part takes this one component. A `**` takes any number of them and no single one.
    fn takes(&self, component: &Text) -> bool {
        match self {
            Part::Span => false,
            Part::Named(name) => name.takes(component.as_str()),
        }
    }
}

/// Whether the parts take the whole path.
pub fn spells_path(parts: &[Part], path: &[Text]) -> bool
    ensures value { result ≡ spells_path parts.now path.now }
    ensures meaning { IsTrue result ↔ SpellsPath parts.now path.now }
{
    wildcards::spells(parts, path)
}

fn copy_of(alloc: Global, parts: &[Part]) -> Result<Vec<Part>, AllocError>
    ensures { IfOk result (λ copy. copy.items ≡ parts.now) }
{
    let mut copy = Vec::new(alloc);
    for part in parts {
        copy.push(part.copy(alloc)?)?;
    }
    Ok(copy)
}

/// One of the alternatives that the braces of a glob give, which contracts see as its parts.
#[derive(Debug, Drop)]
pub struct Alternative {
    parts: Vec<Part>,
}

impl Model for Alternative {
    ghost use Rattle.std.specs.Prelude.{List};
    ghost use Rattle.glob_syntax.specs.declared.part.Part.{Part};

    ghost Value = { List Part };

    ghost view = { λ a. a.parts.items };
}

impl Alternative {
    pub fn parts(&self) -> &[Part]
        ensures { result.now ≡ self.now }
    {
        self.parts.as_slice()
    }

    pub fn copy(&self) -> Result<Alternative, GlobErr>
        ensures value { IfOk result (λ copy. copy ≡ self.now) }
        ensures memory { IsOkUnless result GlobErr.OutOfMemory }
    {
        let parts = copy_of(*self.parts.allocator(), self.parts())?;
        Ok(Alternative { parts })
    }
}

fn read_atom(alloc: Global, sign: &Sign) -> Result<Atom, AllocError>
    ensures { IfOk result (λ r. r ≡ atom_of sign.now) }
{
    match sign {
        Sign::Open => Ok(Atom::Char('{')),
        Sign::Close => Ok(Atom::Char('}')),
        Sign::Comma => Ok(Atom::Char(',')),
        Sign::Slash => Ok(Atom::Char('/')),
        Sign::OpenClass => Ok(Atom::Char('[')),
        Sign::Atom(atom) => atom.copy(alloc),
    }
}

/// The pattern that a component writes, with one `*` for each run of them.
fn read_name(alloc: Global, component: &[&Token]) -> Result<Vec<Atom>, AllocError>
    ensures { IfOk result (λ r. r.items ≡ name_from false (seen component.now)) }
{
    let mut atoms = Vec::new(alloc);
    let mut after = false;
    for token in component {
        let star = token.is_star();
        if !(star && after) {
            atoms.push(read_atom(alloc, &token.sign)?)?;
        }
        after = star;
    }
    Ok(atoms)
}

fn part_of(alloc: Global, component: &[&Token]) -> Result<Option<Part>, AllocError>
    ensures { IfOk result (λ r. r ≡ part_of (seen component.now)) }
{
    match component {
        [] => return Ok(None),
        [only] => {
            if only.is_dot() {
                return Ok(None);
            }
        }
        [first, second] => {
            if first.is_star() && second.is_star() {
                return Ok(Some(Part::Span));
            }
        }
        _ => {}
    }
    let atoms = read_name(alloc, component)?;
    Ok(Some(Part::Named(Name::new(atoms))))
}

/// Adds the part that the component writes, if it writes one.
fn push_part(alloc: Global, component: &Tokens, parts: &mut Vec<Part>) -> Result<(), AllocError>
    ensures { OnOk result (parts.new.items
        ≡ parts.old.items ++ option_to_list (part_of component.now)) }
{
    if let Some(part) = part_of(alloc, component.as_slice())? {
        parts.push(part)?;
    }
    Ok(())
}

fn read_parts(alloc: Global, tokens: &[&Token]) -> Result<Vec<Part>, AllocError>
    ensures { IfOk result (λ r. r.items ≡ parts_of (seen tokens.now)) }
{
    let mut parts = Vec::new(alloc);
    let mut component = Tokens::new(alloc);
    for token in tokens {
        if token.is_slash() {
            push_part(alloc, &component, &mut parts)?;
            component = Tokens::new(alloc);
        } else {
            component.push(token)?;
        }
    }
    push_part(alloc, &component, &mut parts)?;
    Ok(parts)
}

/// The alternatives that the lines of tokens write.
pub(crate) fn read_lines(alloc: Global, lines: &[Tokens]) -> Result<Vec<Alternative>, AllocError>
    ensures { IfOk result (λ r. r.items ≡ map parts_of lines.now) }
{
    let mut alternatives = Vec::new(alloc);
    for line in lines {
        let parts = read_parts(alloc, line.as_slice())?;
        alternatives.push(Alternative { parts })?;
    }
    Ok(alternatives)
}
