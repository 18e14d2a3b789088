// The parts of a pattern, by its components.
ghost use Rattle.std.specs.Prelude.{◌≡◌, ◌++◌, IfOk, OnOk};
ghost use Rattle.ignore_rules.specs.Parts.{is_double, any_name, parts_written, parts_of};

use crate::sign::Sign;
use glob_syntax::{Atom, Name, Part};
use std::alloc::{AllocError, Global};
use std::marker::Model;

/// The parts of a pattern, which contracts see as their list.
#[derive(Debug, Drop)]
pub(crate) struct Parts {
    parts: Vec<Part>,
}

impl Model for Parts {
    ghost use Rattle.std.specs.Prelude.{List};
    ghost use Rattle.glob_syntax.specs.declared.part.Part.{Part};

    ghost Value = { List Part };

    ghost view = { λ p. p.parts.items };
}

impl Parts {
    /// The parts that the signs write.
    pub fn read(alloc: Global, signs: Vec<Sign>) -> Result<Parts, AllocError>
        ensures { IfOk result (λ parts. parts ≡ parts_of signs.items) }
    {
        let parts = read_parts(alloc, signs)?;
        Ok(Parts { parts })
    }

    pub fn as_slice(&self) -> &[Part]
        ensures { result.now ≡ self.now }
    {
        self.parts.as_slice()
    }
}

/// Whether it is `**`.
fn is_double(atoms: &[Atom]) -> bool
    ensures { result ≡ is_double atoms.now }
{
    match atoms {
        [first, second] => first.is_star() && second.is_star(),
        _ => false,
    }
}

/// The part that takes any one component.
fn any_name(alloc: Global) -> Result<Part, AllocError>
    ensures { IfOk result (λ part. part ≡ any_name) }
{
    let mut atoms = Vec::new(alloc);
    atoms.push(Atom::Star)?;
    Ok(Part::Named(Name::new(atoms)))
}

/// Adds the parts that the component writes, by whether a plain `/` follows it.
fn push_component(
    alloc: Global,
    parts: &mut Vec<Part>,
    atoms: Vec<Atom>,
    plain_follows: bool,
) -> Result<(), AllocError>
    ensures { OnOk result (parts.new.items
        ≡ parts.old.items ++ parts_written (atoms.items, plain_follows)) }
{
    if !is_double(&atoms) {
        parts.push(Part::Named(Name::new(atoms)))?;
        return Ok(());
    }
    parts.push(Part::Span)?;
    if !plain_follows {
        parts.push(any_name(alloc)?)?;
    }
    Ok(())
}

fn read_parts(alloc: Global, signs: Vec<Sign>) -> Result<Vec<Part>, AllocError>
    ensures { IfOk result (λ r. r.items ≡ parts_of signs.items) }
{
    let mut parts = Vec::new(alloc);
    let mut component = Vec::new(alloc);
    for sign in signs {
        match sign {
            Sign::Slash { quoted } => {
                push_component(alloc, &mut parts, component, !quoted)?;
                component = Vec::new(alloc);
            }
            Sign::Atom(atom) => component.push(atom)?,
        }
    }
    push_component(alloc, &mut parts, component, false)?;
    Ok(parts)
}
