// What is printed.
ghost use Rattle.std.specs.Prelude.{◌≡◌, ◌++◌, ◌∷◌, [], ◌<◌, ℕ, length, string_bytes, IfOk, OnOk};
ghost use Rattle.workspaces.specs.Reach.{AreBelow};
ghost use Rattle.workspaces.specs.Space.{owners};
ghost use Rattle.prune.specs.Cause.{HasCause, counts_of};
ghost use Rattle.prune.specs.Printed.{named_line, added_lines};
ghost use Rattle.prune.specs.Steps.{OnlyMemory, packages_at, IsPutFault, PutsText};

use crate::PruneErr;
use rel_path::Text;
use std::alloc::Global;
use tree_dev::{DevErr, Sink};
use workspaces::Packages;

const ADDED: &str = " - Added ";

const LINE_FEED: &str = "\n";

fn add_line(text: &mut String, name: &Text) -> Result<(), PruneErr>
    ensures added { OnOk result
        (string_bytes text.new ≡ string_bytes text.old ++ named_line name.now) }
    ensures memory { OnlyMemory result }
{
    text.push_str(ADDED)?;
    text.push_str(name.as_str())?;
    text.push_str(LINE_FEED)?;
    Ok(())
}

/// A line for the owner, where it is a package.
fn add_owner(text: &mut String, packages: &Packages, number: u32) -> Result<(), PruneErr>
    requires { number < length (owners packages.now) }
    ensures added { OnOk result (string_bytes text.new ≡ string_bytes text.old
        ++ added_lines (packages_at packages.now (number ∷ []))) }
    ensures memory { OnlyMemory result }
{
    if number < packages.count() {
        add_line(text, packages.name(number))
    } else {
        Ok(())
    }
}

/// A line for each package of these owners.
fn added_text(alloc: Global, packages: &Packages, numbers: &[u32]) -> Result<String, PruneErr>
    requires { AreBelow (length (owners packages.now)) numbers.now }
    ensures value { IfOk result (λ text. string_bytes text
        ≡ added_lines (packages_at packages.now numbers.now)) }
    ensures memory { OnlyMemory result }
{
    let mut text = String::new(alloc);
    for number in numbers {
        add_owner(&mut text, packages, *number)?;
    }
    Ok(text)
}

/// Puts a line for each package of these owners.
pub(crate) fn put_lines<K: Sink>(
    alloc: Global,
    out: &mut K,
    packages: &Packages,
    numbers: &[u32],
) -> Result<(), PruneErr>
    requires { AreBelow (length (owners packages.now)) numbers.now }
    ensures fault { IsPutFault result }
    ensures prints { K.tells → PutsText (added_lines (packages_at packages.now numbers.now))
        (K.written out.old) (K.written out.new) result }
    ensures cause { (tree : ℕ) → HasCause (counts_of tree (K.faults out.old))
        (counts_of tree (K.faults out.new)) result }
{
    let text = match added_text(alloc, packages, numbers) {
        Ok(text) => text,
        Err(_) => return Err(PruneErr::OutOfMemory),
    };
    match out.put(alloc, text.as_bytes()) {
        Ok(()) => Ok(()),
        Err(DevErr::Failed) => Err(PruneErr::SinkFailed),
        Err(DevErr::OutOfMemory) => Err(PruneErr::OutOfMemory),
    }
}
