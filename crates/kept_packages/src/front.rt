// The owners that were reached.
ghost use Rattle.std.specs.Prelude.{OnOk, length};
ghost use Rattle.workspaces.specs.Marks.{Adds};
ghost use Rattle.workspaces.specs.Reach.{AreBelow};
ghost use Rattle.kept_packages.specs.Steps.{OnlyMemory};

use crate::KeptErr;
use rel_path::Places;

/// Which owners stay, and those of them of which it is still to be seen what they need.
#[derive(Drop)]
pub(crate) struct Front {
    pub(crate) marks: Vec<bool>,
    pub(crate) waiting: Places,
}

/// Marks owners. Those that are new wait.
pub(crate) fn add(front: &mut Front, owners: &[u32]) -> Result<(), KeptErr>
    requires { AreBelow (length front.old.marks.items) owners.now }
    ensures added { OnOk result (Adds owners.now
        front.old.marks.items front.old.waiting front.new.marks.items front.new.waiting) }
    ensures memory { OnlyMemory result }
{
    for owner in owners {
        let at = *owner as usize;
        if !front.marks[at] {
            front.marks[at] = true;
            front.waiting.push(*owner)?;
        }
    }
    Ok(())
}
