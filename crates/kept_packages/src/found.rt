// Numbers that were found.
ghost use Rattle.std.specs.Prelude.{◌≡◌, ◌++◌, option_to_list, OnOk};
ghost use Rattle.kept_packages.specs.Steps.{OnlyMemory};

use crate::KeptErr;

/// Adds the number, if there is one.
pub(crate) fn add_number(found: &mut Vec<u32>, number: Option<u32>) -> Result<(), KeptErr>
    ensures added { OnOk result (found.new.items ≡ found.old.items ++ option_to_list number) }
    ensures memory { OnlyMemory result }
{
    if let Some(number) = number {
        found.push(number)?;
    }
    Ok(())
}
