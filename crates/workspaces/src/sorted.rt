// Lists in ascending order, each member once.
ghost use Rattle.std.specs.Prelude.{◌≡◌, IfOk};
ghost use Rattle.std.specs.Ordering.{nat_cmp};
ghost use Rattle.rel_path.specs.Paths.{name_cmp, path_cmp};
ghost use Rattle.workspaces.specs.Lists.{ascending};
ghost use Rattle.workspaces.specs.Steps.{OnlyMemory};

use crate::SpaceErr;
use rel_path::{RelPath, Text};

pub(crate) fn sorted_texts(mut texts: Vec<Text>) -> Result<Vec<Text>, SpaceErr>
    ensures value { IfOk result (λ found. found.items ≡ ascending name_cmp texts.items) }
    ensures memory { OnlyMemory result }
{
    texts.sort()?;
    texts.dedup();
    Ok(texts)
}

pub(crate) fn sorted_paths(mut paths: Vec<RelPath>) -> Result<Vec<RelPath>, SpaceErr>
    ensures value { IfOk result (λ found. found.items ≡ ascending path_cmp paths.items) }
    ensures memory { OnlyMemory result }
{
    paths.sort()?;
    paths.dedup();
    Ok(paths)
}

pub(crate) fn sorted_numbers(mut numbers: Vec<u32>) -> Result<Vec<u32>, SpaceErr>
    ensures value { IfOk result (λ found. found.items ≡ ascending nat_cmp numbers.items) }
    ensures memory { OnlyMemory result }
{
    numbers.sort()?;
    numbers.dedup();
    Ok(numbers)
}
