// The rules of ignore files.
ghost use Rattle.std.specs.Prelude.{◌≡◌, map, IfOk};
ghost use Rattle.ignore_rules.specs.Ignored.{is_ignored};
ghost use Rattle.ignore_rules.specs.Stacks.{rules_in, rules_at};
ghost use Rattle.rel_path.specs.Paths.{AreNames};
ghost use Rattle.collect.specs.Steps.{OnlyMemory, rules_file};

use crate::CollectErr;
use ignore_rules::{Ignore, Stack};
use rel_path::{Bytes, RelPath, Text};
use std::alloc::Global;

/// The path with these components.
fn path_of(alloc: Global, names: &[Text]) -> Result<RelPath, CollectErr>
    requires { AreNames names.now }
    ensures value { IfOk result (λ path. path ≡ names.now) }
    ensures memory { OnlyMemory result }
{
    let mut path = RelPath::root(alloc);
    for name in names {
        path = path.child(name)?;
    }
    Ok(path)
}

/// The rules of an ignore file, which hold in its folder.
fn rules_of(alloc: Global, file: &(RelPath, Bytes)) -> Result<Ignore, CollectErr>
    ensures value { IfOk result (λ rules. rules ≡ rules_file file.now) }
    ensures memory { OnlyMemory result }
{
    let names = file.0.components();
    let folder = match names.split_last() {
        None => RelPath::root(alloc),
        Some((_, above)) => path_of(alloc, above)?,
    };
    let ignore = Ignore::read(alloc, &folder, file.1.as_slice())?;
    Ok(ignore)
}

/// The rules of ignore files.
pub(crate) fn stack_of(alloc: Global, files: &[(RelPath, Bytes)]) -> Result<Stack, CollectErr>
    ensures value { IfOk result (λ stack. is_ignored (rules_in stack)
        ≡ is_ignored (rules_at (map rules_file files.now))) }
    ensures memory { OnlyMemory result }
{
    let mut rules = Vec::new(alloc);
    for file in files {
        rules.push(rules_of(alloc, file)?)?;
    }
    let stack = Stack::new(alloc, rules)?;
    Ok(stack)
}
