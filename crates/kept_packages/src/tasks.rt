// The owners whose tasks are named in definitions.
ghost use Rattle.std.specs.Prelude.{◌≡◌, ◌<◌, ◌∷◌, [], length, IfOk, OnOk};
ghost use Rattle.turbo_config.specs.Names.{begins_caret};
ghost use Rattle.task_definitions.specs.Setup.{AreNames};
ghost use Rattle.workspaces.specs.Space.{owners};
ghost use Rattle.repository.specs.Reading.{contents_of};
ghost use Rattle.kept_packages.specs.Kept.{NamesTaskOf};
ghost use Rattle.kept_packages.specs.Needs.{Gains, Leads};
ghost use Rattle.kept_packages.specs.Steps.{
  OnlyMemory,
  package_of,
  NamesOwner,
  TaskNames,
  AnyTaskNames,
};

use crate::KeptErr;
use rel_path::Text;
use repository::Repository;
use std::alloc::Global;
use task_definitions::Config;
use workspaces::Packages;

// Begins what means the packages that a package depends on.
const CARET: u8 = b'^';

// Parts a package's name from a task's.
const HASH: char = '#';

fn begins_caret(text: &str) -> bool
    ensures { result ≡ begins_caret text.now }
{
    match text.as_bytes().first() {
        Some(byte) => *byte == CARET,
        None => false,
    }
}

/// What stands before the first `#` of a text `package#task`. A text that begins with `^` is none.
fn package_of(alloc: Global, text: &str) -> Result<Option<Text>, KeptErr>
    ensures value { IfOk result (λ name. name ≡ package_of text.now) }
    ensures memory { OnlyMemory result }
{
    if begins_caret(text) {
        return Ok(None);
    }
    match text.split_once(HASH) {
        None => Ok(None),
        Some((package, _)) => Ok(Some(Text::read(alloc, package)?)),
    }
}

/// Adds the owner that a text `package#task` names, if there is one.
fn add_text(
    alloc: Global,
    packages: &Packages,
    text: &Text,
    found: &mut Vec<u32>,
) -> Result<(), KeptErr>
    ensures added { OnOk result (Gains packages.now
        (NamesOwner packages.now (text.now ∷ [])) found.old.items found.new.items) }
    ensures memory { OnlyMemory result }
{
    let Some(name) = package_of(alloc, text.as_str())? else {
        return Ok(());
    };
    let Some(owner) = packages.owner_of(&name) else {
        return Ok(());
    };
    found.push(owner)?;
    Ok(())
}

/// Adds the owners that texts `package#task` name.
fn add_texts(
    alloc: Global,
    packages: &Packages,
    texts: &[Text],
    found: &mut Vec<u32>,
) -> Result<(), KeptErr>
    ensures added { OnOk result (Gains packages.now
        (NamesOwner packages.now texts.now) found.old.items found.new.items) }
    ensures memory { OnlyMemory result }
{
    for text in texts {
        add_text(alloc, packages, text, found)?;
    }
    Ok(())
}

/// Adds the owners that a task of the owner of this name depends on by their names.
fn add_task(
    alloc: Global,
    packages: &Packages,
    config: &Config,
    owner: &Text,
    task: &Text,
    found: &mut Vec<u32>,
) -> Result<(), KeptErr>
    ensures added { OnOk result (Gains packages.now
        (TaskNames packages.now config.now owner.now task.now) found.old.items found.new.items) }
    ensures memory { OnlyMemory result }
{
    if let Some(def) = config.task_def(alloc, owner, task)? {
        add_texts(alloc, packages, def.depends_on.as_slice(), found)?;
    }
    Ok(())
}

/// Adds the owners that tasks of the owner of this name depend on by their names.
fn add_tasks(
    alloc: Global,
    packages: &Packages,
    config: &Config,
    owner: &Text,
    tasks: &[Text],
    found: &mut Vec<u32>,
) -> Result<(), KeptErr>
    ensures added { OnOk result (Gains packages.now
        (AnyTaskNames packages.now config.now owner.now tasks.now)
        found.old.items found.new.items) }
    ensures memory { OnlyMemory result }
{
    for task in tasks {
        add_task(alloc, packages, config, owner, task, found)?;
    }
    Ok(())
}

/// Adds the owners that tasks of the owner of this number depend on by their names. `names` are those of all tasks.
pub(crate) fn add_named(
    alloc: Global,
    repository: &Repository,
    names: &[Text],
    owner: u32,
    found: &mut Vec<u32>,
) -> Result<(), KeptErr>
    requires owner { owner < length (owners repository.now.packages) }
    requires names { AreNames repository.now.config names.now }
    ensures added { OnOk result (Gains repository.now.packages
        (Leads repository.now.packages (NamesTaskOf (contents_of repository.now)) (owner ∷ []))
        found.old.items found.new.items) }
    ensures memory { OnlyMemory result }
{
    let packages = &repository.packages;
    let name = packages.name(owner);
    add_tasks(alloc, packages, &repository.config, name, names, found)
}
