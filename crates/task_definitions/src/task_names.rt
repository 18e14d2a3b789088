// The names of tasks.
ghost use Rattle.std.specs.Prelude.{◌∷◌, [], Some, IfOk, OnOk, IsOkUnless};
ghost use Rattle.std.specs.Map.{keys_of};
ghost use Rattle.task_definitions.specs.Sets.{HasThose, Gains};
ghost use Rattle.task_definitions.specs.Setup.{ends_in, is_tail, is_plain_among, is_plain_own, is_script_task, is_file_name};

use rel_path::Text;
use std::alloc::Global;
use std::collections::{BTreeMap, BTreeSet};
use turbo_config::names::{behind_hash, has_hash, is_task_name};
use turbo_config::{ConfigErr, PackageConfig, Tasks};

/// Adds the task of a key `package#task`.
fn add_tail(alloc: Global, tails: &mut BTreeSet<Text>, key: &str) -> Result<(), ConfigErr>
    ensures added { OnOk result (Gains (is_tail key.now) tails.old tails.new) }
    ensures memory { IsOkUnless result ConfigErr.OutOfMemory }
{
    let Some(task) = behind_hash(key) else {
        return Ok(());
    };
    tails.insert(Text::read(alloc, task)?)?;
    Ok(())
}

/// The tasks of the keys `package#task`.
#[tactic(auto, unfolding(crate::specs::Setup::ends_in))]
pub(crate) fn tails_of(alloc: Global, tasks: &Tasks) -> Result<BTreeSet<Text>, ConfigErr>
    ensures value { IfOk result (HasThose (ends_in (Some tasks.now))) }
    ensures memory { IsOkUnless result ConfigErr.OutOfMemory }
{
    let mut tails = BTreeSet::new(alloc);
    for key in tasks.entries().keys() {
        add_tail(alloc, &mut tails, key.as_str())?;
    }
    Ok(tails)
}

/// Adds a name without `#`.
fn add_name(names: &mut BTreeSet<Text>, name: &Text) -> Result<(), ConfigErr>
    ensures added { OnOk result (Gains (is_plain_among (name.now ∷ [])) names.old names.new) }
    ensures memory { IsOkUnless result ConfigErr.OutOfMemory }
{
    if has_hash(name.as_str()) {
        return Ok(());
    }
    names.insert(name.copy()?)?;
    Ok(())
}

/// Adds the keys without `#`.
fn add_keys(names: &mut BTreeSet<Text>, tasks: &Tasks) -> Result<(), ConfigErr>
    ensures added { OnOk result (Gains (is_plain_among (keys_of tasks.now)) names.old names.new) }
    ensures memory { IsOkUnless result ConfigErr.OutOfMemory }
{
    for key in tasks.entries().keys() {
        add_name(names, key)?;
    }
    Ok(())
}

/// Adds those of a set.
fn add_set(names: &mut BTreeSet<Text>, more: &BTreeSet<Text>) -> Result<(), ConfigErr>
    ensures added { OnOk result (Gains (is_plain_among more.now.keys) names.old names.new) }
    ensures memory { IsOkUnless result ConfigErr.OutOfMemory }
{
    for name in more {
        add_name(names, name)?;
    }
    Ok(())
}

/// Adds those of the packages' files.
fn add_own(
    names: &mut BTreeSet<Text>,
    packages: &BTreeMap<Text, PackageConfig>,
) -> Result<(), ConfigErr>
    ensures added { OnOk result (Gains (is_plain_own packages.now.entries) names.old names.new) }
    ensures memory { IsOkUnless result ConfigErr.OutOfMemory }
{
    for file in packages.values() {
        add_keys(names, &file.tasks)?;
    }
    Ok(())
}

/// Adds a name that a task may have.
fn add_script(names: &mut BTreeSet<Text>, script: &Text) -> Result<(), ConfigErr>
    ensures added { OnOk result (Gains (is_script_task (script.now ∷ [])) names.old names.new) }
    ensures memory { IsOkUnless result ConfigErr.OutOfMemory }
{
    if !is_task_name(script.as_str()) {
        return Ok(());
    }
    names.insert(script.copy()?)?;
    Ok(())
}

/// The names of scripts that a task may have.
pub(crate) fn script_names(
    alloc: Global,
    scripts: &BTreeSet<Text>,
) -> Result<BTreeSet<Text>, ConfigErr>
    ensures value { IfOk result (HasThose (is_script_task scripts.now.keys)) }
    ensures memory { IsOkUnless result ConfigErr.OutOfMemory }
{
    let mut names = BTreeSet::new(alloc);
    for script in scripts {
        add_script(&mut names, script)?;
    }
    Ok(names)
}

/// The names without `#` of the root's keys, of the tails of these, and of the packages' files.
pub(crate) fn file_names(
    alloc: Global,
    tasks: &Tasks,
    tails: &BTreeSet<Text>,
    packages: &BTreeMap<Text, PackageConfig>,
) -> Result<BTreeSet<Text>, ConfigErr>
    requires { HasThose (ends_in (Some tasks.now)) tails.now }
    ensures value { IfOk result (HasThose (is_file_name tasks.now packages.now.entries)) }
    ensures memory { IsOkUnless result ConfigErr.OutOfMemory }
{
    let mut names = BTreeSet::new(alloc);
    add_keys(&mut names, tasks)?;
    add_set(&mut names, tails)?;
    add_own(&mut names, packages)?;
    Ok(names)
}
