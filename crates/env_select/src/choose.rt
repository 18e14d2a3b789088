// The pairs of the environment that are chosen by their names.
ghost use Rattle.std.specs.Prelude.{◌≡◌, ◌∷◌, [], ℕ, List, None, OnOk, IfOk, if◌then◌else◌};
ghost use Rattle.std.specs.Option.{option_or};
ghost use Rattle.std.specs.BTreeMap.{get, IsOrdered};
ghost use Rattle.rel_path.specs.Paths.{name_cmp};
ghost use Rattle.env_select.specs.Choice.{first_value, has, chosen, IsChosen, ChosenOnce, is_always_given, is_hashed, is_given};
ghost use Rattle.env_select.specs.Reach.{reach_of, is_wanted};

use crate::error::EnvErr;
use crate::list::EnvList;
use rel_path::{Pairs, Text};
use std::alloc::Global;
use std::collections::BTreeMap;

/// Which variables a command gets beside those that are hashed.
#[derive(Clone, Copy, Debug, PartialEq, Eq)]
pub enum EnvMode {
    /// Those that a list selects, and PATH, HOME, USER, SHELL, TERM, LANG, TZ, TMPDIR and CI.
    Strict,
    /// All.
    Loose,
}

/// The values of names, one of each name.
type Values = BTreeMap<Text, Text>;

/// The names that a call asks for.
#[derive(Clone, Copy, Debug)]
enum Reach {
    /// Those that one of the lists selects.
    Listed,
    /// These, and the names that every command gets.
    Known,
    All,
}

fn reach_of(mode: EnvMode) -> Reach
    ensures { result ≡ reach_of mode }
{
    match mode {
        EnvMode::Strict => Reach::Known,
        EnvMode::Loose => Reach::All,
    }
}

fn is_always_given(name: &str) -> bool
    ensures { result ≡ is_always_given name.now }
{
    name == "PATH"
        || name == "HOME"
        || name == "USER"
        || name == "SHELL"
        || name == "TERM"
        || name == "LANG"
        || name == "TZ"
        || name == "TMPDIR"
        || name == "CI"
}

fn is_wanted(reach: Reach, task: &EnvList, global: &EnvList, name: &Text) -> bool
    ensures { result ≡ is_wanted reach task.now global.now name.now }
{
    match reach {
        Reach::Listed => task.selects(name) || global.selects(name),
        Reach::Known => {
            task.selects(name) || global.selects(name) || is_always_given(name.as_str())
        }
        Reach::All => true,
    }
}

/// Adds the pair where its name has no value yet.
fn add_first(values: &mut Values, pair: &(Text, Text)) -> Result<(), EnvErr>
    ensures { OnOk result ((name : List ℕ)
        → get name_cmp values.new name
        ≡ option_or (get name_cmp values.old name) (first_value (pair.now ∷ []) name)) }
{
    let known = values.contains_key(&pair.0);
    if !known {
        values.insert(pair.0.copy()?, pair.1.copy()?)?;
    }
    Ok(())
}

/// The value of the first pair of each name that is asked for.
fn first_values(
    alloc: Global,
    reach: Reach,
    task: &EnvList,
    global: &EnvList,
    env: &[(Text, Text)],
) -> Result<Values, EnvErr>
    ensures { IfOk result (λ values. (name : List ℕ)
        → get name_cmp values name ≡ chosen (is_wanted reach task.now global.now) env.now name) }
{
    let mut values = BTreeMap::new(alloc);
    for pair in env {
        let wanted = is_wanted(reach, task, global, &pair.0);
        if wanted {
            add_first(&mut values, pair)?;
        }
    }
    Ok(values)
}

/// Takes the names of the pairs out.
fn remove_names(values: &mut Values, pairs: &[(Text, Text)])
    ensures { (name : List ℕ) → get name_cmp values.new name
        ≡ (if has pairs.now name then None else get name_cmp values.old name) }
{
    for pair in pairs {
        values.remove(&pair.0);
    }
}

/// The values as pairs, ascending by name.
fn pairs_of(alloc: Global, values: Values) -> Result<Pairs, EnvErr>
    ensures { IfOk result (λ pairs. (pairs ≡ values.entries) × IsOrdered name_cmp values) }
{
    let items: Vec<(Text, Text)> = values.into_iter().collect(alloc)?;
    Ok(Pairs::from_vec(items))
}

/// The law of chosen pairs: a test of names chooses one list of pairs from an environment.
pub fn choice_law()
    ensures { ChosenOnce }
{}

/// The pairs that count as input of a task: those of the names that the task's list or the global one selects, each
/// list for itself, ascending by name. Of equal names in the environment the first counts.
pub fn hashed(
    alloc: Global,
    task: &EnvList,
    global: &EnvList,
    env: &[(Text, Text)],
) -> Result<Pairs, EnvErr>
    ensures { IfOk result (IsChosen (is_hashed task.now global.now) env.now) }
{
    let values = first_values(alloc, Reach::Listed, task, global, env)?;
    pairs_of(alloc, values)
}

/// The pairs that a command gets beside `taken`, ascending by name: those of the other names that the mode hands on, by
/// the task's list of names to pass through and the global one. Of equal names in the environment the first counts.
pub fn given(
    alloc: Global,
    task: &EnvList,
    global: &EnvList,
    taken: &Pairs,
    env: &[(Text, Text)],
    mode: EnvMode,
) -> Result<Pairs, EnvErr>
    ensures { IfOk result (IsChosen (is_given mode task.now global.now taken.now) env.now) }
{
    let mut values = first_values(alloc, reach_of(mode), task, global, env)?;
    remove_names(&mut values, taken.as_slice());
    pairs_of(alloc, values)
}
