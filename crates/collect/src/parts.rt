// The parts of a listing.
ghost use Rattle.std.specs.Prelude.{◌≡◌, ◌<◌, ◌++◌, length, IfOk};
ghost use Rattle.std.specs.List.{AllByRecursion, HoldsAt};
ghost use Rattle.env_select.specs.Choice.{is_hashed, IsChosen};
ghost use Rattle.workspaces.specs.Space.{owners};
ghost use Rattle.collect.specs.Parts.{texts_at};
ghost use Rattle.collect.specs.Steps.{OnlyMemory, AreFit, AreMade, IsMadeFrom, IsFitJob, IsFitSource, inputs_at, out_set_by};

use crate::scripts::scripts_of;
use crate::{CollectErr, Wanted};
use env_select::{EnvList, hashed};
use globs::{GlobList, OutSet};
use listing::{Part, Parts};
use rel_path::{Pairs, Paths, Places, RelPath, Text, Texts};
use std::alloc::Global;
use task_inputs::{Declared, DefinedTask};
use turbo_config::TaskDef;
use workspaces::Packages;

/// What the parts of all tasks are made of.
#[derive(Drop)]
pub(crate) struct Source<'a> {
    pub packages: &'a Packages,
    pub declared: &'a Declared,
    /// What tasks of the root must not declare.
    pub exclusions: &'a Texts,
    /// The variables that count for every task.
    pub globals: &'a EnvList,
    pub env: &'a [(Text, Text)],
    pub walk: &'a [RelPath],
    /// Which walked files were found.
    pub found: &'a [bool],
}

/// What the part of one task is made of.
#[derive(Drop)]
pub(crate) struct Job<'a> {
    pub wanted: &'a Wanted,
    pub task: &'a DefinedTask,
    /// The places of its inputs in the walk.
    pub row: &'a Places,
    /// The installed packages that its owner uses.
    pub uses: &'a Pairs,
}

/// The outputs of a task, with the texts behind them where its folder is the root.
fn outputs_of(
    alloc: Global,
    folder: &RelPath,
    outputs: &Texts,
    texts: &Texts,
) -> Result<GlobList, CollectErr>
    ensures value { IfOk result (λ list. list ≡ outputs.now ++ texts_at texts.now folder.now) }
    ensures memory { OnlyMemory result }
{
    let mut all = outputs.copy()?;
    if folder.components().is_empty() {
        for text in texts.as_slice() {
            all.push(text.copy()?)?;
        }
    }
    Ok(GlobList::read(alloc, &all)?)
}

/// The output set of a task.
fn out_set(
    alloc: Global,
    source: &Source,
    owner: u32,
    task: &Text,
    def: &TaskDef,
) -> Result<OutSet, CollectErr>
    requires number { owner < length (owners source.now.packages.now) }
    requires same { length source.now.declared.now ≡ length (owners source.now.packages.now) }
    ensures value { IfOk result (λ outs. HoldsAt (λ p. HoldsAt (λ home.
        outs ≡ out_set_by source.now.exclusions.now p.folder home task.now def.now)
        source.now.declared.now owner) (owners source.now.packages.now) owner) }
    ensures memory { OnlyMemory result }
{
    let folder = source.packages.folder(owner).copy()?;
    let mine = outputs_of(alloc, &folder, &def.outputs, source.exclusions)?;
    let others = source.declared.others(alloc, owner, task)?;
    Ok(OutSet {
        folder,
        mine,
        others,
    })
}

/// The environment variables that count for a task.
fn env_of(
    alloc: Global,
    def: &TaskDef,
    globals: &EnvList,
    env: &[(Text, Text)],
) -> Result<Pairs, CollectErr>
    ensures value { IfOk result (IsChosen (is_hashed def.now.env globals.now) env.now) }
    ensures memory { OnlyMemory result }
{
    let list = EnvList::read(alloc, &def.env)?;
    let pairs = hashed(alloc, &list, globals, env)?;
    Ok(pairs)
}

/// The walked paths at these places that were found.
fn inputs_of(
    alloc: Global,
    walk: &[RelPath],
    found: &[bool],
    row: &[u32],
) -> Result<Paths, CollectErr>
    requires same { length found.now ≡ length walk.now }
    requires below { AllByRecursion (λ k. k < length walk.now) row.now }
    ensures value { IfOk result (λ paths. paths ≡ inputs_at walk.now found.now row.now) }
    ensures memory { OnlyMemory result }
{
    let mut paths = Paths::new(alloc);
    for place in row {
        let at = *place as usize;
        if found[at] {
            paths.push(walk[at].copy()?)?;
        }
    }
    Ok(paths)
}

/// The part of a task.
fn part_of(alloc: Global, source: &Source, job: &Job) -> Result<Part, CollectErr>
    requires source { IsFitSource source.now }
    requires job { IsFitJob source.now job.now }
    ensures value { IfOk result (IsMadeFrom source.now
        job.now.wanted.now job.now.task.now job.now.row.now job.now.uses.now) }
    ensures memory { OnlyMemory result }
{
    let id = &job.wanted.id;
    let owner = job.task.owner;
    let def = &job.task.def;
    let scripts = source.packages.manifest(owner).scripts.as_slice();
    Ok(Part {
        package: id.package.copy()?,
        folder: source.packages.folder(owner).copy()?,
        task: id.task.copy()?,
        scripts: scripts_of(alloc, scripts, &id.task)?,
        args: job.wanted.args.copy()?,
        outs: out_set(alloc, source, owner, &id.task, def)?,
        env: env_of(alloc, def, source.globals, source.env)?,
        inputs: inputs_of(alloc, source.walk, source.found, job.row.as_slice())?,
        externals: job.uses.copy()?,
        deps: job.wanted.deps.copy()?,
    })
}

/// The parts of the tasks.
pub(crate) fn all_parts(
    alloc: Global,
    source: &Source,
    wanted: &[Wanted],
    tasks: &[DefinedTask],
    rows: &[Places],
    uses: &[Pairs],
) -> Result<Parts, CollectErr>
    requires source { IsFitSource source.now }
    requires fit { AreFit (length (owners source.now.packages.now)) (length source.now.walk.now)
        wanted.now tasks.now rows.now uses.now }
    ensures value { IfOk result
        (AreMade (IsMadeFrom source.now) wanted.now tasks.now rows.now uses.now) }
    ensures memory { OnlyMemory result }
{
    let mut parts = Parts::new(alloc);
    for (place, task) in wanted.iter().enumerate() {
        let job = Job {
            wanted: task,
            task: &tasks[place],
            row: &rows[place],
            uses: &uses[place],
        };
        parts.push(part_of(alloc, source, &job)?)?;
    }
    Ok(parts)
}
