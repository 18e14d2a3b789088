// The commands of tasks.
ghost use Rattle.std.specs.Prelude.{◌≡◌, ◌++◌, ◌<◌, ◌-◌, length, map, take, IfOk, OnOk};
ghost use Rattle.run_laws.specs.Ancestors.{has_script};
ghost use Rattle.run_plan.specs.Memory.{OnlyMemory};
ghost use Rattle.run_plan.specs.Plans.{IsValidPlan};
ghost use Rattle.run_plan.specs.Commands.{outs_of, externals_of, command_of};

use crate::{Plan, PlanErr};
use closures::excerpt;
use globs::OutSets;
use listing::{FileIn, PartIn};
use rel_path::{Pairs, Paths};
use spawn_dev::Command;
use std::alloc::Global;

// Whether the part has a script.
fn runs(part: &PartIn<'_>) -> bool
    ensures { result ≡ has_script part.now }
{
    !part.scripts().as_slice().is_empty()
}

// The output sets of the parts that have a script.
fn outs_of(alloc: Global, parts: &[PartIn<'_>]) -> Result<OutSets, PlanErr>
    ensures outs { IfOk result (λ outs. outs ≡ outs_of parts.now) }
    ensures memory { OnlyMemory result }
{
    let mut outs = OutSets::new(alloc);
    for part in parts {
        if runs(part) {
            outs.push(part.outs().copy()?)?;
        }
    }
    Ok(outs)
}

fn push_externals(all: &mut Pairs, part: &PartIn<'_>) -> Result<(), PlanErr>
    ensures pushed { OnOk result (all.new ≡ all.old ++ part.now.externals) }
    ensures memory { OnlyMemory result }
{
    for (location, entry) in part.externals().as_slice() {
        all.push((location.copy()?, entry.copy()?))?;
    }
    Ok(())
}

// The installed packages that the parts use.
fn externals_of(alloc: Global, parts: &[PartIn<'_>]) -> Result<Pairs, PlanErr>
    ensures externals { IfOk result (λ all. all ≡ externals_of parts.now) }
    ensures memory { OnlyMemory result }
{
    let mut all = Pairs::new(alloc);
    for part in parts {
        push_externals(&mut all, part)?;
    }
    Ok(all)
}

fn paths_of(alloc: Global, files: &[FileIn<'_>]) -> Result<Paths, PlanErr>
    ensures paths { IfOk result (λ paths. paths ≡ map (λ f. f.0) files.now) }
    ensures memory { OnlyMemory result }
{
    let mut paths = Paths::new(alloc);
    for file in files {
        paths.push(file.path().copy()?)?;
    }
    Ok(paths)
}

// All but the last.
fn but_last<'s, 'a>(parts: &'s [PartIn<'a>]) -> &'s [PartIn<'a>]
    ensures { result.now ≡ take (length parts.now - 1) parts.now }
{
    &parts[..parts.len().saturating_sub(1)]
}

impl Plan {
    /// The command of the task. It takes about as long as the closure of the task has parts and files.
    #[tactic(auto, unfolding(crate::specs::Commands::command_of))]
    pub fn command(&self, alloc: Global, place: u32) -> Result<Command, PlanErr>
        requires plan { IsValidPlan self.now }
        requires place { place < length self.now.listing.parts }
        ensures command { IfOk result (λ command. command ≡ command_of self.now place) }
        ensures memory { OnlyMemory result }
    {
        let part = self.part(place);
        let closure = excerpt(alloc, &self.listing, place)?;
        let parts = closure.parts();
        Ok(Command {
            place,
            package: part.package.copy()?,
            task: part.task.copy()?,
            dir: part.folder.copy()?,
            scripts: part.scripts.copy()?,
            args: part.args.copy()?,
            env: part.env.copy()?,
            given: self.passed(place).copy()?,
            externals: externals_of(alloc, parts)?,
            reads: paths_of(alloc, closure.files())?,
            above: outs_of(alloc, but_last(parts))?,
            outs: part.outs.copy()?,
        })
    }
}
