// What a plan says of a task, by its place.
ghost use Rattle.std.specs.Prelude.{◌≡◌, ◌<◌, length, map, IfOk};
ghost use Rattle.run_laws.specs.Ancestors.{part_at, has_script};
ghost use Rattle.run_plan.specs.Memory.{OnlyMemory};
ghost use Rattle.run_plan.specs.Plans.{id_at, given_at, caches, bypasses, log_mode};

use crate::{Plan, PlanErr};
use listing::Part;
use rel_path::{Pairs, Places};
use std::alloc::Global;
use turbo_config::{LogMode, TaskId};

/// Whether the part has a script.
pub fn runs(part: &Part) -> bool
    ensures { result ≡ has_script part.now }
{
    !part.scripts.as_slice().is_empty()
}

impl Plan {
    /// How many tasks it has.
    pub fn size(&self) -> usize
        ensures { result ≡ length self.now.listing.parts }
    {
        self.listing.parts.as_slice().len()
    }

    pub fn part(&self, place: u32) -> &Part
        requires { place < length self.now.listing.parts }
        ensures { result.now ≡ part_at self.now.listing place }
    {
        &self.listing.parts.as_slice()[place as usize]
    }

    pub fn id(&self, place: u32) -> &TaskId
        requires { place < length self.now.ids }
        ensures { result.now ≡ id_at self.now place }
    {
        &self.ids.as_slice()[place as usize]
    }

    /// The variables that are passed on to the task's command.
    pub fn passed(&self, place: u32) -> &Pairs
        requires { place < length self.now.given }
        ensures { result.now ≡ given_at self.now place }
    {
        &self.given.as_slice()[place as usize]
    }

    /// Whether the task runs a command.
    pub fn has_script(&self, place: u32) -> bool
        requires { place < length self.now.listing.parts }
        ensures { result ≡ has_script (part_at self.now.listing place) }
    {
        runs(self.part(place))
    }

    /// Whether the task's result may be put into the cache.
    pub fn caches(&self, place: u32) -> bool
        ensures { result ≡ caches self.now place }
    {
        match self.defs.as_slice().get(place as usize) {
            Some(def) => def.cache,
            None => true,
        }
    }

    /// Whether nothing is looked up for the task.
    pub fn bypasses(&self, place: u32) -> bool
        ensures { result ≡ bypasses self.now place }
    {
        self.force || !self.caches(place)
    }

    /// Which of the task's lines are shown.
    pub fn log_mode(&self, place: u32) -> LogMode
        ensures { result ≡ log_mode self.now place }
    {
        match self.logs {
            Some(mode) => mode,
            None => match self.defs.as_slice().get(place as usize) {
                Some(def) => def.logs,
                None => LogMode::Full,
            },
        }
    }

    /// The dependencies of each task.
    pub fn deps(&self, alloc: Global) -> Result<Vec<Places>, PlanErr>
        ensures deps { IfOk result
            (λ deps. deps.items ≡ map (λ part. part.deps) self.now.listing.parts) }
        ensures memory { OnlyMemory result }
    {
        let mut deps = Vec::with_capacity(alloc, self.size())?;
        for part in self.listing.parts.as_slice() {
            deps.push(part.deps.copy()?)?;
        }
        Ok(deps)
    }

    /// Which tasks run a command.
    pub fn scripts(&self, alloc: Global) -> Result<Vec<bool>, PlanErr>
        ensures scripts { IfOk result
            (λ scripts. scripts.items ≡ map has_script self.now.listing.parts) }
        ensures memory { OnlyMemory result }
    {
        let mut scripts = Vec::with_capacity(alloc, self.size())?;
        for part in self.listing.parts.as_slice() {
            scripts.push(runs(part))?;
        }
        Ok(scripts)
    }
}
