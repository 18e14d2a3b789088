// The page of a dry run.
ghost use Rattle.std.specs.Prelude.{◌≡◌, [], ◌<◌, length, map, IfOk};
ghost use Rattle.std.specs.List.{AllByRecursion};
ghost use Rattle.std.specs.Option.{option_map};
ghost use Rattle.run_plan.specs.Memory.{OnlyMemory};
ghost use Rattle.run_plan.specs.Plans.{IsValidPlan, id_at};
ghost use Rattle.run_plan.specs.DryPages.{own_script, dry_text};

use crate::page_text::push_task;
use crate::{Plan, PlanErr};
use listing::Part;
use page::{DryMark, dry_block};
use rel_path::{Bytes, Text};
use std::alloc::Global;
use turbo_config::TaskIds;

// The task's own script.
fn own_script(part: &Part) -> Option<&Text>
    ensures { option_map (λ text. text.now) result ≡ own_script part.now }
{
    match part.scripts.as_slice() {
        [] => None,
        [_, own, _, ..] => Some(own),
        [own, ..] => Some(own),
    }
}

impl Plan {
    // The tasks at these places.
    fn tasks(&self, alloc: Global, places: &[u32]) -> Result<TaskIds, PlanErr>
        requires { AllByRecursion (λ d. d < length self.now.ids) places.now }
        ensures tasks { IfOk result (λ tasks. tasks ≡ map (id_at self.now) places.now) }
        ensures memory { OnlyMemory result }
    {
        let mut tasks = TaskIds::new(alloc);
        for place in places {
            push_task(&mut tasks, self.id(*place))?;
        }
        Ok(tasks)
    }

    /// The lines of a task in a dry run, with these digits of its fingerprint and this mark.
    #[tactic(auto, unfolding(crate::specs::DryPages::dry_text))]
    pub fn dry_block(
        &self,
        alloc: Global,
        place: u32,
        digits: &Text,
        mark: DryMark,
    ) -> Result<Bytes, PlanErr>
        requires plan { IsValidPlan self.now }
        requires place { place < length self.now.listing.parts }
        ensures text { IfOk result (λ bytes. bytes ≡ dry_text self.now place digits.now mark) }
        ensures memory { OnlyMemory result }
    {
        let part = self.part(place);
        let deps = self.tasks(alloc, part.deps.as_slice())?;
        Ok(dry_block(alloc, self.id(place), digits, mark, own_script(part), &deps)?)
    }
}
