// Log files of tasks.
ghost use Rattle.std.specs.Prelude.{◌≡◌, ◌<◌, length, string_bytes, IfOk};
ghost use Rattle.run_laws.specs.Ancestors.{part_at};
ghost use Rattle.run_laws.specs.Plans.{spelled, log_name, log_path};
ghost use Rattle.run_plan.specs.Memory.{OnlyMemory};

use crate::{Plan, PlanErr};
use rel_path::{RelPath, Text};
use std::alloc::Global;

// A task's name in the name of a file.
fn spelled(alloc: Global, task: &str) -> Result<String, PlanErr>
    ensures name { IfOk result (λ name. string_bytes name ≡ spelled task.now) }
    ensures memory { OnlyMemory result }
{
    let mut name = String::new(alloc);
    for c in task.chars() {
        match c {
            ':' => name.push_str("$colon$")?,
            '/' => name.push_str("$slash$")?,
            _ => name.push(c)?,
        }
    }
    Ok(name)
}

fn log_name(alloc: Global, task: &str) -> Result<Text, PlanErr>
    ensures name { IfOk result (λ name. name ≡ log_name task.now) }
    ensures memory { OnlyMemory result }
{
    let task = spelled(alloc, task)?;
    let task = task.as_str();
    Ok(Text::from_string(format!(in alloc; "turbo-{task}.log")?))
}

impl Plan {
    /// Where the log of the task is kept.
    pub fn log_path(&self, alloc: Global, place: u32) -> Result<RelPath, PlanErr>
        requires { place < length self.now.listing.parts }
        ensures path { IfOk result (λ path. path ≡ log_path (part_at self.now.listing place)) }
        ensures memory { OnlyMemory result }
    {
        let part = self.part(place);
        let name = log_name(alloc, part.task.as_str())?;
        let folder = Text::read(alloc, ".turbo")?;
        Ok(part.folder.child(&folder)?.child(&name)?)
    }
}
