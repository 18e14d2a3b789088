// The globs of a task, and the files that it takes.
ghost use Rattle.std.specs.Prelude.{◌≡◌, ◌<◌, ◌&&◌, length, IfOk};
ghost use Rattle.listing.specs.Memory.{OnlyMemory};
ghost use Rattle.workspaces.specs.Space.{owners};
ghost use Rattle.input_entries.specs.Entries.{rest_where};
ghost use Rattle.task_inputs.specs.Facts.{IsList, IsRead, asks_by, is_at, is_default_at, is_wide_list, takes_by};
ghost use Rattle.task_inputs.specs.Rooted.{far_by};

use crate::definitions::DefinedTask;
use crate::files::{FileFacts, is_file_in};
use input_entries::{InputList, any_reaches, any_wide, has_wide, rest_where};
use listing::ListErr;
use rel_path::{RelPath, Texts};
use std::alloc::Global;
use workspaces::Packages;

/// What a task asks for.
#[derive(Debug, Drop)]
pub(crate) struct TaskGlobs {
    /// The number of its owner.
    pub place: usize,
    /// The folder of its owner.
    pub folder: RelPath,
    /// Its list of inputs, or none for the default set.
    pub inputs: Option<InputList>,
}

fn read_list(alloc: Global, inputs: &Option<Texts>) -> Result<Option<InputList>, ListErr>
    ensures read { IfOk result (IsList inputs.now) }
    ensures memory { OnlyMemory result }
{
    match inputs {
        None => Ok(None),
        Some(texts) => Ok(Some(InputList::read(alloc, texts)?)),
    }
}

/// What the task asks for.
pub(crate) fn read_task(
    alloc: Global,
    packages: &Packages,
    task: &DefinedTask,
) -> Result<TaskGlobs, ListErr>
    requires { task.now.owner < length (owners packages.now) }
    ensures read { IfOk result (IsRead (owners packages.now) task.now) }
    ensures memory { OnlyMemory result }
{
    Ok(TaskGlobs {
        place: task.owner as usize,
        folder: packages.folder(task.owner).copy()?,
        inputs: read_list(alloc, &task.def.inputs)?,
    })
}

fn is_at(home: Option<usize>, place: usize) -> bool
    ensures { result ≡ is_at home place }
{
    match home {
        None => false,
        Some(home) => home == place,
    }
}

/// Whether the file is in the default set of the owner of this number.
fn is_default(file: &FileFacts, place: usize) -> bool
    ensures { result ≡ is_default_at file.now place }
{
    is_at(file.home, place) && !file.ignored
}

impl TaskGlobs {
    /// Whether a glob that is relative to the root may give it a file.
    pub fn is_wide(&self) -> bool
        ensures { result ≡ is_wide_list self.now.inputs }
    {
        match &self.inputs {
            None => false,
            Some(list) => has_wide(&list.globs),
        }
    }

    /// Whether it asks for the file, which has this home, through a glob that is relative to the root.
    pub fn asks_from_root(
        &self,
        alloc: Global,
        home: Option<usize>,
        path: &RelPath,
    ) -> Result<bool, ListErr>
        ensures value { IfOk result (λ asks. asks ≡ far_by home self.now path.now) }
        ensures memory { OnlyMemory result }
    {
        let Some(list) = &self.inputs else {
            return Ok(false);
        };
        if !any_wide(&list.globs, path) {
            return Ok(false);
        }
        let rest = rest_where(alloc, is_at(home, self.place), &self.folder, path)?;
        Ok(!any_reaches(true, &list.globs, path, &rest))
    }

    /// Whether it asks for the file.
    fn asks(&self, alloc: Global, file: &FileFacts, path: &RelPath) -> Result<bool, ListErr>
        ensures value { IfOk result (λ asks. asks ≡ asks_by self.now file.now path.now) }
        ensures memory { OnlyMemory result }
    {
        let default = is_default(file, self.place);
        let Some(list) = &self.inputs else {
            return Ok(default);
        };
        let rest = rest_where(alloc, is_at(file.home, self.place), &self.folder, path)?;
        let included = any_reaches(false, &list.globs, path, &rest) || list.has_default && default;
        Ok(included && !any_reaches(true, &list.globs, path, &rest))
    }

    /// Whether the task takes the file.
    #[tactic(auto, unfolding(crate::specs::Facts::takes_by))]
    pub fn takes(&self, alloc: Global, file: &FileFacts, path: &RelPath) -> Result<bool, ListErr>
        ensures value { IfOk result (λ takes. takes ≡ takes_by self.now file.now path.now) }
        ensures memory { OnlyMemory result }
    {
        if is_file_in(path, &self.folder, "package.json")
            || is_file_in(path, &self.folder, "turbo.json")
        {
            return Ok(true);
        }
        if !file.may_count {
            return Ok(false);
        }
        let asks = self.asks(alloc, file, path)?;
        Ok(asks || file.global)
    }
}
