// Tasks by package and name.
ghost use Rattle.std.specs.Prelude.{◌≡◌, IfOk, string_bytes};
ghost use Rattle.page.specs.Tasks.{task_name, joined};

use std::alloc::{AllocError, Global};
use turbo_config::TaskId;

/// `package#task`
pub fn task_name(alloc: Global, task: &TaskId) -> Result<String, AllocError>
    ensures name { IfOk result (λ name. string_bytes name ≡ task_name task.now) }
{
    let package = task.package.as_str();
    let task = task.task.as_str();
    Ok(format!(in alloc; "{package}#{task}")?)
}

/// The tasks in their order, with this text between each two.
pub fn joined(alloc: Global, between: &str, tasks: &[TaskId]) -> Result<String, AllocError>
    ensures text { IfOk result (λ text. string_bytes text ≡ joined between.now tasks.now) }
{
    let mut text = String::new(alloc);
    let mut rest = tasks;
    while let Some((task, more)) = rest.split_first() {
        text.push_str(task.package.as_str())?;
        text.push('#')?;
        text.push_str(task.task.as_str())?;
        if !more.is_empty() {
            text.push_str(between)?;
        }
        rest = more;
    }
    Ok(text)
}
