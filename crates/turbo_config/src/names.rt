//! Names of tasks, and the keys of `tasks`: `task` or `package#task`.
ghost use Rattle.std.specs.Prelude.{◌≡◌, IfOk};
ghost use Rattle.std.specs.List.{list_any};
ghost use Rattle.turbo_config.specs.Names.{has_hash, behind_hash, task_of, is_reserved, is_root_name, is_task_name, full_name, text_behind};

use rel_path::Text;
use std::alloc::{AllocError, Global};

/// The root among packages, none of which has this name.
pub const ROOT_NAME: &str = "//";

// Parts a package's name from a task's.
const HASH: u8 = b'#';

// Begins the names that turbo.json itself gives a meaning.
const DOLLAR: u8 = b'$';

// Begins what means a package's dependencies.
const CARET: u8 = b'^';

// The first character that is none of control.
const SPACE: u8 = b' ';

/// Whether the text holds a `#`.
pub fn has_hash(text: &str) -> bool
    ensures { result ≡ has_hash text.now }
{
    text.as_bytes().iter().any(|b| *b == HASH)
}

/// The part behind the first `#`, if there is one. It may be empty.
pub fn behind_hash(key: &str) -> Option<&str>
    ensures { text_behind result ≡ behind_hash key.now }
{
    match key.split_once(HASH as char) {
        Some((_, task)) => Some(task),
        None => None,
    }
}

/// The task of a key of `tasks`, which is `task` or `package#task`.
pub(crate) fn task_of(key: &str) -> &str
    ensures { result.now ≡ task_of key.now }
{
    match behind_hash(key) {
        Some(task) => task,
        None => key,
    }
}

/// Whether this is the name of the root among packages.
pub fn is_root_name(package: &str) -> bool
    ensures { result ≡ is_root_name «package».now }
{
    package == ROOT_NAME
}

fn has_reserved(name: &str) -> bool
    ensures { result ≡ list_any is_reserved name.now }
{
    name.as_bytes()
        .iter()
        .any(|b| *b == HASH || *b == DOLLAR || *b < SPACE)
}

/// Whether a task may have the name: it is not empty, holds no `#`, no `$` and no character below U+0020, and does not
/// begin with a `^`.
#[tactic(auto, unfolding(crate::specs::Names::is_task_name))]
pub fn is_task_name(name: &str) -> bool
    ensures { result ≡ is_task_name name.now }
{
    match name.as_bytes().first() {
        None => false,
        Some(b) => *b != CARET && !has_reserved(name),
    }
}

/// The key `package#task`. Neither part is tested.
pub fn full_name(alloc: Global, package: &str, task: &Text) -> Result<Text, AllocError>
    ensures { IfOk result (λ name. name ≡ full_name «package».now task.now) }
{
    let mut name = String::from_str(alloc, package)?;
    name.push(HASH as char)?;
    name.push_str(task.as_str())?;
    Ok(Text::from_string(name))
}
