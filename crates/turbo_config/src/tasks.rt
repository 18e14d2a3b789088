// The tasks of a file.
ghost use Rattle.std.specs.Prelude.{◌≡◌, [], IfOk, IfSome, IsTrue, OnOk, IsOkUnless};
ghost use Rattle.std.specs.Option.{option_map};
ghost use Rattle.std.specs.BTreeMap.{insert_entry};
ghost use Rattle.serde_json.specs.View.{view};
ghost use Rattle.rel_path.specs.Paths.{name_cmp};
ghost use Rattle.turbo_config.specs.Answers.{Reads, ReadsInto, Passes};
ghost use Rattle.turbo_config.specs.Entries.{at_name, Lends};
ghost use Rattle.turbo_config.specs.Keys.{task_keys};
ghost use Rattle.turbo_config.specs.Reads.{EntryReads};
ghost use Rattle.turbo_config.specs.Tasks.{is_list, is_place, is_foreign, key_fault, list_kind, with_value, with_member, entry_at, task_in, tasks_in, tasks_of};

use crate::entry::Entry;
use crate::error::ConfigErr;
use crate::glob_fault::ListKind;
use crate::keys::{DEPENDS_ON, ENV, INPUTS, OUTPUTS, PASS, WITH, task_keys};
use crate::names::{has_hash, is_task_name, task_of};
use crate::values::{flag_at, list_at, log_mode_at, members_at};
use json_view::pointer_to;
use key_table::{KeyTable, Kind, Row};
use rel_path::Text;
use serde_json::Value;
use std::alloc::Global;
use std::collections::BTreeMap;
use std::marker::Model;

/// Which file is read.
#[derive(Clone, Copy, Debug)]
pub(crate) enum FileKind {
    /// The root's turbo.json.
    Root,
    /// A package's.
    Package,
}

/// The entries of a file by the keys of its `tasks`, which are `task` or `package#task`. Contracts
/// see them as pairs, ascending by key. The lists of globs in them read.
#[derive(Debug, Drop)]
pub struct Tasks {
    entries: BTreeMap<Text, Entry>,
}

impl Model for Tasks {
    ghost use Rattle.std.specs.Prelude.{List, ℕ};
    ghost use Rattle.turbo_config.specs.declared.entry.Entry.{Entry};

    ghost Value = { List (List ℕ × Entry) };

    ghost use Rattle.turbo_config.specs.Reads.{EntriesRead};

    ghost view = { λ t. t.entries.entries };

    ghost invariant = { λ t. EntriesRead t.entries.entries };
}

impl Tasks {
    pub(crate) fn new(alloc: Global) -> Tasks
        ensures { result ≡ [] }
    {
        Tasks {
            entries: BTreeMap::new(alloc),
        }
    }

    fn insert(&mut self, key: Text, entry: Entry) -> Result<(), ConfigErr>
        requires { EntryReads entry }
        ensures value { OnOk result (self.new ≡ insert_entry name_cmp self.old key entry) }
        ensures memory { IsOkUnless result ConfigErr.OutOfMemory }
    {
        self.entries.insert(key, entry)?;
        Ok(())
    }

    /// The entries by their keys.
    pub fn entries(&self) -> &BTreeMap<Text, Entry>
        ensures { result.now.entries ≡ self.now }
    {
        &self.entries
    }

    /// The entry of this key, if there is one.
    pub fn get(&self, key: &Text) -> Option<&Entry>
        ensures value { Lends (at_name self.now key.now) result }
        ensures reads { IfSome result (λ e. EntryReads e.now) }
    {
        self.entries.get(key)
    }
}

fn list_kind(place: u8) -> ListKind
    requires { IsTrue (is_list place) }
    ensures { result ≡ list_kind place }
{
    match place {
        INPUTS => ListKind::Inputs,
        OUTPUTS => ListKind::Globs,
        DEPENDS_ON | ENV | PASS | WITH => ListKind::Texts,
        _ => unreachable!(),
    }
}

/// Adds the key of this row to the entry.
fn read_value(
    alloc: Global,
    row: Row,
    at: &str,
    value: &Value,
    entry: &mut Entry,
) -> Result<(), ConfigErr>
    requires { IsTrue (is_place row.kind row.place) }
    ensures { ReadsInto
        (with_value row.kind row.place at.now (view value.now) entry.old) result entry.new }
{
    match row.kind {
        Kind::Flag => entry.set_flag(row.place, flag_at(alloc, at, value)?),
        Kind::Choice => entry.set_mode(row.place, log_mode_at(alloc, at, value)?),
        Kind::Words => {
            let texts = list_at(alloc, list_kind(row.place), at, value)?;
            entry.set_list(row.place, texts);
        }
        Kind::Word | Kind::Number | Kind::Top => unreachable!(),
    }
    Ok(())
}

/// Adds what a member of the task at the pointer says.
#[tactic(auto, unfolding(crate::specs::Tasks::with_member))]
fn read_member(
    alloc: Global,
    keys: &KeyTable<11>,
    task_at: &str,
    name: &str,
    value: &Value,
    entry: &mut Entry,
) -> Result<(), ConfigErr>
    requires { keys.now ≡ task_keys }
    ensures { ReadsInto
        (with_member task_at.now name.now (view value.now) entry.old) result entry.new }
{
    let pointer = pointer_to(alloc, task_at, name)?;
    match keys.find(name) {
        Some(row) => read_value(alloc, row, pointer.as_str(), value, entry),
        None => Err(ConfigErr::UnknownKey { pointer }),
    }
}

/// What the value at the pointer says of a task.
fn read_entry(alloc: Global, at: &str, value: &Value) -> Result<Entry, ConfigErr>
    ensures { Reads (entry_at at.now (view value.now)) result }
{
    let members = members_at(alloc, at, value)?;
    let keys = task_keys();
    let mut entry = Entry::new();
    for (name, value) in members {
        read_member(alloc, &keys, at, name.as_str(), value, &mut entry)?;
    }
    Ok(entry)
}

fn is_foreign(file: FileKind, key: &str) -> bool
    ensures { result ≡ is_foreign file key.now }
{
    match file {
        FileKind::Root => false,
        FileKind::Package => has_hash(key),
    }
}

/// Tests a key of `tasks`.
#[tactic(auto, unfolding(crate::specs::Tasks::key_fault))]
fn check_key(file: FileKind, at: Text, key: &str) -> Result<Text, ConfigErr>
    ensures pointer { IfOk result (λ pointer. pointer ≡ at) }
    ensures fault { Passes (key_fault file at key.now) result }
{
    if !is_task_name(task_of(key)) {
        return Err(ConfigErr::TaskName { pointer: at });
    }
    if is_foreign(file, key) {
        return Err(ConfigErr::ForeignKey { pointer: at });
    }
    Ok(at)
}

/// What a member of `tasks` says of its task.
#[tactic(auto, unfolding(crate::specs::Tasks::task_in))]
fn read_task(alloc: Global, file: FileKind, key: &str, value: &Value) -> Result<Entry, ConfigErr>
    ensures { Reads (task_in file key.now (view value.now)) result }
{
    let pointer = pointer_to(alloc, "/tasks", key)?;
    let pointer = check_key(file, pointer, key)?;
    read_entry(alloc, pointer.as_str(), value)
}

/// The tasks of a `tasks` with this value.
fn read_members(alloc: Global, file: FileKind, value: &Value) -> Result<Tasks, ConfigErr>
    ensures { Reads (tasks_in file (view value.now)) result }
{
    let members = members_at(alloc, "/tasks", value)?;
    let mut tasks = Tasks::new(alloc);
    for (key, value) in members {
        let entry = read_task(alloc, file, key.as_str(), value)?;
        tasks.insert(Text::read(alloc, key.as_str())?, entry)?;
    }
    Ok(tasks)
}

/// The tasks of a file whose `tasks` has this value, if it has one.
pub(crate) fn read_tasks(
    alloc: Global,
    file: FileKind,
    value: Option<&Value>,
) -> Result<Tasks, ConfigErr>
    ensures { Reads (tasks_of file (option_map (λ v. view v.now) value.entry)) result }
{
    match value {
        Some(value) => read_members(alloc, file, value),
        None => Ok(Tasks::new(alloc)),
    }
}
