// The two kinds of turbo.json.
ghost use Rattle.std.specs.Prelude.{◌≡◌, IsTrue};
ghost use Rattle.std.specs.Option.{option_map};
ghost use Rattle.serde_json.specs.View.{view};
ghost use Rattle.json_view.specs.Answer.{data_of};
ghost use Rattle.json_view.specs.Look.{value_in};
ghost use Rattle.turbo_config.specs.Answers.{Reads, ReadsAs, ReadsInto, Passes};
ghost use Rattle.turbo_config.specs.Keys.{top_keys};
ghost use Rattle.turbo_config.specs.Reads.{AreGlobs};
ghost use Rattle.turbo_config.specs.Files.{value_of, pipeline_fault, extends_fault, no_globals, is_top, with_global, with_top_member, globals_in, root_in, package_in, root_of, package_of, is_root_alone};

use crate::error::ConfigErr;
use crate::glob_fault::ListKind;
use crate::keys::{
    ENV_MODE, EXTENDS, GLOBAL_ENV, GLOBAL_INPUTS, GLOBAL_PASS, PIPELINE, TASKS, top_keys,
};
use crate::names::ROOT_NAME;
use crate::tasks::{FileKind, Tasks, read_tasks};
use crate::values::{env_mode_at, list_at, members_at};
use env_select::EnvMode;
use json_view::{JsonErr, View, plain_json, pointer_to};
use key_table::KeyTable;
use rel_path::{Text, Texts};
use serde_json::Value;
use std::alloc::Global;
use std::marker::Model;

/// The global keys of the root's turbo.json. A list that is missing is empty.
#[derive(Debug, Drop)]
pub struct Globals {
    /// `globalDependencies`
    pub inputs: Texts,
    /// `globalEnv`
    pub env: Texts,
    /// `globalPassThroughEnv`
    pub pass: Texts,
    /// `envMode`
    pub env_mode: Option<EnvMode>,
}

impl Globals {
    /// Those of a file without keys: empty lists, and no mode. It takes no memory.
    pub fn new(alloc: Global) -> Globals
        ensures { result ≡ no_globals }
    {
        Globals {
            inputs: Texts::new(alloc),
            env: Texts::new(alloc),
            pass: Texts::new(alloc),
            env_mode: None,
        }
    }
}

/// The root's turbo.json, which contracts see as what it says (`RootFile`).
#[derive(Debug, Drop)]
pub struct RootConfig {
    pub(crate) globals: Globals,
    pub(crate) tasks: Tasks,
}

impl Model for RootConfig {
    ghost use Rattle.turbo_config.specs.RootFile.{RootFile};
    ghost use Rattle.turbo_config.specs.Reads.{AreGlobs};

    ghost Value = { RootFile };

    ghost view = { λ r. record { globals = r.globals; tasks = r.tasks } };

    ghost invariant = { λ r. AreGlobs r.globals.inputs };
}

/// A package's turbo.json.
#[derive(Debug, Drop)]
pub struct PackageConfig {
    /// Its entries, each of whose keys is the name of a task of this package.
    pub tasks: Tasks,
}

/// The value that JSON with comments and trailing commas writes.
#[tactic(auto, unfolding(crate::specs::Files::value_of))]
fn read_value(alloc: Global, bytes: &[u8]) -> Result<View, ConfigErr>
    ensures { ReadsAs data_of (value_of bytes.now) result }
{
    let text = plain_json(alloc, bytes)?;
    Ok(View::read(alloc, text.as_slice())?)
}

fn at_top<'a>(json: &'a View, pointer: &str) -> Option<&'a Value>
    ensures { option_map (λ v. view v.now) result ≡ value_in pointer.now (data_of json.now) }
{
    match json.value_at(pointer) {
        Ok(found) => found,
        Err(_) => None,
    }
}

#[tactic(auto, unfolding(crate::specs::Files::pipeline_fault))]
fn check_pipeline(json: &View) -> Result<(), ConfigErr>
    ensures { Passes (pipeline_fault (data_of json.now)) result }
{
    match at_top(json, "/pipeline") {
        Some(_) => Err(ConfigErr::Pipeline),
        None => Ok(()),
    }
}

fn is_root_alone(texts: &[Text]) -> bool
    ensures { result ≡ is_root_alone texts.now }
{
    texts.len() == 1 && texts[0].as_str() == ROOT_NAME
}

#[tactic(auto, unfolding(crate::specs::Files::extends_fault))]
fn check_extends(alloc: Global, json: &View) -> Result<(), ConfigErr>
    ensures { Passes (extends_fault (data_of json.now)) result }
{
    match json.texts_at(alloc, "/extends") {
        Ok(Some(texts)) => {
            if is_root_alone(texts.as_slice()) {
                return Ok(());
            }
            Err(ConfigErr::NoExtends)
        }
        Err(JsonErr::OutOfMemory) => Err(ConfigErr::OutOfMemory),
        _ => Err(ConfigErr::NoExtends),
    }
}

/// Sets the global key of that place; the other keys at the top are read elsewhere.
fn read_global(
    alloc: Global,
    place: u8,
    at: &str,
    value: &Value,
    globals: &mut Globals,
) -> Result<(), ConfigErr>
    requires { IsTrue (is_top place) }
    ensures { ReadsInto (with_global place at.now (view value.now) globals.old) result globals.new }
{
    match place {
        ENV_MODE => globals.env_mode = Some(env_mode_at(alloc, at, value)?),
        GLOBAL_INPUTS => globals.inputs = list_at(alloc, ListKind::Globs, at, value)?,
        GLOBAL_ENV => globals.env = list_at(alloc, ListKind::Texts, at, value)?,
        GLOBAL_PASS => globals.pass = list_at(alloc, ListKind::Texts, at, value)?,
        TASKS | PIPELINE | EXTENDS => {}
        _ => unreachable!(),
    }
    Ok(())
}

/// Adds what a member at the top says, if it is a global key.
#[tactic(auto, unfolding(crate::specs::Files::with_top_member))]
fn read_top_member(
    alloc: Global,
    keys: &KeyTable<7>,
    name: &str,
    value: &Value,
    globals: &mut Globals,
) -> Result<(), ConfigErr>
    requires { keys.now ≡ top_keys }
    ensures { ReadsInto (with_top_member name.now (view value.now) globals.old) result globals.new }
{
    match keys.find(name) {
        Some(row) => {
            let pointer = pointer_to(alloc, "", name)?;
            read_global(alloc, row.place, pointer.as_str(), value, globals)
        }
        None => Ok(()),
    }
}

/// The global keys of a file whose top has this value.
fn read_globals(alloc: Global, top: &Value) -> Result<Globals, ConfigErr>
    ensures { Reads (globals_in (view top.now)) result }
{
    let members = members_at(alloc, "", top)?;
    let keys = top_keys();
    let mut globals = Globals::new(alloc);
    for (name, value) in members {
        read_top_member(alloc, &keys, name.as_str(), value, &mut globals)?;
    }
    Ok(globals)
}

/// The global keys of a file.
#[tactic(auto, unfolding(json_view::specs::Look::value_in))]
fn read_top(alloc: Global, json: &View) -> Result<Globals, ConfigErr>
    ensures { Reads (globals_in (data_of json.now)) result }
{
    match at_top(json, "") {
        Some(top) => read_globals(alloc, top),
        // Never: the empty pointer leads to the top.
        None => Err(ConfigErr::NotJson),
    }
}

fn read_root(alloc: Global, json: &View) -> Result<RootConfig, ConfigErr>
    ensures { Reads (root_in (data_of json.now)) result }
{
    check_pipeline(json)?;
    let globals = read_top(alloc, json)?;
    let tasks = read_tasks(alloc, FileKind::Root, at_top(json, "/tasks"))?;
    Ok(RootConfig { globals, tasks })
}

fn read_package(alloc: Global, json: &View) -> Result<PackageConfig, ConfigErr>
    ensures { Reads (package_in (data_of json.now)) result }
{
    check_pipeline(json)?;
    check_extends(alloc, json)?;
    let tasks = read_tasks(alloc, FileKind::Package, at_top(json, "/tasks"))?;
    Ok(PackageConfig { tasks })
}

impl RootConfig {
    /// Reads the root's turbo.json: JSON with comments and trailing commas (`OpenComment`, `NotJson`), without `pipeline`
    /// (`Pipeline`), an object (`WrongKind` of the top). Then the global keys are tried, ascending, and then the tasks,
    /// ascending by key and in each its keys ascending: `TaskName`, `UnknownKey`, `WrongKind`, `Glob`. The first fault is
    /// answered. Other keys at the top are read over, `extends` among them.
    #[tactic(auto, unfolding(crate::specs::Files::root_of))]
    pub fn read(alloc: Global, bytes: &[u8]) -> Result<RootConfig, ConfigErr>
        ensures { Reads (root_of bytes.now) result }
    {
        let json = read_value(alloc, bytes)?;
        read_root(alloc, &json)
    }

    /// The global keys, and the tasks.
    pub fn into_parts(self) -> (Globals, Tasks)
        ensures globals { result.0 ≡ self.globals }
        ensures tasks { result.1 ≡ self.tasks }
        ensures reads { AreGlobs result.0.inputs }
    {
        let RootConfig { globals, tasks } = self;
        (globals, tasks)
    }
}

impl PackageConfig {
    /// Reads a package's turbo.json, as the root's is read, but that it extends the root's alone (`NoExtends`, behind
    /// `Pipeline`), that a key `package#task` is `ForeignKey`, and that the global keys are read over.
    #[tactic(auto, unfolding(crate::specs::Files::package_of))]
    pub fn read(alloc: Global, bytes: &[u8]) -> Result<PackageConfig, ConfigErr>
        ensures { Reads (package_of bytes.now) result }
    {
        let json = read_value(alloc, bytes)?;
        read_package(alloc, &json)
    }
}
