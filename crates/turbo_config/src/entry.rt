// What files say of a task, and what comes of it.
ghost use Rattle.std.specs.Prelude.{◌≡◌, ◌∷◌, ◌++◌, [], IfOk, OnOk, IsTrue, unwrap_or};
ghost use Rattle.std.specs.Option.{option_or};
ghost use Rattle.turbo_config.specs.Entries.{no_keys, is_extends, extended_array, array_over, over, def_of};
ghost use Rattle.turbo_config.specs.Globs.{default_text};
ghost use Rattle.turbo_config.specs.Reads.{EntryReads, DefReads};
ghost use Rattle.turbo_config.specs.Tasks.{is_list, is_flag, is_mode, with_list, with_flag, with_mode};

use crate::glob_fault::DEFAULT_INPUTS;
use crate::keys::{
    CACHE, DEPENDS_ON, ENV, INPUTS, INTERACTIVE, INTERRUPTIBLE, LOGS, OUTPUTS, PASS, PERSISTENT,
    WITH,
};
use rel_path::{Text, Texts};
use std::alloc::{AllocError, Global};

// In an array of a package's file, stands for the array that it extends.
const EXTENDS_ARRAY: &str = "$TURBO_EXTENDS$";

/// How much of a task's log is shown (`outputLogs`).
#[derive(Clone, Copy, Debug, PartialEq, Eq)]
pub enum LogMode {
    /// `full`
    Full,
    /// `hash-only`
    HashOnly,
    /// `new-only`
    NewOnly,
    /// `errors-only`
    ErrorsOnly,
    /// `none`
    Silent,
}

/// How a task is run, by the keys of turbo.json. A key that is missing has its default: the lists are empty, flags are
/// false but for `cache`, and logs are shown in full.
#[derive(Debug, Drop)]
pub struct TaskDef {
    /// `dependsOn`
    pub depends_on: Texts,
    /// `inputs`; None stands for the default inputs
    pub inputs: Option<Texts>,
    /// `outputs`
    pub outputs: Texts,
    /// `env`
    pub env: Texts,
    /// `passThroughEnv`
    pub pass: Texts,
    /// `with`
    pub with_tasks: Texts,
    /// `cache`, by default true
    pub cache: bool,
    /// `persistent`
    pub persistent: bool,
    /// `interactive`
    pub interactive: bool,
    /// `interruptible`
    pub interruptible: bool,
    /// `outputLogs`
    pub logs: LogMode,
}

/// What one file says of a task: each key that it has.
#[derive(Debug, Drop)]
pub struct Entry {
    pub(crate) depends_on: Option<Texts>,
    pub(crate) inputs: Option<Texts>,
    pub(crate) outputs: Option<Texts>,
    pub(crate) env: Option<Texts>,
    pub(crate) pass: Option<Texts>,
    pub(crate) with_tasks: Option<Texts>,
    pub(crate) cache: Option<bool>,
    pub(crate) persistent: Option<bool>,
    pub(crate) interactive: Option<bool>,
    pub(crate) interruptible: Option<bool>,
    pub(crate) logs: Option<LogMode>,
}

impl Entry {
    /// An entry without keys.
    pub fn new() -> Entry
        ensures { result ≡ no_keys }
    {
        Entry {
            depends_on: None,
            inputs: None,
            outputs: None,
            env: None,
            pass: None,
            with_tasks: None,
            cache: None,
            persistent: None,
            interactive: None,
            interruptible: None,
            logs: None,
        }
    }

    /// Sets the list of that place.
    pub(crate) fn set_list(&mut self, place: u8, texts: Texts)
        requires { IsTrue (is_list place) }
        ensures { self.new ≡ with_list place texts self.old }
    {
        match place {
            DEPENDS_ON => self.depends_on = Some(texts),
            INPUTS => self.inputs = Some(texts),
            OUTPUTS => self.outputs = Some(texts),
            ENV => self.env = Some(texts),
            PASS => self.pass = Some(texts),
            WITH => self.with_tasks = Some(texts),
            _ => unreachable!(),
        }
    }

    /// Sets the flag of that place.
    pub(crate) fn set_flag(&mut self, place: u8, flag: bool)
        requires { IsTrue (is_flag place) }
        ensures { self.new ≡ with_flag place flag self.old }
    {
        match place {
            CACHE => self.cache = Some(flag),
            PERSISTENT => self.persistent = Some(flag),
            INTERACTIVE => self.interactive = Some(flag),
            INTERRUPTIBLE => self.interruptible = Some(flag),
            _ => unreachable!(),
        }
    }

    /// Sets the log mode, at its place.
    pub(crate) fn set_mode(&mut self, place: u8, mode: LogMode)
        requires { IsTrue (is_mode place) }
        ensures { self.new ≡ with_mode place mode self.old }
    {
        match place {
            LOGS => self.logs = Some(mode),
            _ => unreachable!(),
        }
    }

    /// The definition by this entry, with the keys of `above` in place of its own. In an array of
    /// `above` the first `$TURBO_EXTENDS$` stands for the array of this entry, or for the key's
    /// default where it has none (`$TURBO_DEFAULT$` for `inputs`, else no texts), and later ones for
    /// nothing. A key that neither has is as [`TaskDef`] says.
    #[tactic(auto, unfolding(crate::specs::Entries::over, crate::specs::Entries::def_of))]
    pub fn def_under(&self, alloc: Global, above: &Entry) -> Result<TaskDef, AllocError>
        requires below { EntryReads self.now }
        requires above { EntryReads above.now }
        ensures reads { IfOk result DefReads }
        ensures value { IfOk result (λ def. def ≡ def_of (over self.now above.now)) }
    {
        Ok(TaskDef {
            depends_on: list_of(alloc, &self.depends_on, &above.depends_on)?,
            inputs: inputs_over(alloc, &self.inputs, &above.inputs)?,
            outputs: list_of(alloc, &self.outputs, &above.outputs)?,
            env: list_of(alloc, &self.env, &above.env)?,
            pass: list_of(alloc, &self.pass, &above.pass)?,
            with_tasks: list_of(alloc, &self.with_tasks, &above.with_tasks)?,
            cache: flag_of(above.cache, self.cache, true),
            persistent: flag_of(above.persistent, self.persistent, false),
            interactive: flag_of(above.interactive, self.interactive, false),
            interruptible: flag_of(above.interruptible, self.interruptible, false),
            logs: mode_of(above.logs, self.logs),
        })
    }
}

fn is_extends(text: &Text) -> bool
    ensures { result ≡ is_extends text.now }
{
    text.as_str() == EXTENDS_ARRAY
}

/// Adds the texts at the end.
fn add_all(array: &mut Texts, texts: &[Text]) -> Result<(), AllocError>
    ensures { OnOk result (array.new ≡ array.old ++ texts.now) }
{
    for text in texts {
        array.push(text.copy()?)?;
    }
    Ok(())
}

/// The texts, with those of the start in the place of the first `$TURBO_EXTENDS$`, and without later ones.
#[tactic(auto, unfolding(crate::specs::Entries::extended_array))]
fn extended_array(alloc: Global, start: &[Text], texts: &[Text]) -> Result<Texts, AllocError>
    ensures { IfOk result (λ array. array ≡ extended_array start.now texts.now) }
{
    let mut array = Texts::new(alloc);
    let mut has_start = false;
    for text in texts {
        if !is_extends(text) {
            array.push(text.copy()?)?;
        } else if !has_start {
            add_all(&mut array, start)?;
            has_start = true;
        }
    }
    Ok(array)
}

/// The array of a key, where a start without the key counts as the default.
fn array_over(
    alloc: Global,
    default: &[Text],
    below: &Option<Texts>,
    above: &Option<Texts>,
) -> Result<Option<Texts>, AllocError>
    ensures { IfOk result (λ array. array ≡ array_over default.now below.now above.now) }
{
    match (below, above) {
        (None, None) => Ok(None),
        (Some(below), None) => Ok(Some(below.copy()?)),
        (None, Some(above)) => Ok(Some(extended_array(alloc, default, above.as_slice())?)),
        (Some(below), Some(above)) => {
            let start = below.as_slice();
            Ok(Some(extended_array(alloc, start, above.as_slice())?))
        }
    }
}

/// The array of a key whose default is the empty array.
fn list_of(alloc: Global, below: &Option<Texts>, above: &Option<Texts>) -> Result<Texts, AllocError>
    ensures { IfOk result (λ texts. texts ≡ unwrap_or (array_over [] below.now above.now) []) }
{
    match array_over(alloc, &[], below, above)? {
        Some(texts) => Ok(texts),
        None => Ok(Texts::new(alloc)),
    }
}

fn default_inputs(alloc: Global) -> Result<Texts, AllocError>
    ensures { IfOk result (λ texts. texts ≡ default_text ∷ []) }
{
    let mut texts = Texts::new(alloc);
    texts.push(Text::read(alloc, DEFAULT_INPUTS)?)?;
    Ok(texts)
}

/// The array of `inputs`, whose default are the default inputs. They are made only where they are wanted.
fn inputs_over(
    alloc: Global,
    below: &Option<Texts>,
    above: &Option<Texts>,
) -> Result<Option<Texts>, AllocError>
    ensures { IfOk result (λ inputs. inputs ≡ array_over (default_text ∷ []) below.now above.now) }
{
    if below.is_none() && above.is_some() {
        let default = default_inputs(alloc)?;
        return array_over(alloc, default.as_slice(), below, above);
    }
    array_over(alloc, &[], below, above)
}

fn flag_of(first: Option<bool>, second: Option<bool>, default: bool) -> bool
    ensures { result ≡ unwrap_or (option_or first second) default }
{
    first.or(second).unwrap_or(default)
}

fn mode_of(first: Option<LogMode>, second: Option<LogMode>) -> LogMode
    ensures { result ≡ unwrap_or (option_or first second) LogMode.Full }
{
    first.or(second).unwrap_or(LogMode::Full)
}
