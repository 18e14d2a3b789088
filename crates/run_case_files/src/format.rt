// What a file of cases holds. The `data/README.md` of `turbo_cases` says it for readers.
use serde::Deserialize;
use serde_json::Value;
use std::collections::BTreeMap;

/// The files of a repository, or changes to them: a text stands for itself, `null` for no file, and
/// every other value for its JSON text without blanks.
pub type Contents = BTreeMap<String, Value>;

/// What commands do, by the tasks' names.
pub type Commands = BTreeMap<String, Does>;

/// Cases over one repository.
#[derive(Drop, Deserialize)]
#[serde(deny_unknown_fields)]
pub struct Group {
    /// The repository of all cases.
    #[serde(default)]
    pub files: Contents,
    #[serde(default)]
    pub commands: Commands,
    pub cases: Vec<Case>,
}

/// Steps over one repository and its stores. Its files and commands come before those of the group.
#[derive(Drop, Deserialize)]
#[serde(deny_unknown_fields)]
pub struct Case {
    pub name: String,
    /// What a reader may want to know.
    #[serde(default)]
    pub note: String,
    #[serde(default)]
    pub files: Contents,
    /// Files beside these that are made.
    #[serde(default)]
    pub many: Vec<Many>,
    #[serde(default)]
    pub commands: Commands,
    pub steps: Vec<Step>,
    pub sweep: Option<Sweep>,
}

/// So many files. In their paths and texts `{n}` stands for the number of the file, and `{next}`
/// for the one behind it.
#[derive(Drop, Deserialize)]
#[serde(deny_unknown_fields)]
pub struct Many {
    pub count: u64,
    pub path: String,
    #[serde(default)]
    pub text: String,
    /// A part of the text that stands so many times behind it, with its number.
    #[serde(default)]
    pub part: String,
    #[serde(default)]
    pub parts: u64,
    /// The text behind these, and then so many `x`.
    #[serde(default)]
    pub end: String,
    #[serde(default)]
    pub fill: usize,
}

/// What the command of a task does. The texts may hold `{words}`, `{scripts}`, `{file PATH}`,
/// `{env NAME}` and `{fill NUMBER}`.
#[derive(Drop, Deserialize)]
#[serde(deny_unknown_fields)]
pub struct Does {
    /// The exit status.
    #[serde(default)]
    pub status: u8,
    #[serde(default)]
    pub log: String,
    #[serde(default)]
    pub files: BTreeMap<String, String>,
}

/// A call of the program.
#[derive(Drop, Deserialize)]
#[serde(deny_unknown_fields)]
pub struct Step {
    /// Whether it goes over the case's own files and empty stores, as the first step does.
    #[serde(default)]
    pub fresh: bool,
    /// A folder of which the files become the repository, from this step on.
    pub enter: Option<String>,
    /// Changes to the files before the call.
    #[serde(default)]
    pub write: Contents,
    /// The bytes of the store before the call, a character each, and those of the spare one, of the
    /// second one and of the shared file.
    pub store: Option<String>,
    pub spare: Option<String>,
    pub second: Option<String>,
    pub shared: Option<String>,
    /// In the place of the store one with room for so many bytes more, of which nothing is seen
    /// behind the call.
    pub room: Option<u32>,
    /// Bytes of the store that are changed before the call.
    #[serde(default)]
    pub patch: Vec<Patch>,
    pub words: String,
    /// Lines `NAME=value`.
    #[serde(default)]
    pub environment: Vec<String>,
    #[serde(default)]
    pub commands: Commands,
    /// Which of the running commands ends first, wait by wait.
    #[serde(default)]
    pub ends: Vec<u32>,
    /// Whether a command has ended by the time of each wait.
    #[serde(default)]
    pub early: bool,
    /// What other runs put into the shared file before its turn of each number: all results of
    /// that store.
    #[serde(default)]
    pub turns: Vec<Option<Source>>,
    pub fails: Option<Fails>,
    pub wanted: Option<Wanted>,
}

/// A store of the case, of which the results are put elsewhere.
#[derive(Clone, Copy, Drop, Deserialize)]
#[serde(rename_all = "snake_case")]
pub enum Source {
    Store,
    Spare,
    Second,
}

/// A byte of the store, as the character that stands for it.
#[derive(Drop, Deserialize)]
#[serde(deny_unknown_fields)]
pub struct Patch {
    pub at: usize,
    pub byte: String,
}

/// The numbers of the calls of the devices that fail.
#[derive(Drop, Deserialize)]
#[serde(deny_unknown_fields)]
pub struct Fails {
    #[serde(default)]
    pub world: Vec<u64>,
    #[serde(default)]
    pub store: Vec<u64>,
    #[serde(default)]
    pub spare: Vec<u64>,
    #[serde(default)]
    pub second: Vec<u64>,
    #[serde(default)]
    pub shared: Vec<u64>,
    #[serde(default)]
    pub output: Vec<u64>,
}

/// What is wanted of a step. What is not named is not compared, but for the answer, which is `done`
/// then.
#[derive(Drop, Deserialize)]
#[serde(deny_unknown_fields)]
pub struct Wanted {
    /// All of a refusal: the answer, the status, the line, and that nothing was started and no file
    /// changed.
    pub refusal: Option<String>,
    pub answer: Option<String>,
    pub status: Option<u8>,
    pub starts: Option<Vec<u32>>,
    pub page: Option<Vec<String>>,
    /// Files after the step; `null` where there is none.
    #[serde(default)]
    pub files: BTreeMap<String, Option<String>>,
    /// How many bytes the store has.
    pub stored: Option<usize>,
    /// How many results the store has, the spare one, the second one and the shared file.
    pub pairs: Option<usize>,
    pub spare_pairs: Option<usize>,
    pub second_pairs: Option<usize>,
    pub shared_pairs: Option<usize>,
    /// The bytes of the stores, a character each.
    pub store: Option<String>,
    pub spare: Option<String>,
    pub second: Option<String>,
    pub shared: Option<String>,
    /// Whether the page and the length of the store are those of the first step.
    #[serde(default)]
    pub as_first: bool,
}

/// A device of which one call fails after another.
#[derive(Clone, Copy, Drop, Deserialize)]
#[serde(rename_all = "snake_case")]
pub enum Device {
    World,
    Store,
    Spare,
    Second,
    Shared,
    Output,
    /// The store is cut off before the call, and crashed behind the step.
    Cut,
    /// The same of the spare store, and of the second one.
    CutSpare,
    CutSecond,
}

/// Has the case run once for each outcome: in the run of number k the call of number k fails in one
/// of the steps.
#[derive(Drop, Deserialize)]
#[serde(deny_unknown_fields)]
pub struct Sweep {
    pub device: Device,
    /// The number of the step in which it fails.
    #[serde(default)]
    pub step: usize,
    /// What a crash leaves: this byte in the place of all that was written last, and so many bytes
    /// of it past the end.
    #[serde(default)]
    pub fill: u8,
    pub keep: Option<u64>,
    /// The names of the outcomes in order, as in `3 tree, 1 done`.
    pub calls: String,
    /// What is wanted of each step, by the outcome's name.
    pub outcomes: BTreeMap<String, Vec<Wanted>>,
}
