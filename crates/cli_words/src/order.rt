// What words ask for.
ghost use Rattle.std.specs.Prelude.{◌≤◌, ◌^◌, length, IsErrOf};
ghost use Rattle.cli_words.specs.Orders.{order_of};
ghost use Rattle.cli_words.specs.Answers.{Reads};

use crate::WordsErr;
use crate::commands::{command_order, sample_order};
use crate::options::Command;
use rel_path::{Text, Texts};
use std::alloc::Global;

/// What a run does once a task has failed.
#[derive(Clone, Copy, Debug, PartialEq, Eq)]
pub enum KeepOn {
    /// `never`: no task is started any more.
    Never,
    /// `dependencies-successful`: the tasks are left that need a failed one.
    DependenciesSuccessful,
    /// `always`: every task is started, also one that needs a failed one.
    Always,
}

/// Which lines of a task are printed.
#[derive(Clone, Copy, Debug, PartialEq, Eq)]
pub enum LogWord {
    /// `full`
    Full,
    /// `hash-only`
    HashOnly,
    /// `new-only`
    NewOnly,
    /// `errors-only`
    ErrorsOnly,
    /// `none`
    Silent,
}

/// Which variables of the environment commands are given.
#[derive(Clone, Copy, Debug, PartialEq, Eq)]
pub enum EnvWord {
    /// `strict`
    Strict,
    /// `loose`
    Loose,
}

/// What a run may do with its two stores of results. One that results are put into is also read.
#[derive(Clone, Copy, Debug, PartialEq, Eq)]
pub struct Access {
    /// Results are looked up in the local store.
    pub local_reads: bool,
    /// Results are put into the local store.
    pub local_puts: bool,
    /// Results are looked up in the second store.
    pub second_reads: bool,
    /// Results are put into the second store.
    pub second_puts: bool,
}

/// A run of tasks.
#[derive(Debug, Drop)]
pub struct RunOrder {
    /// Names of tasks as written; there is at least one.
    pub tasks: Texts,
    /// The values of `--filter` and `-F` as written.
    pub filters: Texts,
    /// The words behind the first `--`.
    pub args: Texts,
    /// How many commands may run at once, 1 to 1024; 10 where `--concurrency` is missing.
    pub width: u32,
    /// `--force`: no result is looked up.
    pub force: bool,
    /// `--dry` or `--dry-run`: nothing is run.
    pub dry: bool,
    /// `--continue`; `Never` where it is missing, `Always` where it has no value.
    pub keep_on: KeepOn,
    /// `--output-logs`
    pub logs: Option<LogWord>,
    /// `--env-mode`
    pub env_word: Option<EnvWord>,
    /// `--cache`; the local store alone, with both rights, where it is missing.
    pub access: Access,
    /// `--shared`
    pub shared: bool,
}

/// What words ask for.
#[derive(Debug, Drop)]
pub enum Order {
    Run(RunOrder),
    /// The repository is cut down to these packages, of which at least one is named; `docker`: for the layers of an image.
    Prune { targets: Texts, docker: bool },
    /// A sample of this size, 1 to 400.
    Sample { size: u32 },
    /// The store is made smaller; of `--keep` at most 1,000,000.
    Compact { keep: Option<u64> },
    Help,
}

impl Order {
    /// The order that the words after the program's name are, or the first fault in them.
    ///
    /// No words, or the first word `help`, `--help` or `-h`, is `Help`, whatever follows. The first word `run`, `prune`,
    /// `sample` or `compact` names the command; any other is the beginning of a run without that word.
    ///
    /// Behind `sample` stands its size alone. Behind `prune` stand names of packages, and behind `run` names of tasks. These
    /// have options among them, up to the first `--` of a run; all words behind that are extra words. Behind `compact` there
    /// are options alone.
    ///
    /// | Command | Spelling | Value |
    /// |---|---|---|
    /// | `run` | `--filter=x`, `--filter x`, `-F x` | any text; may stand again |
    /// | | `--concurrency=n`, `--concurrency n` | a number from 1 to 1024 |
    /// | | `--output-logs=v`, `--output-logs v` | `full`, `hash-only`, `new-only`, `errors-only`, `none` |
    /// | | `--env-mode=v`, `--env-mode v` | `strict`, `loose` |
    /// | | `--continue`, `--continue=v` | `never`, `dependencies-successful`, `always` |
    /// | | `--dry`, `--dry-run`, `--dry=text`, `--dry-run=text` | these are one option |
    /// | | `--force` | none |
    /// | | `--cache=v`, `--cache v` | `local:` or `remote:`, or both with a comma between them, each with `rw`, `r` or nothing behind it; one has `rw` |
    /// | | `--shared` | none; not beside `--cache` |
    /// | `prune` | `--docker` | none |
    /// | `compact` | `--keep=n`, `--keep n` | a number from 0 to 1,000,000 |
    ///
    /// A number is decimal digits without a sign or a leading zero. The word behind an option that takes it is its value
    /// whatever it is, but for `--`. Every other word that does not begin with `-` is a name, also the empty one.
    ///
    /// Faults are tried word by word, at one word `Unknown` before `Twice` before `BadValue`, which has the place of the
    /// option's word. `NoTask` comes where there is no other fault.
    #[tactic(auto, unfolding(crate::specs::Orders::order_of))]
    pub fn read(alloc: Global, words: &[Text]) -> Result<Order, WordsErr>
        ensures order { Reads (order_of words.now) result }
        ensures long { 2 ^ 32 ≤ length words.now → IsErrOf result WordsErr.OutOfMemory }
    {
        if words.len() > u32::MAX as usize {
            return Err(WordsErr::OutOfMemory);
        }
        let Some((first, rest)) = words.split_first() else {
            return Ok(Order::Help);
        };
        match first.as_str() {
            "help" | "--help" | "-h" => Ok(Order::Help),
            "run" => command_order(alloc, Command::Run, rest, 1),
            "prune" => command_order(alloc, Command::Prune, rest, 1),
            "sample" => sample_order(rest),
            "compact" => command_order(alloc, Command::Compact, rest, 1),
            _ => command_order(alloc, Command::Run, words, 0),
        }
    }
}
