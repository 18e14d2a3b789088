// The options of each command.
ghost use Rattle.std.specs.Prelude.{◌≡◌};
ghost use Rattle.std.specs.Option.{option_map};
ghost use Rattle.key_table.specs.Entry.{entry_of, entry_named};
ghost use Rattle.cli_words.specs.Options.{run_options, prune_options, compact_options, options_of, takes_names, takes_word, may_repeat};

use key_table::{KeyTable, Kind, Row, option_row};

// Places of the options. Spellings with one place are one option.
pub(crate) const FILTERS: u8 = 0;

pub(crate) const WIDTH: u8 = 1;

pub(crate) const LOGS: u8 = 2;

pub(crate) const ENV_MODE: u8 = 3;

pub(crate) const KEEP_ON: u8 = 4;

pub(crate) const DRY: u8 = 5;

pub(crate) const FORCE: u8 = 6;

pub(crate) const CACHE: u8 = 7;

pub(crate) const SHARED: u8 = 8;

pub(crate) const ARGS: u8 = 9;

pub(crate) const DOCKER: u8 = 10;

pub(crate) const KEEP: u8 = 11;

/// A command with options.
#[derive(Clone, Copy, Debug, PartialEq, Eq)]
pub(crate) enum Command {
    Run,
    Prune,
    Compact,
}

fn run_options() -> KeyTable<12>
    ensures { result ≡ run_options }
{
    KeyTable::new([
        option_row!("--filter", Words, FILTERS),
        option_row!("-F", Words, FILTERS),
        option_row!("--concurrency", Number, WIDTH),
        option_row!("--output-logs", Choice, LOGS),
        option_row!("--env-mode", Choice, ENV_MODE),
        option_row!("--continue", Flag, KEEP_ON),
        option_row!("--dry", Flag, DRY),
        option_row!("--dry-run", Flag, DRY),
        option_row!("--force", Flag, FORCE),
        option_row!("--cache", Word, CACHE),
        option_row!("--shared", Flag, SHARED),
        option_row!("--", Top, ARGS),
    ])
}

fn prune_options() -> KeyTable<1>
    ensures { result ≡ prune_options }
{
    KeyTable::new([option_row!("--docker", Flag, DOCKER)])
}

fn compact_options() -> KeyTable<1>
    ensures { result ≡ compact_options }
{
    KeyTable::new([option_row!("--keep", Number, KEEP)])
}

impl Command {
    /// The command's option of that spelling.
    pub(crate) fn option_named(self, name: &str) -> Option<Row>
        ensures { option_map entry_of result ≡ entry_named name.now (options_of self) }
    {
        match self {
            Command::Run => run_options().find(name),
            Command::Prune => prune_options().find(name),
            Command::Compact => compact_options().find(name),
        }
    }

    /// Whether it works on what it is given by name, and wants at least one.
    pub(crate) fn takes_names(self) -> bool
        ensures { result ≡ takes_names self }
    {
        match self {
            Command::Run | Command::Prune => true,
            Command::Compact => false,
        }
    }
}

/// Whether the value of such an option may be the next word. That of a flag stands behind a `=` alone.
pub(crate) fn takes_word(kind: Kind) -> bool
    ensures { result ≡ takes_word kind }
{
    match kind {
        Kind::Word | Kind::Words | Kind::Number | Kind::Choice => true,
        Kind::Flag | Kind::Top => false,
    }
}

/// Whether such an option may stand again.
pub(crate) fn may_repeat(kind: Kind) -> bool
    ensures { result ≡ may_repeat kind }
{
    match kind {
        Kind::Words => true,
        Kind::Flag | Kind::Word | Kind::Number | Kind::Choice | Kind::Top => false,
    }
}
