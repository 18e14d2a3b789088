// The keys of a turbo.json.
ghost use Rattle.std.specs.Prelude.{◌≡◌};
ghost use Rattle.turbo_config.specs.Keys.{task_keys, top_keys};

use key_table::{KeyTable, key_row};

// Places of the keys of a task.
pub(crate) const DEPENDS_ON: u8 = 0;

pub(crate) const INPUTS: u8 = 1;

pub(crate) const OUTPUTS: u8 = 2;

pub(crate) const ENV: u8 = 3;

pub(crate) const PASS: u8 = 4;

pub(crate) const WITH: u8 = 5;

pub(crate) const CACHE: u8 = 6;

pub(crate) const PERSISTENT: u8 = 7;

pub(crate) const INTERACTIVE: u8 = 8;

pub(crate) const INTERRUPTIBLE: u8 = 9;

pub(crate) const LOGS: u8 = 10;

// Places of the keys at the top.
pub(crate) const ENV_MODE: u8 = 0;

pub(crate) const GLOBAL_INPUTS: u8 = 1;

pub(crate) const GLOBAL_ENV: u8 = 2;

pub(crate) const GLOBAL_PASS: u8 = 3;

pub(crate) const TASKS: u8 = 4;

pub(crate) const PIPELINE: u8 = 5;

pub(crate) const EXTENDS: u8 = 6;

/// The keys that a task may have.
pub(crate) fn task_keys() -> KeyTable<11>
    ensures { result ≡ task_keys }
{
    KeyTable::new([
        key_row!("dependsOn", Words, DEPENDS_ON),
        key_row!("inputs", Words, INPUTS),
        key_row!("outputs", Words, OUTPUTS),
        key_row!("env", Words, ENV),
        key_row!("passThroughEnv", Words, PASS),
        key_row!("with", Words, WITH),
        key_row!("cache", Flag, CACHE),
        key_row!("persistent", Flag, PERSISTENT),
        key_row!("interactive", Flag, INTERACTIVE),
        key_row!("interruptible", Flag, INTERRUPTIBLE),
        key_row!("outputLogs", Choice, LOGS),
    ])
}

/// The keys at the top that mean something. All others are read over.
pub(crate) fn top_keys() -> KeyTable<7>
    ensures { result ≡ top_keys }
{
    KeyTable::new([
        key_row!("envMode", Choice, ENV_MODE),
        key_row!("globalDependencies", Words, GLOBAL_INPUTS),
        key_row!("globalEnv", Words, GLOBAL_ENV),
        key_row!("globalPassThroughEnv", Words, GLOBAL_PASS),
        key_row!("tasks", Top, TASKS),
        key_row!("pipeline", Top, PIPELINE),
        key_row!("extends", Top, EXTENDS),
    ])
}
