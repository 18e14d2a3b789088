// What options of the command line set for a run.
ghost use Rattle.std.specs.Prelude.{◌≡◌};
ghost use Rattle.std.specs.Option.{option_map};
ghost use Rattle.planner.specs.Settings as spec;

use cli_words::{EnvWord, KeepOn, LogWord};
use env_select::EnvMode;
use run_core::Mode;
use turbo_config::LogMode;

/// What a failure stops (`--continue`).
pub(crate) fn mode_of(keep_on: KeepOn) -> Mode
    ensures { result ≡ spec.mode_of keep_on }
{
    match keep_on {
        KeepOn::Never => Mode::Never,
        KeepOn::DependenciesSuccessful => Mode::DependenciesSuccessful,
        KeepOn::Always => Mode::Always,
    }
}

fn log_mode_of(word: LogWord) -> LogMode
    ensures { result ≡ spec.log_mode_of word }
{
    match word {
        LogWord::Full => LogMode::Full,
        LogWord::HashOnly => LogMode::HashOnly,
        LogWord::NewOnly => LogMode::NewOnly,
        LogWord::ErrorsOnly => LogMode::ErrorsOnly,
        LogWord::Silent => LogMode::Silent,
    }
}

/// Which lines are shown, where the command line says so (`--output-logs`).
pub(crate) fn logs_of(word: Option<LogWord>) -> Option<LogMode>
    ensures { result ≡ option_map spec.log_mode_of word }
{
    match word {
        Some(word) => Some(log_mode_of(word)),
        None => None,
    }
}

/// Which variables commands get: by `--env-mode`, or else by `envMode`, or else the listed ones.
pub(crate) fn env_mode_for(word: Option<EnvWord>, written: Option<EnvMode>) -> EnvMode
    ensures { result ≡ spec.env_mode_for word written }
{
    match word {
        Some(EnvWord::Strict) => EnvMode::Strict,
        Some(EnvWord::Loose) => EnvMode::Loose,
        None => written.unwrap_or(EnvMode::Strict),
    }
}
