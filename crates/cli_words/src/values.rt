// The values of options.
ghost use Rattle.std.specs.Prelude.{◌≡◌};
ghost use Rattle.std.specs.List.{list_all};
ghost use Rattle.std.specs.Char.{is_ascii_digit};
ghost use Rattle.cli_words.specs.Values.{is_numeral, number, log_word, env_word, keep_on, sample_size, width_in, keep_in, logs_in, env_word_in, keep_on_in, access_in, is_dry_form, is_allowed};
ghost use Rattle.cli_words.specs.Seen.{seen};

use crate::access::access;
use crate::cuts::begins_with;
use crate::options::{CACHE, DRY, ENV_MODE, FILTERS, KEEP, KEEP_ON, LOGS, WIDTH};
use crate::{Access, EnvWord, KeepOn, LogWord};
use rel_path::limits::MAX_WIDTH;

/// The fewest commands that may run at once.
const MIN_WIDTH: u32 = 1;

const MIN_SAMPLE: u32 = 1;

const MAX_SAMPLE: u32 = 400;

const MIN_KEEP: u32 = 0;

const MAX_KEEP: u32 = 1_000_000;

fn are_digits(text: &str) -> bool
    ensures { result ≡ list_all is_ascii_digit text.now }
{
    text.as_bytes().iter().all(|b| b.is_ascii_digit())
}

/// Whether the text is a number without sign or leading zero.
fn is_numeral(text: &str) -> bool
    ensures { result ≡ is_numeral text.now }
{
    !text.is_empty() && are_digits(text) && (text.len() == 1 || !begins_with(text, b'0'))
}

/// The number that the text writes without sign or leading zero, if it is within these.
#[tactic(auto, unfolding(crate::specs::Values::number))]
fn number(text: &str, least: u32, most: u32) -> Option<u32>
    ensures { result ≡ number least most text.now }
{
    if !is_numeral(text) {
        return None;
    }
    let Ok(number) = text.parse::<u32>() else {
        return None;
    };
    if least <= number && number <= most {
        Some(number)
    } else {
        None
    }
}

/// The size that the word behind `sample` gives.
pub(crate) fn sample_size(text: &str) -> Option<u32>
    ensures { result ≡ sample_size text.now }
{
    number(text, MIN_SAMPLE, MAX_SAMPLE)
}

fn log_word(text: &str) -> Option<LogWord>
    ensures { result ≡ log_word text.now }
{
    match text {
        "full" => Some(LogWord::Full),
        "hash-only" => Some(LogWord::HashOnly),
        "new-only" => Some(LogWord::NewOnly),
        "errors-only" => Some(LogWord::ErrorsOnly),
        "none" => Some(LogWord::Silent),
        _ => None,
    }
}

fn env_word(text: &str) -> Option<EnvWord>
    ensures { result ≡ env_word text.now }
{
    match text {
        "strict" => Some(EnvWord::Strict),
        "loose" => Some(EnvWord::Loose),
        _ => None,
    }
}

fn keep_on(text: &str) -> Option<KeepOn>
    ensures { result ≡ keep_on text.now }
{
    match text {
        "never" => Some(KeepOn::Never),
        "dependencies-successful" => Some(KeepOn::DependenciesSuccessful),
        "always" => Some(KeepOn::Always),
        _ => None,
    }
}

/// The width that `--concurrency` gives.
pub(crate) fn width_in(given: Option<&str>) -> Option<u32>
    ensures { result ≡ width_in (seen given.entry) }
{
    number(given?, MIN_WIDTH, MAX_WIDTH)
}

/// How many `--keep` gives.
pub(crate) fn keep_in(given: Option<&str>) -> Option<u64>
    ensures { result ≡ keep_in (seen given.entry) }
{
    let kept = number(given?, MIN_KEEP, MAX_KEEP)?;
    Some(u64::from(kept))
}

/// The lines that `--output-logs` gives.
pub(crate) fn logs_in(given: Option<&str>) -> Option<LogWord>
    ensures { result ≡ logs_in (seen given.entry) }
{
    log_word(given?)
}

/// What `--env-mode` gives.
pub(crate) fn env_word_in(given: Option<&str>) -> Option<EnvWord>
    ensures { result ≡ env_word_in (seen given.entry) }
{
    env_word(given?)
}

/// What `--continue` gives.
pub(crate) fn keep_on_in(given: Option<&str>) -> Option<KeepOn>
    ensures { result ≡ keep_on_in (seen given.entry) }
{
    match given {
        None => Some(KeepOn::Always),
        Some(text) => keep_on(text),
    }
}

/// The stores that `--cache` gives.
pub(crate) fn access_in(given: Option<&str>) -> Option<Access>
    ensures { result ≡ access_in (seen given.entry) }
{
    access(given?)
}

/// Whether a dry run is printed in this form.
fn is_dry_form(given: Option<&str>) -> bool
    ensures { result ≡ is_dry_form (seen given.entry) }
{
    match given {
        None => true,
        Some(form) => form == "text",
    }
}

/// Whether the option at this place may have the value that it is given.
pub(crate) fn is_allowed(place: u8, given: Option<&str>) -> bool
    ensures { result ≡ is_allowed place (seen given.entry) }
{
    match place {
        FILTERS => given.is_some(),
        WIDTH => width_in(given).is_some(),
        LOGS => logs_in(given).is_some(),
        ENV_MODE => env_word_in(given).is_some(),
        KEEP_ON => keep_on_in(given).is_some(),
        CACHE => access_in(given).is_some(),
        KEEP => keep_in(given).is_some(),
        DRY => is_dry_form(given),
        _ => given.is_none(),
    }
}
