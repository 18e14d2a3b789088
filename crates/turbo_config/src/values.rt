// Values of the kinds that a turbo.json has.
ghost use Rattle.std.specs.Prelude.{◌≡◌, ◌⊎◌};
ghost use Rattle.serde_json.specs.View.{view, members_view};
ghost use Rattle.turbo_config.specs.Answers.{Reads, ReadsAs};
ghost use Rattle.turbo_config.specs.Values.{flag_at, text_at, texts_at, list_at, members_at, log_mode_of, log_mode_at, env_mode_of, env_mode_at};

use crate::entry::LogMode;
use crate::error::ConfigErr;
use crate::glob_fault::{ListKind, check_entries};
use env_select::EnvMode;
use json_view::{Shape, texts_of, wrong_kind};
use rel_path::Texts;
use serde_json::{Map, Value};
use std::alloc::Global;

/// That something else than the shape stands at the pointer.
fn wrong_value(alloc: Global, at: &str, wanted: Shape) -> ConfigErr
    ensures { (result ≡ ConfigErr.OutOfMemory) ⊎ (result ≡ ConfigErr.WrongKind at.now wanted) }
{
    ConfigErr::from(wrong_kind(alloc, at, wanted))
}

/// A flag.
#[tactic(auto, unfolding(crate::specs::Values::flag_at))]
pub(crate) fn flag_at(alloc: Global, at: &str, value: &Value) -> Result<bool, ConfigErr>
    ensures { Reads (flag_at at.now (view value.now)) result }
{
    match value.as_bool() {
        Some(flag) => Ok(flag),
        None => Err(wrong_value(alloc, at, Shape::Flag)),
    }
}

/// A text.
#[tactic(auto, unfolding(crate::specs::Values::text_at))]
fn text_at<'a>(alloc: Global, at: &str, value: &'a Value) -> Result<&'a str, ConfigErr>
    ensures { ReadsAs (λ text. text.now) (text_at at.now (view value.now)) result }
{
    match value.as_str() {
        Some(text) => Ok(text),
        None => Err(wrong_value(alloc, at, Shape::Text)),
    }
}

/// The members of an object.
#[tactic(auto, unfolding(crate::specs::Values::members_at))]
pub(crate) fn members_at<'a>(
    alloc: Global,
    at: &str,
    value: &'a Value,
) -> Result<&'a Map<String, Value>, ConfigErr>
    ensures { ReadsAs (λ members. members_view members.now.entries)
        (members_at at.now (view value.now)) result }
{
    match value.as_object() {
        Some(members) => Ok(members),
        None => Err(wrong_value(alloc, at, Shape::Object)),
    }
}

/// The strings of an array.
#[tactic(auto, unfolding(crate::specs::Values::texts_at))]
fn texts_at(alloc: Global, at: &str, value: &Value) -> Result<Texts, ConfigErr>
    ensures { Reads (texts_at at.now (view value.now)) result }
{
    match value.as_array() {
        None => Err(wrong_value(alloc, at, Shape::Texts)),
        Some(items) => match texts_of(alloc, items.as_slice())? {
            None => Err(wrong_value(alloc, at, Shape::Texts)),
            Some(texts) => Ok(texts),
        },
    }
}

/// The strings of an array, each of which is an entry of that kind.
#[tactic(auto, unfolding(crate::specs::Values::list_at))]
pub(crate) fn list_at(
    alloc: Global,
    kind: ListKind,
    at: &str,
    value: &Value,
) -> Result<Texts, ConfigErr>
    ensures { Reads (list_at kind at.now (view value.now)) result }
{
    let texts = texts_at(alloc, at, value)?;
    check_entries(alloc, kind, at, texts.as_slice())?;
    Ok(texts)
}

fn log_mode_of(word: &str) -> Option<LogMode>
    ensures { result ≡ log_mode_of word.now }
{
    match word {
        "full" => Some(LogMode::Full),
        "hash-only" => Some(LogMode::HashOnly),
        "new-only" => Some(LogMode::NewOnly),
        "errors-only" => Some(LogMode::ErrorsOnly),
        "none" => Some(LogMode::Silent),
        _ => None,
    }
}

/// One of the words of `outputLogs`.
#[tactic(auto, unfolding(crate::specs::Values::log_mode_at))]
pub(crate) fn log_mode_at(alloc: Global, at: &str, value: &Value) -> Result<LogMode, ConfigErr>
    ensures { Reads (log_mode_at at.now (view value.now)) result }
{
    match log_mode_of(text_at(alloc, at, value)?) {
        Some(mode) => Ok(mode),
        None => Err(wrong_value(alloc, at, Shape::Choice)),
    }
}

fn env_mode_of(word: &str) -> Option<EnvMode>
    ensures { result ≡ env_mode_of word.now }
{
    match word {
        "strict" => Some(EnvMode::Strict),
        "loose" => Some(EnvMode::Loose),
        _ => None,
    }
}

/// One of the words of `envMode`.
#[tactic(auto, unfolding(crate::specs::Values::env_mode_at))]
pub(crate) fn env_mode_at(alloc: Global, at: &str, value: &Value) -> Result<EnvMode, ConfigErr>
    ensures { Reads (env_mode_at at.now (view value.now)) result }
{
    match env_mode_of(text_at(alloc, at, value)?) {
        Some(mode) => Ok(mode),
        None => Err(wrong_value(alloc, at, Shape::Choice)),
    }
}
