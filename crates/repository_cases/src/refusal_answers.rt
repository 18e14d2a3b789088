// Refusals, as cases write them: the kind of the refusal, the fault in it, and what it tells.
use crate::repositories::{task_of, tasks_of};
use anyhow::{Result, bail};
use case_files::inputs;
use cli_words::WordsErr;
use glob_syntax::GlobErr;
use json_view::Shape;
use lock_entries::LockErr;
use manifest::ManifestErr;
use refusals::{Refusal, StoreFile};
use rel_path::Text;
use serde_json::Value;
use std::alloc::Global;
use turbo_config::ConfigErr;

fn own_text(alloc: Global, case: &Value, name: &str) -> Result<Text> {
    Ok(Text::read(alloc, inputs::text(case, name)?)?)
}

fn words_fault(case: &Value) -> Result<WordsErr> {
    match inputs::text(case, "fault")? {
        "Unknown" => Ok(WordsErr::Unknown {
            at: inputs::number(case, "at")?,
        }),
        "NoTask" => Ok(WordsErr::NoTask),
        "BadValue" => Ok(WordsErr::BadValue {
            at: inputs::number(case, "at")?,
        }),
        "Twice" => Ok(WordsErr::Twice {
            at: inputs::number(case, "at")?,
        }),
        word => bail!("no such fault: {word}"),
    }
}

fn glob_fault(word: &str, at: u64) -> Result<GlobErr> {
    match word {
        "OpenClass" => Ok(GlobErr::OpenClass { at }),
        "OpenBrace" => Ok(GlobErr::OpenBrace { at }),
        "Nested" => Ok(GlobErr::Nested { at }),
        "Climbs" => Ok(GlobErr::Climbs { at }),
        "Wide" => Ok(GlobErr::Wide { at }),
        _ => bail!("no such fault: {word}"),
    }
}

fn shape_of(word: &str) -> Result<Shape> {
    match word {
        "text" => Ok(Shape::Text),
        "texts" => Ok(Shape::Texts),
        "flag" => Ok(Shape::Flag),
        "whole" => Ok(Shape::Whole),
        "object" => Ok(Shape::Object),
        "choice" => Ok(Shape::Choice),
        _ => bail!("no such shape: {word}"),
    }
}

fn manifest_fault(alloc: Global, case: &Value) -> Result<ManifestErr> {
    match inputs::text(case, "fault")? {
        "NotJson" => Ok(ManifestErr::NotJson),
        "NoName" => Ok(ManifestErr::NoName),
        "WrongKind" => Ok(ManifestErr::WrongKind {
            pointer: own_text(alloc, case, "pointer")?,
            wanted: shape_of(inputs::text(case, "wanted")?)?,
        }),
        "OtherManager" => Ok(ManifestErr::OtherManager {
            text: own_text(alloc, case, "text")?,
        }),
        word => bail!("no such fault: {word}"),
    }
}

// A number of 64 bits, with a sign or without.
fn version_of(case: &Value) -> Result<i128> {
    let value = inputs::value(case, "version")?;
    match (value.as_i64(), value.as_u64()) {
        (Some(number), _) => Ok(i128::from(number)),
        (None, Some(number)) => Ok(i128::from(number)),
        (None, None) => bail!("no version"),
    }
}

fn lock_fault(alloc: Global, case: &Value) -> Result<LockErr> {
    match inputs::text(case, "fault")? {
        "NotJson" => Ok(LockErr::NotJson),
        "WrongKind" => Ok(LockErr::WrongKind {
            pointer: own_text(alloc, case, "pointer")?,
            wanted: shape_of(inputs::text(case, "wanted")?)?,
        }),
        "Version" => Ok(LockErr::Version {
            n: version_of(case)?,
        }),
        "Number" => Ok(LockErr::Number {
            pointer: own_text(alloc, case, "pointer")?,
        }),
        word => bail!("no such fault: {word}"),
    }
}

// A fault of a turbo.json with a pointer in it.
fn pointed_fault(alloc: Global, case: &Value, word: &str) -> Result<ConfigErr> {
    let pointer = own_text(alloc, case, "pointer")?;
    match word {
        "UnknownKey" => Ok(ConfigErr::UnknownKey { pointer }),
        "ForeignKey" => Ok(ConfigErr::ForeignKey { pointer }),
        "TaskName" => Ok(ConfigErr::TaskName { pointer }),
        "WrongKind" => {
            let wanted = shape_of(inputs::text(case, "wanted")?)?;
            Ok(ConfigErr::WrongKind { pointer, wanted })
        }
        "Glob" => {
            let fault = glob_fault(
                inputs::text(case, "glob fault")?,
                inputs::number(case, "at")?,
            )?;
            Ok(ConfigErr::Glob { pointer, fault })
        }
        _ => bail!("no such fault: {word}"),
    }
}

fn config_fault(alloc: Global, case: &Value) -> Result<ConfigErr> {
    match inputs::text(case, "fault")? {
        "Pipeline" => Ok(ConfigErr::Pipeline),
        "NoExtends" => Ok(ConfigErr::NoExtends),
        "NotJson" => Ok(ConfigErr::NotJson),
        "OpenComment" => Ok(ConfigErr::OpenComment {
            at: inputs::number(case, "at")?,
        }),
        word => pointed_fault(alloc, case, word),
    }
}

// Refusals of files and folders.
fn file_refusal(alloc: Global, case: &Value, kind: &str) -> Result<Refusal> {
    let path = inputs::path(alloc, case, "path")?;
    match kind {
        "Manifest" => Ok(Refusal::Manifest {
            path,
            fault: manifest_fault(alloc, case)?,
        }),
        "Config" => Ok(Refusal::Config {
            path,
            fault: config_fault(alloc, case)?,
        }),
        "Glob" => Ok(Refusal::Glob {
            path,
            pointer: own_text(alloc, case, "pointer")?,
            fault: glob_fault(inputs::text(case, "fault")?, inputs::number(case, "at")?)?,
        }),
        "TooDeep" => Ok(Refusal::TooDeep { path }),
        "TooLarge" => Ok(Refusal::TooLarge { path }),
        "OutTaken" => Ok(Refusal::OutTaken { path }),
        _ => bail!("no such refusal: {kind}"),
    }
}

// Refusals of what words name, and of packages.
fn name_refusal(alloc: Global, case: &Value, kind: &str) -> Result<Refusal> {
    let name = own_text(alloc, case, "name")?;
    match kind {
        "Filter" => Ok(Refusal::Filter { word: name }),
        "NoPackage" => Ok(Refusal::NoPackage { name }),
        "NoSuchTask" => Ok(Refusal::NoSuchTask { name }),
        "LockMissing" => Ok(Refusal::LockMissing {
            from: own_text(alloc, case, "from")?,
            name,
        }),
        "NameTwice" => Ok(Refusal::NameTwice {
            name,
            first: inputs::path(alloc, case, "first")?,
            second: inputs::path(alloc, case, "second")?,
        }),
        _ => bail!("no such refusal: {kind}"),
    }
}

// Refusals of tasks.
fn task_refusal(alloc: Global, case: &Value, kind: &str) -> Result<Refusal> {
    match kind {
        "NoSuchDependency" => Ok(Refusal::NoSuchDependency {
            task: task_of(alloc, inputs::text(case, "task")?)?,
            text: own_text(alloc, case, "text")?,
        }),
        "Cycle" => Ok(Refusal::Cycle {
            tasks: tasks_of(alloc, case, "tasks")?,
        }),
        "Persistent" => Ok(Refusal::Persistent {
            task: task_of(alloc, inputs::text(case, "task")?)?,
        }),
        _ => bail!("no such refusal: {kind}"),
    }
}

fn store_file(word: &str) -> Result<StoreFile> {
    match word {
        "store" => Ok(StoreFile::Store),
        "spare" => Ok(StoreFile::Spare),
        "second" => Ok(StoreFile::Second),
        "shared" => Ok(StoreFile::Shared),
        _ => bail!("no such file: {word}"),
    }
}

// Refusals of stores.
fn store_refusal(case: &Value, kind: &str) -> Result<Refusal> {
    if kind == "NoRoom" {
        return Ok(Refusal::NoRoom {
            need: inputs::number(case, "need")?,
            free: inputs::number(case, "free")?,
        });
    }
    let file = store_file(inputs::text(case, "file")?)?;
    match kind {
        "NotAStore" => Ok(Refusal::NotAStore { file }),
        "Damaged" => Ok(Refusal::Damaged {
            file,
            at: inputs::number(case, "at")?,
        }),
        _ => bail!("no such refusal: {kind}"),
    }
}

// Refusals that stand alone, or hold a number.
fn plain_refusal(alloc: Global, case: &Value, kind: &str) -> Result<Refusal> {
    match kind {
        "Words" => Ok(Refusal::Words(words_fault(case)?)),
        "Lock" => Ok(Refusal::Lock(lock_fault(alloc, case)?)),
        "NoManifest" => Ok(Refusal::NoManifest),
        "TooMany" => Ok(Refusal::TooMany),
        "LastGeneration" => Ok(Refusal::LastGeneration),
        "TooMuch" => Ok(Refusal::TooMuch {
            bytes: inputs::number(case, "bytes")?,
        }),
        "Inside" => Ok(Refusal::Inside {
            outer: inputs::path(alloc, case, "outer")?,
            inner: inputs::path(alloc, case, "inner")?,
        }),
        "NotAStore" | "Damaged" | "NoRoom" => store_refusal(case, kind),
        _ => task_refusal(alloc, case, kind),
    }
}

/// The refusal that the case writes.
pub fn refusal_of(alloc: Global, case: &Value) -> Result<Refusal> {
    match inputs::text(case, "refusal")? {
        kind @ ("Manifest" | "Config" | "Glob" | "TooDeep" | "TooLarge" | "OutTaken") => {
            file_refusal(alloc, case, kind)
        }
        kind @ ("Filter" | "NoPackage" | "NoSuchTask" | "LockMissing" | "NameTwice") => {
            name_refusal(alloc, case, kind)
        }
        kind => plain_refusal(alloc, case, kind),
    }
}
