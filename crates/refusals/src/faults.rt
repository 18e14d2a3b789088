// The faults of the readers, each by its name and its fields.
ghost use Rattle.std.specs.Prelude.{◌≡◌, ◌++◌, IfOk, string_bytes, codes, decimal};
ghost use Rattle.refusals.specs.Faults.{kind_text, words_fault, manifest_fault, lock_fault, glob_fault, config_fault};

use cli_words::WordsErr;
use glob_syntax::GlobErr;
use json_view::Shape;
use lock_entries::LockErr;
use manifest::ManifestErr;
use rel_path::Text;
use std::alloc::{AllocError, Global};
use turbo_config::ConfigErr;

// A fault without fields.
fn bare(alloc: Global, name: &str) -> Result<String, AllocError>
    ensures text { IfOk result (λ text. string_bytes text ≡ name.now) }
{
    Ok(String::from_str(alloc, name)?)
}

fn numbered(alloc: Global, name: &str, number: u64) -> Result<String, AllocError>
    ensures text { IfOk result (λ text. string_bytes text
        ≡ name.now ++ (codes " " ++ decimal number)) }
{
    Ok(format!(in alloc; "{name} {number}")?)
}

fn named(alloc: Global, name: &str, text: &Text) -> Result<String, AllocError>
    ensures text { IfOk result (λ line. string_bytes line
        ≡ name.now ++ (codes " " ++ text.now)) }
{
    let text = text.as_str();
    Ok(format!(in alloc; "{name} {text}")?)
}

fn wrong_kind(alloc: Global, pointer: &Text, wanted: Shape) -> Result<String, AllocError>
    ensures text { IfOk result (λ text. string_bytes text ≡ kind_text pointer.now wanted) }
{
    let pointer = pointer.as_str();
    let wanted = wanted.word();
    Ok(format!(in alloc; "WrongKind {pointer} {wanted}")?)
}

pub(crate) fn words_fault(alloc: Global, fault: WordsErr) -> Result<String, AllocError>
    ensures text { IfOk result (λ text. string_bytes text ≡ words_fault fault) }
{
    match fault {
        WordsErr::Unknown { at } => numbered(alloc, "Unknown", at),
        WordsErr::NoTask => bare(alloc, "NoTask"),
        WordsErr::BadValue { at } => numbered(alloc, "BadValue", at),
        WordsErr::Twice { at } => numbered(alloc, "Twice", at),
        WordsErr::OutOfMemory => bare(alloc, "OutOfMemory"),
    }
}

pub(crate) fn manifest_fault(alloc: Global, fault: &ManifestErr) -> Result<String, AllocError>
    ensures text { IfOk result (λ text. string_bytes text ≡ manifest_fault fault.now) }
{
    match fault {
        ManifestErr::NotJson => bare(alloc, "NotJson"),
        ManifestErr::NoName => bare(alloc, "NoName"),
        ManifestErr::WrongKind { pointer, wanted } => wrong_kind(alloc, pointer, *wanted),
        ManifestErr::OtherManager { text } => named(alloc, "OtherManager", text),
        ManifestErr::OutOfMemory => bare(alloc, "OutOfMemory"),
    }
}

pub(crate) fn lock_fault(alloc: Global, fault: &LockErr) -> Result<String, AllocError>
    ensures text { IfOk result (λ text. string_bytes text ≡ lock_fault fault.now) }
{
    match fault {
        LockErr::NotJson => bare(alloc, "NotJson"),
        LockErr::WrongKind { pointer, wanted } => wrong_kind(alloc, pointer, *wanted),
        LockErr::Version { n } => {
            let n = *n;
            Ok(format!(in alloc; "Version {n}")?)
        }
        LockErr::Number { pointer } => named(alloc, "Number", pointer),
        LockErr::OutOfMemory => bare(alloc, "OutOfMemory"),
    }
}

pub(crate) fn glob_fault(alloc: Global, fault: GlobErr) -> Result<String, AllocError>
    ensures text { IfOk result (λ text. string_bytes text ≡ glob_fault fault) }
{
    match fault {
        GlobErr::OpenClass { at } => numbered(alloc, "OpenClass", at),
        GlobErr::OpenBrace { at } => numbered(alloc, "OpenBrace", at),
        GlobErr::Nested { at } => numbered(alloc, "Nested", at),
        GlobErr::Climbs { at } => numbered(alloc, "Climbs", at),
        GlobErr::Wide { at } => numbered(alloc, "Wide", at),
        GlobErr::OutOfMemory => bare(alloc, "OutOfMemory"),
    }
}

pub(crate) fn config_fault(alloc: Global, fault: &ConfigErr) -> Result<String, AllocError>
    ensures text { IfOk result (λ text. string_bytes text ≡ config_fault fault.now) }
{
    match fault {
        ConfigErr::Pipeline => bare(alloc, "Pipeline"),
        ConfigErr::UnknownKey { pointer } => named(alloc, "UnknownKey", pointer),
        ConfigErr::WrongKind { pointer, wanted } => wrong_kind(alloc, pointer, *wanted),
        ConfigErr::ForeignKey { pointer } => named(alloc, "ForeignKey", pointer),
        ConfigErr::NoExtends => bare(alloc, "NoExtends"),
        ConfigErr::TaskName { pointer } => named(alloc, "TaskName", pointer),
        ConfigErr::OpenComment { at } => numbered(alloc, "OpenComment", *at),
        ConfigErr::NotJson => bare(alloc, "NotJson"),
        ConfigErr::Glob { pointer, fault } => {
            let pointer = pointer.as_str();
            let fault = glob_fault(alloc, *fault)?;
            let fault = fault.as_str();
            Ok(format!(in alloc; "Glob {pointer} {fault}")?)
        }
        ConfigErr::OutOfMemory => bare(alloc, "OutOfMemory"),
    }
}
