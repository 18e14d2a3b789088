// An artifact from its text.
ghost use Rattle.std.specs.Prelude.{◌≡◌, [], Some, None, IsTrue, IfOk, IfSome};
ghost use Rattle.codes.specs.Codes.{read_str, read_both, read_list, whole_of};
ghost use Rattle.codes.specs.Views.{taken_by, found_as};
ghost use Rattle.cache_api.specs.Artifacts.{artifact, ascends};
ghost use Rattle.cache_api.specs.Reading.{path_in, read_path, read_file, read_files, artifact_in};
ghost use Rattle.cache_api.specs.Memory.{OnlyMemory};

use crate::{Artifact, CacheErr};
use codes::{str_at, word_at};
use rel_path::{Bytes, Files, PathErr, RelPath, Text};
use std::alloc::Global;
use std::cmp::Ordering;

impl Artifact {
    /// The artifact that these bytes are, and `None` exactly where they are none: where they are no log and list of files
    /// with nothing behind them, or a path is none, or does not stand behind the one before it.
    #[tactic(auto, unfolding(crate::specs::Reading::artifact_in))]
    pub fn read(alloc: Global, text: &[u8]) -> Result<Option<Artifact>, CacheErr>
        ensures artifact { IfOk result (λ o. found_as artifact o ≡ artifact_in text.now) }
        ensures ascends { IfOk result (λ o. IfSome o (λ a. IsTrue (ascends a.files))) }
        ensures memory { OnlyMemory result }
    {
        let Some(artifact) = parts_of(alloc, text)? else {
            return Ok(None);
        };
        if ascends(artifact.files.as_slice()) {
            return Ok(Some(artifact));
        }
        Ok(None)
    }
}

/// A log and files, with nothing behind them.
#[tactic(auto, unfolding(codes::specs::Codes::read_both, codes::specs::Codes::whole_of))]
fn parts_of(alloc: Global, text: &[u8]) -> Result<Option<Artifact>, CacheErr>
    ensures parts { IfOk result (λ o.
        found_as artifact o ≡ whole_of (read_both read_str read_files text.now)) }
    ensures memory { OnlyMemory result }
{
    let Some((log, start)) = str_at(text) else {
        return Ok(None);
    };
    let log = Bytes::read(alloc, log)?;
    let Some((files, rest)) = files_at(alloc, start)? else {
        return Ok(None);
    };
    if let Some(_) = rest.split_first() {
        return Ok(None);
    }
    Ok(Some(Artifact { log, files }))
}

/// The list of files at the front, and what follows it.
#[tactic(auto, unfolding(crate::specs::Reading::read_files, codes::specs::Codes::read_list))]
fn files_at(alloc: Global, bytes: &[u8]) -> Result<Option<(Files, &[u8])>, CacheErr>
    ensures files { IfOk result (λ o. taken_by (λ p. p.0) (λ p. p.1.now) o ≡ read_files bytes.now) }
    ensures memory { OnlyMemory result }
{
    let Some((count, first)) = word_at(bytes) else {
        return Ok(None);
    };
    let mut files = Files::new(alloc);
    let mut rest = first;
    for i in 0..count {
        match file_at(alloc, rest)? {
            None => return Ok(None),
            Some((file, more)) => {
                files.push(file)?;
                rest = more;
            }
        }
    }
    Ok(Some((files, rest)))
}

/// The file at the front, and what follows it.
#[tactic(auto, unfolding(crate::specs::Reading::read_file, codes::specs::Codes::read_both))]
fn file_at(alloc: Global, bytes: &[u8]) -> Result<Option<((RelPath, Bytes), &[u8])>, CacheErr>
    ensures file { IfOk result (λ o. taken_by (λ p. p.0) (λ p. p.1.now) o ≡ read_file bytes.now) }
    ensures memory { OnlyMemory result }
{
    let Some((path, rest)) = path_at(alloc, bytes)? else {
        return Ok(None);
    };
    let Some((content, more)) = str_at(rest) else {
        return Ok(None);
    };
    let content = Bytes::read(alloc, content)?;
    Ok(Some(((path, content), more)))
}

/// The path at the front, and what follows it.
#[tactic(auto, unfolding(crate::specs::Reading::read_path))]
fn path_at(alloc: Global, bytes: &[u8]) -> Result<Option<(RelPath, &[u8])>, CacheErr>
    ensures path { IfOk result (λ o. taken_by (λ p. p.0) (λ p. p.1.now) o ≡ read_path bytes.now) }
    ensures memory { OnlyMemory result }
{
    let Some((text, rest)) = str_at(bytes) else {
        return Ok(None);
    };
    let Some(path) = path_in(alloc, text)? else {
        return Ok(None);
    };
    Ok(Some((path, rest)))
}

/// The path that a text writes, if it is UTF-8 and writes one.
pub fn path_in(alloc: Global, text: &[u8]) -> Result<Option<RelPath>, CacheErr>
    ensures path { IfOk result (λ o. o ≡ path_in text.now) }
    ensures memory { OnlyMemory result }
{
    let Ok(text) = std::str::from_utf8(text) else {
        return Ok(None);
    };
    match RelPath::read(alloc, text) {
        Ok(path) => Ok(Some(path)),
        Err(PathErr::OutOfMemory) => Err(CacheErr::OutOfMemory),
        Err(_) => Ok(None),
    }
}

/// Whether no path is the root, and each stands before the next one.
fn ascends(files: &[(RelPath, Bytes)]) -> bool
    ensures { result ≡ ascends files.now }
{
    let mut rest = files;
    let mut last: &[Text] = &[];
    while let Some(((path, _), more)) = rest.split_first() {
        if last.cmp(path.components()) != Ordering::Less {
            return false;
        }
        last = path.components();
        rest = more;
    }
    true
}
