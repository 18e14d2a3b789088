// Values at the front of parts.
ghost use Rattle.std.specs.Prelude.{[], IfOk};
ghost use Rattle.codes.specs.Codes.{read_bytes, read_word, read_str};
ghost use Rattle.artifact_reader.specs.Parts.{AreWell, shown};
ghost use Rattle.artifact_reader.specs.Cursors.{left_in};
ghost use Rattle.cache_api.specs.Reading.{read_path, read_file, read_files};
ghost use Rattle.artifact_reader.specs.Reads.{IsRead, ArePlaces, AreFilePlaces, file_in, files_in};

use crate::Part;
use crate::cursor::Cursor;
use crate::stop::Stop;
use cache_api::{HitFile, HitFiles, path_in};
use codes::word_at;
use rel_path::{RelPath, Spans};
use std::alloc::Global;

/// How many bytes a number has.
const WORD_BYTES: u64 = 4;

/// So many bytes, which are to be known.
fn bytes<'a>(alloc: Global, cursor: Cursor<'a>, n: u64) -> Result<(Vec<u8>, Cursor<'a>), Stop>
    requires { AreWell (left_in cursor) }
    ensures { IsRead (λ text bytes. bytes.items) (read_bytes n) (left_in cursor.entry) result }
{
    let mut found = Vec::new(alloc);
    let mut cursor = cursor;
    let mut left = n;
    while left > 0 {
        let Some((part, behind)) = cursor.next(left) else {
            return Err(Stop::NoArtifact);
        };
        let Part::Known(bytes, _) = part else {
            return Err(Stop::Unknown);
        };
        found.extend_from_slice(bytes)?;
        left -= bytes.len() as u64;
        cursor = behind;
    }
    Ok((found, cursor))
}

/// The places of so many bytes, known or not.
fn places<'a>(alloc: Global, cursor: Cursor<'a>, n: u64) -> Result<(Spans, Cursor<'a>), Stop>
    requires { AreWell (left_in cursor) }
    ensures read { IsRead shown (read_bytes n) (left_in cursor.entry) result }
    ensures places { IfOk result (λ p. ArePlaces (left_in cursor.entry) p.0 (left_in p.1)) }
{
    let mut found = Spans::new(alloc);
    let mut cursor = cursor;
    let mut left = n;
    while left > 0 {
        let Some((part, behind)) = cursor.next(left) else {
            return Err(Stop::NoArtifact);
        };
        let span = part.span();
        found.push(span)?;
        left -= span.len;
        cursor = behind;
    }
    Ok((found, cursor))
}

/// A number.
#[tactic(auto, unfolding(codes::specs::Codes::read_word))]
fn word<'a>(alloc: Global, cursor: Cursor<'a>) -> Result<(u32, Cursor<'a>), Stop>
    requires { AreWell (left_in cursor) }
    ensures { IsRead (λ text word. word) read_word (left_in cursor.entry) result }
{
    let (bytes, behind) = bytes(alloc, cursor, WORD_BYTES)?;
    match word_at(bytes.as_slice()) {
        Some((word, _)) => Ok((word, behind)),
        None => Err(Stop::NoArtifact),
    }
}

/// The places of bytes behind their length.
#[tactic(auto, unfolding(codes::specs::Codes::read_str))]
pub(crate) fn string<'a>(alloc: Global, cursor: Cursor<'a>) -> Result<(Spans, Cursor<'a>), Stop>
    requires { AreWell (left_in cursor) }
    ensures read { IsRead shown read_str (left_in cursor.entry) result }
    ensures places { IfOk result (λ p. ArePlaces (left_in cursor.entry) p.0 (left_in p.1)) }
{
    let (len, behind) = word(alloc, cursor)?;
    let (spans, behind) = places(alloc, behind, len as u64)?;
    Ok((spans, behind))
}

/// A path behind the length of its text.
#[tactic(auto, unfolding(cache_api::specs::Reading::read_path, codes::specs::Codes::read_str))]
fn path<'a>(alloc: Global, cursor: Cursor<'a>) -> Result<(RelPath, Cursor<'a>), Stop>
    requires { AreWell (left_in cursor) }
    ensures { IsRead (λ text path. path) read_path (left_in cursor.entry) result }
{
    let (len, behind) = word(alloc, cursor)?;
    let (bytes, behind) = bytes(alloc, behind, len as u64)?;
    match path_in(alloc, bytes.as_slice()) {
        Ok(Some(path)) => Ok((path, behind)),
        Ok(None) => Err(Stop::NoArtifact),
        Err(_) => Err(Stop::OutOfMemory),
    }
}

/// A file: its path, and the places of its bytes.
#[tactic(auto, unfolding(cache_api::specs::Reading::read_file, codes::specs::Codes::read_both))]
fn file<'a>(alloc: Global, cursor: Cursor<'a>) -> Result<(HitFile, Cursor<'a>), Stop>
    requires { AreWell (left_in cursor) }
    ensures read { IsRead file_in read_file (left_in cursor.entry) result }
    ensures places { IfOk result (λ p. ArePlaces (left_in cursor.entry) p.0.spans (left_in p.1)) }
{
    let (path, behind) = path(alloc, cursor)?;
    let (spans, behind) = string(alloc, behind)?;
    Ok((HitFile { path, spans }, behind))
}

/// A list of files behind their count.
#[tactic(auto, unfolding(cache_api::specs::Reading::read_files, codes::specs::Codes::read_list))]
pub(crate) fn files<'a>(alloc: Global, cursor: Cursor<'a>) -> Result<(HitFiles, Cursor<'a>), Stop>
    requires { AreWell (left_in cursor) }
    ensures read { IsRead files_in read_files (left_in cursor.entry) result }
    ensures places { IfOk result (λ p. AreFilePlaces (left_in cursor.entry) p.0 (left_in p.1)) }
{
    let (count, first) = word(alloc, cursor)?;
    let mut files = HitFiles::new(alloc);
    let mut behind = first;
    for i in 0..count {
        let (file, next) = file(alloc, behind)?;
        files.push(file)?;
        behind = next;
    }
    Ok((files, behind))
}
