// An artifact from the parts of its text.
ghost use Rattle.std.specs.Prelude.{◌≡◌, [], ℕ, List, IfOk, IsTrue, map};
ghost use Rattle.cache_api.specs.Hits.{paths_ascend, each_before};
ghost use Rattle.cache_api.specs.Memory.{OnlyMemory};
ghost use Rattle.artifact_reader.specs.Parts.{AreWell};
ghost use Rattle.artifact_reader.specs.Cursors.{left_in, AreOn};
ghost use Rattle.artifact_reader.specs.Artifacts.{IsReadingOf, HitLies, IsFew, OnHit, IsHitOf};

use crate::Part;
use crate::cursor::Cursor;
use crate::reading::{files, string};
use crate::stop::Stop;
use cache_api::{CacheErr, Hit, HitFile};
use rel_path::Text;
use std::alloc::Global;
use std::cmp::Ordering;

/// What the parts of a text are.
#[derive(Debug, Drop)]
pub enum Reading {
    /// An artifact, which stands there.
    Hit(Hit),
    NoArtifact,
    /// Something that has to be read of them is not known.
    Unknown,
}

/// Reads the text of these parts as an artifact. Of the bytes of its log and files nothing has to be known.
pub fn read_parts(alloc: Global, parts: &[Part]) -> Result<Reading, CacheErr>
    requires { AreWell parts.now }
    ensures read { IfOk result (IsReadingOf parts.now) }
    ensures ascend { IfOk result (λ reading. OnHit reading (λ hit. IsTrue (paths_ascend hit))) }
    ensures lies { IfOk result (λ reading. OnHit reading (λ hit.
        (low : ℕ) (text : List ℕ) → AreOn low text parts.now → HitLies low text hit)) }
    ensures few { IfOk result (λ reading. OnHit reading (IsFew parts.now)) }
    ensures memory { OnlyMemory result }
{
    match hit_at(alloc, Cursor::new(parts)) {
        Ok(hit) => {
            if ascends(hit.files.as_slice()) {
                Ok(Reading::Hit(hit))
            } else {
                Ok(Reading::NoArtifact)
            }
        }
        Err(Stop::NoArtifact) => Ok(Reading::NoArtifact),
        Err(Stop::Unknown) => Ok(Reading::Unknown),
        Err(Stop::OutOfMemory) => Err(CacheErr::OutOfMemory),
    }
}

/// A log and files, with nothing behind them.
fn hit_at(alloc: Global, cursor: Cursor) -> Result<Hit, Stop>
    requires { AreWell (left_in cursor) }
    ensures { IsHitOf (left_in cursor.entry) result }
{
    let (log, behind) = string(alloc, cursor)?;
    let (files, behind) = files(alloc, behind)?;
    match behind.next(1) {
        Some(_) => Err(Stop::NoArtifact),
        None => Ok(Hit {
            side: 0,
            log,
            files,
        }),
    }
}

/// Whether no path is the root, and each stands before the next one.
fn ascends(files: &[HitFile]) -> bool
    ensures { result ≡ each_before [] (map (λ file. file.path) files.now) }
{
    let mut rest = files;
    let mut last: &[Text] = &[];
    while let Some((file, more)) = rest.split_first() {
        if last.cmp(file.path.components()) != Ordering::Less {
            return false;
        }
        last = file.path.components();
        rest = more;
    }
    true
}
