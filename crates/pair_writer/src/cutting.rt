// The two texts of a pair, cut.
ghost use Rattle.std.specs.Prelude.{◌≡◌, ◌∷◌, ◌++◌, [], length, map, true, IfErr, OnOk};
ghost use Rattle.rel_path.specs.Causes.{Counts};
ghost use Rattle.sha2.specs.Sha256.{sha256};
ghost use Rattle.codes.specs.Codes.{AreBytes, word, str, IsShort};
ghost use Rattle.cache_api.specs.Artifacts.{artifact as held, IsTold};
ghost use Rattle.cache_api.specs.Cache.{is_fault, IsFindErr};
ghost use Rattle.record_log.specs.Log.{device_of};
ghost use Rattle.blob_pool.specs.Known.{Knows, OnlyReadsLog, known_in};
ghost use Rattle.pair_frames.specs.Runs.{is_content, file_run, key_runs, artifact_runs};
ghost use Rattle.pair_frames.specs.Runs.Run.{Plain};
ghost use Rattle.pair_writer.specs.Cuts.{IsCut};
ghost use Rattle.pair_writer.specs.Lists.{lists_files};
ghost use Rattle.pair_writer.specs.FileTexts.{key_texts, artifact_texts};

use crate::Staged;
use crate::lists::lists_files;
use crate::pieces::Pieces;
use blob_pool::Pool;
use cache_api::{Artifact, CacheErr};
use codes::{str_at, word_at};
use pair_frames::{MAGIC_BYTES, MIN_CONTENT_BYTES};
use record_log::Log;
use rel_path::limits::MAX_FILE_BYTES;
use std::alloc::Global;
use store_dev::StoreDevice;

/// Whether the bytes of a file are kept as a content.
fn is_content(bytes: &[u8]) -> bool
    ensures { result ≡ is_content bytes.now }
{
    let len = bytes.len() as u64;
    MIN_CONTENT_BYTES <= len && len <= MAX_FILE_BYTES
}

/// Cuts the bytes of a file, which have that digest.
fn cut_file<'a, S: StoreDevice>(
    alloc: Global,
    pool: &Pool,
    log: &mut Log<S>,
    staged: &mut Staged<'a>,
    pieces: &mut Pieces,
    digest: [u8; 32],
    bytes: &'a [u8],
) -> Result<(), CacheErr>
    requires pool { Knows pool.now log.old }
    requires digest { digest ≡ sha256 bytes.now }
    ensures cut { OnOk result (IsCut S.tells (known_in log.old) staged.old staged.new
        pieces.old pieces.new (file_run bytes.now ∷ [])) }
    ensures log { OnlyReadsLog log.old log.new }
    ensures answers { IfErr result IsFindErr }
    ensures cause { Counts is_fault (S.store_faults (device_of log.old))
        (S.store_faults (device_of log.new)) result }
{
    if is_content(bytes) {
        let number = staged.keep(alloc, pool, log, digest, bytes)?;
        pieces.content(number)?;
        return Ok(());
    }
    pieces.plain(bytes)?;
    Ok(())
}

/// Cuts a member of a list of files, whose bytes have that digest.
fn cut_named<'a, S: StoreDevice>(
    alloc: Global,
    pool: &Pool,
    log: &mut Log<S>,
    staged: &mut Staged<'a>,
    pieces: &mut Pieces,
    name: &[u8],
    digest: [u8; 32],
    bytes: &'a [u8],
) -> Result<(), CacheErr>
    requires pool { Knows pool.now log.old }
    requires digest { digest ≡ sha256 bytes.now }
    ensures cut { OnOk result (IsCut S.tells (known_in log.old) staged.old staged.new
        pieces.old pieces.new
        (Plain (str name.now ++ word (length bytes.now)) ∷ file_run bytes.now ∷ [])) }
    ensures short { OnOk result (IsShort name.now × IsShort bytes.now) }
    ensures log { OnlyReadsLog log.old log.new }
    ensures answers { IfErr result IsFindErr }
    ensures cause { Counts is_fault (S.store_faults (device_of log.old))
        (S.store_faults (device_of log.new)) result }
{
    pieces.head(name, bytes.len())?;
    cut_file(alloc, pool, log, staged, pieces, digest, bytes)?;
    Ok(())
}

/// Cuts an artifact. It is walked as it is, and its text is never made whole. A string or list of 2^32 or more bytes or
/// members takes more memory than there is. The digests are those of its files.
pub(crate) fn cut_artifact<'a, S: StoreDevice>(
    alloc: Global,
    pool: &Pool,
    log: &mut Log<S>,
    staged: &mut Staged<'a>,
    pieces: &mut Pieces,
    artifact: &'a Artifact,
    digests: &[[u8; 32]],
) -> Result<(), CacheErr>
    requires pool { Knows pool.now log.old }
    requires digests { digests.now ≡ map sha256 (artifact_texts (held artifact.now)) }
    ensures cut { OnOk result (IsCut S.tells (known_in log.old) staged.old staged.new
        pieces.old pieces.new (artifact_runs (held artifact.now))) }
    ensures told { OnOk result (IsTold (held artifact.now)) }
    ensures log { OnlyReadsLog log.old log.new }
    ensures answers { IfErr result IsFindErr }
    ensures cause { Counts is_fault (S.store_faults (device_of log.old))
        (S.store_faults (device_of log.new)) result }
{
    let files = artifact.files.as_slice();
    pieces.head(artifact.log.as_slice(), files.len())?;
    for (place, file) in files.iter().enumerate() {
        let name = file.0.text(alloc)?;
        let name = name.as_str().as_bytes();
        let digest = digests[place];
        let bytes = file.1.as_slice();
        cut_named(alloc, pool, log, staged, pieces, name, digest, bytes)?;
    }
    Ok(())
}

/// Cuts the text of a key. The digests are those of the files that it lists.
pub(crate) fn cut_key<'a, S: StoreDevice>(
    alloc: Global,
    pool: &Pool,
    log: &mut Log<S>,
    staged: &mut Staged<'a>,
    pieces: &mut Pieces,
    key: &'a [u8],
    digests: &[[u8; 32]],
) -> Result<(), CacheErr>
    requires pool { Knows pool.now log.old }
    requires digests { digests.now ≡ map sha256 (key_texts key.now) }
    ensures cut { OnOk result (IsCut S.tells (known_in log.old) staged.old staged.new
        pieces.old pieces.new (key_runs key.now)) }
    ensures bytes { AreBytes key.now }
    ensures log { OnlyReadsLog log.old log.new }
    ensures answers { IfErr result IsFindErr }
    ensures cause { Counts is_fault (S.store_faults (device_of log.old))
        (S.store_faults (device_of log.new)) result }
{
    if lists_files(key) {
        cut_list(alloc, pool, log, staged, pieces, key, digests)?;
        return Ok(());
    }
    pieces.plain(key)?;
    Ok(())
}

/// Cuts the text of a key that lists files, which have these digests.
fn cut_list<'a, S: StoreDevice>(
    alloc: Global,
    pool: &Pool,
    log: &mut Log<S>,
    staged: &mut Staged<'a>,
    pieces: &mut Pieces,
    key: &'a [u8],
    digests: &[[u8; 32]],
) -> Result<(), CacheErr>
    requires pool { Knows pool.now log.old }
    requires list { lists_files key.now ≡ true }
    requires digests { digests.now ≡ map sha256 (key_texts key.now) }
    ensures cut { OnOk result (IsCut S.tells (known_in log.old) staged.old staged.new
        pieces.old pieces.new (key_runs key.now)) }
    ensures log { OnlyReadsLog log.old log.new }
    ensures answers { IfErr result IsFindErr }
    ensures cause { Counts is_fault (S.store_faults (device_of log.old))
        (S.store_faults (device_of log.new)) result }
{
    let (magic, list) = key.split_at(MAGIC_BYTES as usize);
    let (count, first) = word_at(list).unwrap();
    pieces.plain(magic)?;
    pieces.word(count)?;
    let mut rest = first;
    for i in 0..count {
        let (name, behind) = str_at(rest).unwrap();
        let (bytes, more) = str_at(behind).unwrap();
        let digest = digests[i as usize];
        cut_named(alloc, pool, log, staged, pieces, name, digest, bytes)?;
        rest = more;
    }
    pieces.plain(rest)?;
    Ok(())
}
