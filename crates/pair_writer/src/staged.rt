// Frames that are to be appended together.
ghost use Rattle.std.specs.Prelude.{◌≡◌, ◌≤◌, ◌<◌, ◌+◌, ◌++◌, ◌∷◌, [], length, take, true, Some, IfOk, IfErr, OnOk};
ghost use Rattle.pair_writer.specs.Held.{IsHeld, staged_entries};
ghost use Rattle.pair_writer.specs.Contents.{digests_in, bytes_in};

use crate::StagedFrame;
use crate::contents::Contents;
use crate::kept::kept;
use blob_pool::Pool;
use cache_api::CacheErr;
use record_log::{CONTENT, LONG_RECORD, Log, NewFrame, need_of};
use std::alloc::{AllocError, Global};
use std::mem;
use store_dev::StoreDevice;

/// Frames that are to be appended together behind those of a log. Each content among them is staged once.
#[derive(Drop)]
pub struct Staged<'a> {
    frames: Vec<StagedFrame<'a>>,
    contents: Contents<'a>,
    // What they take, each with a gate, or the greatest `u64` where that is more.
    size: u64,
    ghost held: { IsHeld (staged_entries frames.items)
        (digests_in contents) (bytes_in contents) size },
}

impl<'a> Staged<'a> {
    ghost use Rattle.rel_path.specs.Causes.{Counts};
    ghost use Rattle.sha2.specs.Sha256.{sha256};
    ghost use Rattle.cache_api.specs.Cache.{is_fault, IsFindErr};
    ghost use Rattle.cache_api.specs.Memory.{capped};
    ghost use Rattle.record_log.specs.Kinds.{entry};
    ghost use Rattle.record_log.specs.Frames.{opened};
    ghost use Rattle.record_log.specs.Batch.{new_entries};
    ghost use Rattle.record_log.specs.Log.{device_of};
    ghost use Rattle.blob_pool.specs.Pool.{first_of, missing, blob};
    ghost use Rattle.blob_pool.specs.Known.{Knows, OnlyReadsLog, known_in};
    ghost use Rattle.pair_frames.specs.Runs.{is_content};
    ghost use Rattle.pair_writer.specs.Staged.{entries, taken, staged_count, MayKeep};

    /// No frames.
    pub fn new(alloc: Global) -> Staged<'a>
        ensures { entries result ≡ [] }
    {
        Staged {
            frames: Vec::new(alloc),
            contents: Contents::new(alloc),
            size: 0,
        }
    }

    /// How many bytes they take, each with a gate, or 2^64 - 1 where that is more.
    pub fn size(&self) -> u64
        ensures { result ≡ capped (taken self.now) }
    {
        self.size
    }

    /// How many contents are among them.
    pub fn contents(&self) -> u64
        ensures { result ≡ staged_count self.now }
    {
        self.contents.bytes.len() as u64
    }

    /// The frames, in order.
    pub fn as_slice(&self) -> &[StagedFrame<'a>]
        ensures { staged_entries result.now ≡ entries self.now }
    {
        self.frames.as_slice()
    }

    /// The frames for an append.
    pub fn frames(&self, alloc: Global) -> Result<Vec<NewFrame>, AllocError>
        ensures { IfOk result (λ frames. new_entries frames.items ≡ entries self.now) }
    {
        let mut frames = Vec::with_capacity(alloc, self.frames.len())?;
        let staged = self.frames.as_slice();
        for frame in staged {
            frames.push(frame.as_new())?;
        }
        Ok(frames)
    }

    /// The number, among the contents, of the first that is these bytes behind their digest.
    fn find(&self, digest: &[u8; 32], bytes: &[u8]) -> Option<u64>
        requires { digest.now ≡ sha256 bytes.now }
        ensures { result ≡ first_of (entries self.now) bytes.now }
    {
        let mut found = None;
        let mut last = self.contents.index.last(digest);
        while let Some(number) = last {
            if self.contents.bytes[number as usize] == bytes {
                found = Some(number);
            }
            last = self.contents.index.before(number);
        }
        found
    }

    /// Adds the frame of a content.
    fn push_content(&mut self, digest: [u8; 32], bytes: &'a [u8]) -> Result<(), AllocError>
        requires digest { digest ≡ sha256 bytes.now }
        requires content { is_content bytes.now ≡ true }
        ensures { OnOk result (entries self.new ≡ entries self.old ++ blob bytes.now ∷ []) }
    {
        let need = need_of(CONTENT, &digest, bytes);
        self.frames.reserve(1)?;
        self.contents.push(digest, bytes)?;
        self.frames
            .push_reserved(StagedFrame::Content { digest, bytes });
        self.size = self.size.saturating_add(need);
        Ok(())
    }

    /// Adds the frame of a record.
    pub(crate) fn push_record(&mut self, print: [u8; 32], text: Vec<u8>) -> Result<(), AllocError>
        ensures { OnOk result (entries self.new
            ≡ entries self.old ++ entry LONG_RECORD print text.items ∷ []) }
    {
        let need = need_of(LONG_RECORD, &print, text.as_slice());
        self.frames.push(StagedFrame::Record { print, text })?;
        self.size = self.size.saturating_add(need);
        Ok(())
    }

    /// Keeps these bytes, which have that digest, once: it answers the number that the first content that is these bytes has,
    /// where those staged stand behind those of the log. Where there is none it stages one.
    pub(crate) fn keep<S: StoreDevice>(
        &mut self,
        alloc: Global,
        pool: &Pool,
        log: &mut Log<S>,
        digest: [u8; 32],
        bytes: &'a [u8],
    ) -> Result<u64, CacheErr>
        requires pool { Knows pool.now log.old }
        requires digest { digest ≡ sha256 bytes.now }
        requires content { is_content bytes.now ≡ true }
        ensures number { S.tells → IfOk result
            (λ n. first_of (known_in log.old ++ entries self.new) bytes.now ≡ Some n) }
        ensures frames { S.tells → OnOk result (entries self.new
            ≡ entries self.old ++ missing (known_in log.old ++ entries self.old) bytes.now) }
        ensures grown { OnOk result (MayKeep (entries self.old) bytes.now (entries self.new)) }
        ensures log { OnlyReadsLog log.old log.new }
        ensures answers { IfErr result IsFindErr }
        ensures cause { Counts is_fault (S.store_faults (device_of log.old))
            (S.store_faults (device_of log.new)) result }
    {
        if let Some(number) = kept(alloc, pool, log, &digest, bytes)? {
            return Ok(number);
        }
        if let Some(number) = self.find(&digest, bytes) {
            return Ok(pool.count() + number);
        }
        let number = pool.count() + self.contents();
        self.push_content(digest, bytes)?;
        Ok(number)
    }

    /// Leaves the first frames, so many, which take that size.
    pub(crate) fn take_back(
        &mut self,
        alloc: Global,
        frames: usize,
        size: u64,
    ) -> Result<(), AllocError>
        requires inside { frames ≤ length (entries self.old) }
        requires size { size ≡ capped (length (opened (take frames (entries self.old)))) }
        ensures { OnOk result (entries self.new ≡ take frames (entries self.old)) }
    {
        let contents = Contents::of(alloc, &self.frames[..frames])?;
        self.frames.truncate(frames);
        self.size = size;
        let _old = mem::replace(&mut self.contents, contents);
        Ok(())
    }
}
