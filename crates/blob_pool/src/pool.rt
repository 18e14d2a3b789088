// The contents of a log.
ghost use Rattle.std.specs.Prelude.{◌≡◌, ◌⊎◌, ◌<◌, ◌≤◌, ◌+◌, ◌-◌, ◌++◌, ◌∷◌, [], Some, length, get_or, bytes_eq, IsTrue, IsOk, IsErrOf, IfOk, IfErr, IfSome, OnOk, OnErr};
ghost use Rattle.rel_path.specs.Limits.{store_limit};
ghost use Rattle.sha2.specs.Sha256.{sha256};
ghost use Rattle.codes.specs.Views.{found_as};
ghost use Rattle.record_log.specs.declared.kind.TheConstants.{CONTENT};
ghost use Rattle.record_log.specs.Kinds.{limit_of};
ghost use Rattle.record_log.specs.Frames.{ends, text_of};
ghost use Rattle.record_log.specs.Batch.{room_for_all, IsBeforeOrAll};
ghost use Rattle.record_log.specs.Seats.{IsSpanOf};
ghost use Rattle.record_log.specs.Log.{frames_in, count_of, is_whole, room_of, CountsIn, LeavesOnlyIn};
ghost use Rattle.record_log.specs.Answers.{IsAppendErr, IsReadErr};
ghost use Rattle.blob_pool.specs.Contents.{content_at, places_from};
ghost use Rattle.blob_pool.specs.Pool.{first_of, missing};
ghost use Rattle.blob_pool.specs.Known.{Knows, KnowsFirst, StandsBelow, IsPoolOf, HoldsTheSame, OnlyReadsLog, ReadsAtMostOnce, known_in, count_in, places_in, digests_in, room_in};
ghost use Rattle.blob_pool.specs.Answers.{IsFullFor};

use crate::digest::{digest_at, digest_of};
use print_index::PrintIndex;
use record_log::{CONTENT, Log, LogErr, NewFrame};
use rel_path::Span;
use std::alloc::{AllocError, Global};
use store_dev::StoreDevice;

/// A content by its number: that of its frame among the frames of kind 2.
#[derive(Clone, Copy, Debug, PartialEq, Eq)]
pub struct BlobId {
    pub number: u64,
}

/// Where the contents of a log stand, and their digests, both by number.
#[derive(Drop)]
pub struct Pool {
    // The numbers of their frames in the log.
    places: Vec<u64>,
    index: PrintIndex,
}

impl Pool {
    /// Of no frames.
    pub fn new(alloc: Global) -> Pool
        ensures none { IsPoolOf result [] }
        ensures bounds { StandsBelow result 0 }
    {
        Pool {
            places: Vec::new(alloc),
            index: PrintIndex::new(alloc),
        }
    }

    /// The pool of a log. It reads the digests of the contents and none of their bytes.
    pub fn read<S: StoreDevice>(alloc: Global, log: &mut Log<S>) -> Result<Pool, LogErr>
        ensures pool { IfOk result (λ pool. Knows pool log.new) }
        ensures log { OnlyReadsLog log.old log.new }
        ensures answers { IfErr result IsReadErr }
        ensures cause { CountsIn log.old log.new result }
    {
        let mut pool = Pool::new(alloc);
        pool.read_from(log, 0)?;
        Ok(pool)
    }

    /// Goes on from the contents of the first so many frames of a log to those of all, and reads the digests of those
    /// behind them alone.
    pub fn read_from<S: StoreDevice>(&mut self, log: &mut Log<S>, first: u64) -> Result<(), LogErr>
        requires first { first ≤ count_of log.old }
        requires known { S.tells → KnowsFirst self.old (frames_in log.old) first }
        requires bounds { StandsBelow self.old first }
        ensures pool { OnOk result (Knows self.new log.new) }
        ensures log { OnlyReadsLog log.old log.new }
        ensures answers { IfErr result IsReadErr }
        ensures cause { CountsIn log.old log.new result }
    {
        for number in first..log.frames() {
            if log.kind_at(number) == CONTENT {
                let digest = digest_at(log, number)?;
                self.learn(number, digest)?;
            }
        }
        Ok(())
    }

    /// How many contents there are.
    pub fn count(&self) -> u64
        ensures { result ≡ count_in self.now }
    {
        self.places.len() as u64
    }

    /// Makes room for as many contents more, so that learning them cannot fail.
    ///
    /// Fails for want of memory. The pool stays as it was, whatever the answer.
    pub fn reserve(&mut self, more: usize) -> Result<(), AllocError>
        ensures same { HoldsTheSame self.old self.new }
        ensures room { OnOk result (more ≤ room_in self.new) }
        ensures keeps_room { room_in self.old ≤ room_in self.new }
        ensures succeeds { more ≤ room_in self.old → IsOk result }
    {
        self.places.reserve(more)?;
        self.index.reserve(more)?;
        Ok(())
    }

    /// Takes in one content more: the number of its frame, which stands behind those known, and its digest.
    ///
    /// Fails for want of memory, where there is no room, and the pool stays as it was then.
    pub fn learn(&mut self, number: u64, digest: [u8; 32]) -> Result<(), AllocError>
        ensures places { OnOk result (places_in self.new ≡ places_in self.old ++ number ∷ []) }
        ensures digests { OnOk result (digests_in self.new ≡ digests_in self.old ++ digest ∷ []) }
        ensures kept { OnErr result (HoldsTheSame self.old self.new) }
        ensures room { room_in self.old ≤ room_in self.new + 1 }
        ensures succeeds { 0 < room_in self.old → IsOk result }
    {
        self.places.reserve(1)?;
        self.index.push(digest)?;
        self.places.push_reserved(number);
        Ok(())
    }

    /// The number of the frame that has the content.
    pub fn frame<S: StoreDevice>(&self, log: &Log<S>, id: BlobId) -> u64
        requires pool { Knows self.now log.now }
        requires inside { id.number < count_in self.now }
        ensures below { result < count_of log.now }
        ensures place { S.tells → result ≡ get_or (places_from 0 (known_in log.now)) id.number 0 }
    {
        self.places[id.number as usize]
    }

    /// Where the content stands in the text of the frames. It reads nothing.
    pub fn span<S: StoreDevice>(&self, log: &Log<S>, id: BlobId) -> Span
        requires pool { Knows self.now log.now }
        requires inside { id.number < count_in self.now }
        ensures { S.tells → IsSpanOf (text_of (frames_in log.now)) result
            (content_at (known_in log.now) id.number) }
    {
        log.value_span(self.frame(log, id))
    }

    /// How many bytes the content has. It reads nothing.
    pub fn len<S: StoreDevice>(&self, log: &Log<S>, id: BlobId) -> u64
        requires pool { Knows self.now log.now }
        requires inside { id.number < count_in self.now }
        ensures { S.tells → result ≡ length (content_at (known_in log.now) id.number) }
    {
        self.span(log, id).len
    }

    /// Whether the content is these bytes. Where the lengths differ it reads nothing.
    pub fn equals<S: StoreDevice>(
        &self,
        alloc: Global,
        log: &mut Log<S>,
        id: BlobId,
        bytes: &[u8],
    ) -> Result<bool, LogErr>
        requires pool { Knows self.now log.old }
        requires inside { id.number < count_in self.now }
        ensures same { S.tells → IfOk result
            (λ b. b ≡ bytes_eq (content_at (known_in log.old) id.number) bytes.now) }
        ensures probes { ReadsAtMostOnce log.old log.new }
        ensures log { OnlyReadsLog log.old log.new }
        ensures answers { IfErr result IsReadErr }
        ensures cause { CountsIn log.old log.new result }
    {
        let span = self.span(log, id);
        if span.len != bytes.len() as u64 {
            return Ok(false);
        }
        let mut content = vec![in alloc; 0; bytes.len()]?;
        log.read_span(span.at, content.as_mut_slice())?;
        Ok(content.as_slice() == bytes)
    }

    /// Adds the content to the bytes, which stay as they were where it fails.
    pub fn copy_to<S: StoreDevice>(
        &self,
        log: &mut Log<S>,
        id: BlobId,
        to: &mut Vec<u8>,
    ) -> Result<(), LogErr>
        requires pool { Knows self.now log.old }
        requires inside { id.number < count_in self.now }
        ensures content { S.tells → OnOk result
            (to.new.items ≡ to.old.items ++ content_at (known_in log.old) id.number) }
        ensures kept { OnErr result (to.new.items ≡ to.old.items) }
        ensures probes { ReadsAtMostOnce log.old log.new }
        ensures log { OnlyReadsLog log.old log.new }
        ensures answers { IfErr result IsReadErr }
        ensures cause { CountsIn log.old log.new result }
    {
        let span = self.span(log, id);
        let start = to.len();
        to.reserve(span.len as usize)?;
        to.resize(start + span.len as usize, 0)?;
        if let Err(error) = log.read_span(span.at, &mut to[start..]) {
            to.truncate(start);
            return Err(error);
        }
        Ok(())
    }

    /// The first content that is these bytes behind their digest, and `None` exactly where there is none.
    pub fn kept<S: StoreDevice>(
        &self,
        alloc: Global,
        log: &mut Log<S>,
        bytes: &[u8],
    ) -> Result<Option<BlobId>, LogErr>
        requires pool { Knows self.now log.old }
        ensures found { S.tells → IfOk result
            (λ o. found_as (λ id. id.number) o ≡ first_of (known_in log.old) bytes.now) }
        ensures inside { IfOk result (λ o. IfSome o (λ id. id.number < count_in self.now)) }
        ensures log { OnlyReadsLog log.old log.new }
        ensures answers { IfErr result IsReadErr }
        ensures cause { CountsIn log.old log.new result }
    {
        self.kept_by(alloc, log, &digest_of(bytes), bytes)
    }

    /// The same where the digest is known. It reads the contents that have this digest and the length of the bytes.
    pub fn kept_by<S: StoreDevice>(
        &self,
        alloc: Global,
        log: &mut Log<S>,
        digest: &[u8; 32],
        bytes: &[u8],
    ) -> Result<Option<BlobId>, LogErr>
        requires pool { Knows self.now log.old }
        requires digest { digest.now ≡ sha256 bytes.now }
        ensures found { S.tells → IfOk result
            (λ o. found_as (λ id. id.number) o ≡ first_of (known_in log.old) bytes.now) }
        ensures inside { IfOk result (λ o. IfSome o (λ id. id.number < count_in self.now)) }
        ensures log { OnlyReadsLog log.old log.new }
        ensures answers { IfErr result IsReadErr }
        ensures cause { CountsIn log.old log.new result }
    {
        let mut found = None;
        let mut last = self.index.last(digest);
        while let Some(number) = last {
            let id = BlobId { number };
            if self.equals(alloc, log, id, bytes)? {
                found = Some(id);
            }
            last = self.index.before(number);
        }
        Ok(found)
    }

    /// Keeps these bytes, once: it answers the first content that is these bytes behind their digest, and where there is
    /// none it appends one.
    pub fn keep<S: StoreDevice>(
        &mut self,
        alloc: Global,
        log: &mut Log<S>,
        bytes: &[u8],
    ) -> Result<BlobId, LogErr>
        requires whole { IsTrue (is_whole log.old) }
        requires short { length bytes.now < limit_of CONTENT }
        requires pool { Knows self.old log.old }
        ensures id { S.tells → IfOk result
            (λ id. first_of (frames_in log.new) bytes.now ≡ Some id.number) }
        ensures inside { IfOk result (λ id. id.number < count_in self.new) }
        ensures frames { S.tells → OnOk result
            (frames_in log.new ≡ frames_in log.old ++ missing (frames_in log.old) bytes.now) }
        ensures unchanged { S.tells → IfErr result
            (λ e. (e ≡ LogErr.Failed) ⊎ (frames_in log.new ≡ frames_in log.old)) }
        ensures images { S.tells → LeavesOnlyIn log.old log.new
            (IsBeforeOrAll (frames_in log.old) (missing (frames_in log.old) bytes.now)) }
        ensures full { S.tells → IsFullFor result
            (room_for_all (missing (frames_in log.old) bytes.now))
            (store_limit - ends (frames_in log.old)) }
        ensures whole { IsErrOf result LogErr.Failed ⊎ (is_whole log.new ≡ is_whole log.old) }
        // Whatever it answers.
        ensures pool { Knows self.new log.new }
        ensures kept { OnErr result (HoldsTheSame self.old self.new) }
        ensures count { count_of log.old ≤ count_of log.new }
        ensures room { room_of log.new ≤ room_of log.old }
        ensures answers { IfErr result IsAppendErr }
        ensures cause { CountsIn log.old log.new result }
    {
        let digest = digest_of(bytes);
        if let Some(id) = self.kept_by(alloc, log, &digest, bytes)? {
            return Ok(id);
        }
        // Behind the append nothing can fail for want of memory.
        self.reserve(1)?;
        let frame = NewFrame {
            kind: CONTENT,
            key: &digest,
            value: bytes,
        };
        let place = log.append_all(alloc, &[frame])?;
        let number = self.count();
        self.learn(place, digest)?;
        Ok(BlobId { number })
    }
}
