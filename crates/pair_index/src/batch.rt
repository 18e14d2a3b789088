// Keys that were read and are not yet hashed.
ghost use Rattle.std.specs.Prelude.{◌≡◌, ◌≤◌, ◌<◌, ◌+◌, ◌&&◌, ◌||◌, map, length, nat_le, IsTrue, IfOk, IfErr, OnOk, MatchOption};
ghost use Rattle.sha2.specs.Sha256.{sha256};
ghost use Rattle.rel_path.specs.Causes.{Counts};
ghost use Rattle.cache_api.specs.Cache.{is_fault, IsFindErr};
ghost use Rattle.record_log.specs.Log.{device_of, is_whole, count_of, frames_in};
ghost use Rattle.blob_pool.specs.Known.{Knows, OnlyReadsLog};
ghost use Rattle.pair_frames.specs.Pairs.{holds_pair};
ghost use Rattle.pair_reader.specs.Answers.{Ascend};
ghost use Rattle.pair_index.specs.Batch.{IsBatchOf, NumbersBelow, texts_of};

use blob_pool::Pool;
use cache_api::CacheErr;
use pair_reader::{KeyText, Lengths, key_text_at};
use record_log::{LONG_RECORD, Log, PAIR, RECORD};
use sha_lanes::digests;
use std::alloc::{AllocError, Global};
use store_dev::StoreDevice;

/// As many texts as are hashed side by side: a batch of fewer would be hashed one by one.
const BATCH_TEXTS: usize = 4;

/// A batch of enough texts that has so many bytes is full: more bytes at once are not hashed faster.
const BATCH_BYTES: usize = 4 * 1024 * 1024;

/// A batch that has so many bytes is full, however few its texts are: so it takes little memory.
const MOST_BATCH_BYTES: usize = 32 * 1024 * 1024;

/// The keys of the pairs in frames one after another, with their texts where they are to be hashed.
#[derive(Drop)]
pub(crate) struct Batch {
    // The numbers of these frames.
    pub(crate) numbers: Vec<u64>,
    pub(crate) keys: Vec<KeyText>,
    // The number of the frame behind those that were read.
    pub(crate) next: u64,
    // How many texts there are.
    texts: usize,
    // How many bytes they have.
    bytes: usize,
}

/// Whether a frame of that kind stands for a pair.
fn holds_pair(kind: u8) -> bool
    ensures { result ≡ holds_pair kind }
{
    kind == PAIR || kind == RECORD || kind == LONG_RECORD
}

/// How many bytes the key's text has.
fn text_bytes(key: &KeyText) -> usize
    ensures { MatchOption key.now.text (result ≡ 0) (λ text. result ≡ length text) }
{
    match &key.text {
        Some(text) => text.as_slice().len(),
        None => 0,
    }
}

/// The texts of the keys that have one.
fn texts<'a>(alloc: Global, keys: &'a [KeyText]) -> Result<Vec<&'a [u8]>, AllocError>
    ensures { IfOk result (λ texts. map (λ text. text.now) texts.items ≡ texts_of keys.now) }
{
    let mut texts: Vec<&'a [u8]> = Vec::new(alloc);
    for key in keys {
        match &key.text {
            Some(text) => texts.push(text.as_slice())?,
            None => {}
        }
    }
    Ok(texts)
}

impl Batch {
    ghost use Rattle.std.specs.Prelude.{◌++◌, ◌∷◌, [], ℕ};
    ghost use Rattle.pair_reader.specs.declared.wanted.Lengths.{Lengths};

    /// Of no frames, where that one is the next.
    fn new(alloc: Global, next: u64) -> Batch
        ensures numbers { result.numbers.items ≡ [] }
        ensures keys { result.keys.items ≡ [] }
        ensures next { result.next ≡ next }
    {
        Batch {
            numbers: Vec::new(alloc),
            keys: Vec::new(alloc),
            next,
            texts: 0,
            bytes: 0,
        }
    }

    /// Reads the frames from that one on, until the batch is full or there are no more.
    pub(crate) fn read<S: StoreDevice>(
        alloc: Global,
        pool: &Pool,
        log: &mut Log<S>,
        lengths: &Lengths,
        first: u64,
    ) -> Result<Batch, CacheErr>
        requires whole { IsTrue (is_whole log.old) }
        requires pool { Knows pool.now log.old }
        requires lengths { Ascend lengths.now }
        requires first { first < count_of log.old }
        ensures batch { S.tells → IfOk result (IsBatchOf lengths.now (frames_in log.old) first) }
        ensures further { IfOk result (λ batch. first < batch.next) }
        ensures inside { IfOk result (λ batch. batch.next ≤ count_of log.old) }
        ensures below { IfOk result NumbersBelow }
        ensures log { OnlyReadsLog log.old log.new }
        ensures answers { IfErr result IsFindErr }
        ensures cause { Counts is_fault (S.store_faults (device_of log.old))
            (S.store_faults (device_of log.new)) result }
    {
        let mut batch = Batch::new(alloc, first);
        for _number in first..log.frames() {
            batch.read_next(alloc, pool, log, lengths)?;
            if batch.is_full() {
                return Ok(batch);
            }
        }
        Ok(batch)
    }

    fn is_full(&self) -> bool
        ensures { result ≡ ((nat_le BATCH_TEXTS self.now.texts && nat_le BATCH_BYTES self.now.bytes)
            || nat_le MOST_BATCH_BYTES self.now.bytes) }
    {
        self.texts >= BATCH_TEXTS && self.bytes >= BATCH_BYTES || self.bytes >= MOST_BATCH_BYTES
    }

    /// Reads the next frame, and takes in its key if it stands for a pair.
    fn read_next<S: StoreDevice>(
        &mut self,
        alloc: Global,
        pool: &Pool,
        log: &mut Log<S>,
        lengths: &Lengths,
    ) -> Result<(), CacheErr>
        requires whole { IsTrue (is_whole log.old) }
        requires pool { Knows pool.now log.old }
        requires lengths { Ascend lengths.now }
        requires next { self.old.next < count_of log.old }
        ensures batch { S.tells → OnOk result ((first : ℕ)
            → IsBatchOf lengths.now (frames_in log.old) first self.old
            → IsBatchOf lengths.now (frames_in log.old) first self.new) }
        ensures next { OnOk result (self.new.next ≡ self.old.next + 1) }
        ensures below { OnOk result (NumbersBelow self.old → NumbersBelow self.new) }
        ensures log { OnlyReadsLog log.old log.new }
        ensures answers { IfErr result IsFindErr }
        ensures cause { Counts is_fault (S.store_faults (device_of log.old))
            (S.store_faults (device_of log.new)) result }
    {
        let number = self.next;
        if holds_pair(log.kind_at(number)) {
            let key = key_text_at(alloc, pool, log, number, lengths)?;
            self.push(key)?;
        }
        self.next = number + 1;
        Ok(())
    }

    /// Takes in the key of the next frame.
    fn push(&mut self, key: KeyText) -> Result<(), AllocError>
        ensures numbers { OnOk result (self.new.numbers.items
            ≡ self.old.numbers.items ++ self.old.next ∷ []) }
        ensures keys { OnOk result (self.new.keys.items ≡ self.old.keys.items ++ key ∷ []) }
        ensures next { self.new.next ≡ self.old.next }
    {
        if key.text.is_some() {
            self.texts = self.texts.saturating_add(1);
        }
        self.bytes = self.bytes.saturating_add(text_bytes(&key));
        self.numbers.push(self.next)?;
        self.keys.push(key)?;
        Ok(())
    }

    /// The fingerprints of the texts (SHA-256, FIPS 180-4). They are found side by side.
    pub(crate) fn prints(&self, alloc: Global) -> Result<Vec<[u8; 32]>, AllocError>
        ensures { IfOk result (λ prints. prints.items ≡ map sha256 (texts_of self.now.keys.items)) }
    {
        let texts = texts(alloc, self.keys.as_slice())?;
        digests(alloc, texts.as_slice())
    }
}
