// The keys of pairs.
ghost use Rattle.std.specs.Prelude.{◌≡◌, ◌<◌, ◌-◌, ◌^◌, min, length, IsTrue, IfOk, IfErr};
ghost use Rattle.rel_path.specs.Causes.{Counts};
ghost use Rattle.cache_api.specs.Cache.{is_fault, IsFindErr};
ghost use Rattle.record_log.specs.Log.{device_of, count_of};
ghost use Rattle.blob_pool.specs.Known.{Knows, OnlyReadsLog, known_in};
ghost use Rattle.pair_frames.specs.Pairs.{holds_pair};
ghost use Rattle.pair_reader.specs.Frames.{frame_of, pair_at, reads_of};
ghost use Rattle.pair_reader.specs.Answers.{Ascend, ReadsAtMost, is_one_of, text_where};

use crate::calls::frame_at;
use crate::parse::pieces_in;
use crate::walk::{joined, length};
use crate::wanted::Lengths;
use blob_pool::Pool;
use cache_api::CacheErr;
use record_log::Log;
use rel_path::Bytes;
use std::alloc::Global;
use store_dev::StoreDevice;

/// The length of a key, and its text, where that is wanted.
#[derive(Debug, Drop)]
pub struct KeyText {
    pub len: u64,
    pub text: Option<Bytes>,
}

/// What is told of the key of the pair in that frame. A content is read only for the text.
pub fn key_text_at<S: StoreDevice>(
    alloc: Global,
    pool: &Pool,
    log: &mut Log<S>,
    number: u64,
    wanted: &Lengths,
) -> Result<KeyText, CacheErr>
    requires number { number < count_of log.old }
    requires pool { Knows pool.now log.old }
    requires pair { S.tells → IsTrue (holds_pair (frame_of (known_in log.old) number).kind) }
    requires wanted { Ascend wanted.now }
    ensures len { S.tells → IfOk result (λ k.
        k.len ≡ min (length (pair_at (known_in log.old) number).0) (2 ^ 64 - 1)) }
    ensures text { S.tells → IfOk result (λ k.
        k.text ≡ text_where (is_one_of wanted.now k.len) (pair_at (known_in log.old) number).0) }
    ensures reads { S.tells → ReadsAtMost (reads_of (known_in log.old) number) log.old log.new }
    ensures log { OnlyReadsLog log.old log.new }
    ensures answers { IfErr result IsFindErr }
    ensures cause { Counts is_fault (S.store_faults (device_of log.old))
        (S.store_faults (device_of log.new)) result }
{
    let frame = frame_at(alloc, log, number)?;
    let pieces = pieces_in(alloc, pool, log, number, &frame)?;
    let key = pieces.key.as_slice();
    let len = length(key);
    if !wanted.holds(len) {
        return Ok(KeyText { len, text: None });
    }
    let text = joined(alloc, pool, log, key)?;
    Ok(KeyText {
        len,
        text: Some(Bytes::from_vec(text)),
    })
}
