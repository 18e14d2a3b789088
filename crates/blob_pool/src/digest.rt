// Digests of contents.
ghost use Rattle.std.specs.Prelude.{◌≡◌, ◌<◌, IfOk, IfErr};
ghost use Rattle.sha2.specs.Sha256.{sha256};
ghost use Rattle.record_log.specs.Kinds.{Entry};
ghost use Rattle.record_log.specs.declared.kind.TheConstants.{CONTENT};
ghost use Rattle.record_log.specs.Frames.{IsAt};
ghost use Rattle.record_log.specs.Log.{frames_in, count_of, CountsIn};
ghost use Rattle.record_log.specs.Answers.{IsReadErr};
ghost use Rattle.blob_pool.specs.Known.{OnlyReadsLog};

use record_log::{DIGEST_BYTES, Log, LogErr};
use sha2::{Digest, Sha256};
use store_dev::StoreDevice;

/// The SHA-256 (FIPS 180-4).
pub fn digest_of(bytes: &[u8]) -> [u8; 32]
    ensures { result ≡ sha256 bytes.now }
{
    Sha256::digest(bytes)
}

/// The digest in front of a content: the key of the frame with that number.
pub fn digest_at<S: StoreDevice>(log: &mut Log<S>, number: u64) -> Result<[u8; 32], LogErr>
    requires inside { number < count_of log.old }
    requires kind { S.tells → (e : Entry) → IsAt (frames_in log.old) number e → e.kind ≡ CONTENT }
    ensures digest { S.tells → IfOk result
        (λ d. (e : Entry) → IsAt (frames_in log.old) number e → d ≡ e.key) }
    ensures log { OnlyReadsLog log.old log.new }
    ensures answers { IfErr result IsReadErr }
    ensures cause { CountsIn log.old log.new result }
{
    let span = log.key_span(number);
    let mut digest = [0; DIGEST_BYTES as usize];
    log.read_span(span.at, &mut digest)?;
    Ok(digest)
}
