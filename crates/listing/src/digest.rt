// The fingerprint of a key text.
ghost use Rattle.std.specs.Prelude.{◌≡◌, IfOk};
ghost use Rattle.sha2.specs.Sha256.{sha256};
ghost use Rattle.listing.specs.Fingerprint.{printed};
ghost use Rattle.listing.specs.Memory.{OnlyMemory};

use crate::ListErr;
use rel_path::Text;
use sha2::{Digest, Sha256};
use std::alloc::Global;

/// The SHA-256 of a key text (FIPS 180-4).
pub fn fingerprint(key: &[u8]) -> [u8; 32]
    ensures { result ≡ sha256 key.now }
{
    Sha256::digest(key)
}

/// The digits that are printed of a fingerprint: the first 16 of its 64 lower-case hexadecimal digits.
#[tactic(auto, unfolding(crate::specs::Fingerprint::printed))]
pub fn short(alloc: Global, print: &[u8; 32]) -> Result<Text, ListErr>
    ensures digits { IfOk result (λ text. text ≡ printed print.now) }
    ensures memory { OnlyMemory result }
{
    let digits = hex::encode(alloc, &print[..8])?;
    Ok(Text::from_string(digits))
}
