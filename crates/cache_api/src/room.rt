// Room that is ample for a pair, however a cache keeps it.
ghost use Rattle.std.specs.Prelude.{◌≡◌};
ghost use Rattle.cache_api.specs.Artifacts.{artifact as held};
ghost use Rattle.cache_api.specs.Cache.{ample};
ghost use Rattle.cache_api.specs.Memory.{capped};
ghost use Rattle.cache_api.specs.Pairs.{pair_for};

use crate::Artifact;

/// A byte of a pair takes at most so many bytes in any form of a cache.
pub const ROOM_FOR_A_BYTE: u64 = 2;

/// And a pair at most so many besides.
pub const ROOM_BESIDE: u64 = 128;

/// How many bytes are ample for a pair, or the greatest `u64` where these are more. It takes no memory.
pub fn ample_room(key: &[u8], artifact: &Artifact) -> u64
    ensures { result ≡ capped (ample (pair_for key.now (held artifact.now))) }
{
    let bytes = (key.len() as u64).saturating_add(artifact.text_len());
    bytes
        .saturating_mul(ROOM_FOR_A_BYTE)
        .saturating_add(ROOM_BESIDE)
}
