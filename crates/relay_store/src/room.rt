// Room that is ample for pairs, however they are kept.
ghost use Rattle.std.specs.Prelude.{◌≡◌, sum_by};
ghost use Rattle.cache_api.specs.Cache.{ample};
ghost use Rattle.cache_api.specs.Keys.{new_pairs};
ghost use Rattle.cache_api.specs.Memory.{capped};

use cache_api::{NewPair, ample_room};

/// How many bytes are ample for all these pairs, or the greatest `u64` where these are more.
pub(crate) fn ample_for(pairs: &[NewPair]) -> u64
    ensures { result ≡ capped (sum_by ample (new_pairs pairs.now)) }
{
    let mut room = 0u64;
    for pair in pairs {
        room = room.saturating_add(ample_room(pair.key.text(), pair.artifact));
    }
    room
}
