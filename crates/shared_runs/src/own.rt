// The numbers of the pairs that a run puts itself.
ghost use Rattle.std.specs.Prelude.{◌≡◌, ◌+◌, ◌<◌, ◌++◌, [], IfOk, IfErr};
ghost use Rattle.std.specs.List.{All};
ghost use Rattle.cache_api.specs.declared.error.CacheErr.TheVariants.{OutOfMemory};
ghost use Rattle.shared_runs.specs.Own.{numbers_on, stored_in};

use cache_api::{CacheErr, Put};
use pair_index::Numbers;
use std::alloc::Global;

/// How many pairs were put.
pub(crate) fn stored(puts: &[Put]) -> u64
    ensures { result ≡ stored_in puts.now }
{
    let mut count = 0;
    for put in puts {
        if let Put::Stored = put {
            count += 1;
        }
    }
    count
}

/// These numbers with so many more behind them, from that one on, and the number behind all of
/// them. Numbers that do not fit are want of memory.
pub(crate) fn with_own(
    alloc: Global,
    own: &Numbers,
    from: u64,
    count: u64,
) -> Result<(Numbers, u64), CacheErr>
    requires { All (λ n. n < from) own.now }
    ensures own { IfOk result (λ r. r.0 ≡ own.now ++ numbers_on from count) }
    ensures next { IfOk result (λ r. r.1 ≡ from + count) }
    ensures answers { IfErr result (λ e. e ≡ CacheErr.OutOfMemory) }
{
    let Some(next) = from.checked_add(count) else {
        return Err(CacheErr::OutOfMemory);
    };
    let mut items = Vec::from_slice(alloc, own.as_slice())?;
    for number in from..next {
        items.push(number)?;
    }
    match Numbers::from_vec(items) {
        Some(own) => Ok((own, next)),
        None => Err(CacheErr::OutOfMemory),
    }
}
