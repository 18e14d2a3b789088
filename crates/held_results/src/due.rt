// Results that are held back.
ghost use Rattle.std.specs.Prelude.{◌≡◌, ◌≤◌, ◌++◌, drop, length, IsTrue, IfOk};
ghost use Rattle.std.specs.List.{list_any};
ghost use Rattle.rel_path.specs.Paths.{name_eq};
ghost use Rattle.cache_api.specs.Keys.{text_of, own_text, new_pairs};
ghost use Rattle.cache_api.specs.Memory.{OnlyMemory};
ghost use Rattle.cache_api.specs.Puts.{PutsAll};
ghost use Rattle.held_results.specs.Due.{due_pairs};

use cache_api::{Artifact, Cache, CacheErr, Key, NewPair, OwnKey, Puts};
use std::alloc::Global;

/// A result that is held back.
#[derive(Debug, Drop)]
pub(crate) struct Due {
    pub(crate) key: OwnKey,
    pub(crate) artifact: Artifact,
}

/// Whether one of them has this key.
pub(crate) fn is_among(due: &[Due], key: &Key) -> bool
    ensures { result ≡ list_any (λ d. name_eq (own_text d.key) (text_of key.now)) due.now }
{
    due.iter().any(|held| held.key.is_same_as(key))
}

/// What is due and then these pairs, to be put.
fn with_due<'a>(
    alloc: Global,
    due: &'a [Due],
    pairs: &[NewPair<'a>],
) -> Result<Vec<NewPair<'a>>, CacheErr>
    ensures all { IfOk result (λ all.
        new_pairs all.items ≡ due_pairs due.now ++ new_pairs pairs.now) }
    ensures memory { OnlyMemory result }
{
    let mut all = Vec::with_capacity(alloc, due.len().saturating_add(pairs.len()))?;
    for held in due {
        all.push(NewPair {
            key: held.key.as_key(),
            artifact: &held.artifact,
        })?;
    }
    all.extend_from_slice(pairs)?;
    Ok(all)
}

/// Puts what is due and then these pairs into a cache, in one call.
pub(crate) fn put_behind<C: Cache>(
    alloc: Global,
    inner: &mut C,
    due: &[Due],
    pairs: &[NewPair],
) -> Result<Puts, CacheErr>
    requires { IsTrue (C.state inner.old).whole }
    ensures { PutsAll C.Cache (due_pairs due.now ++ new_pairs pairs.now) inner.old inner.new
        result }
{
    let all = with_due(alloc, due, pairs)?;
    inner.put_all(alloc, all.as_slice())
}

/// What came of the pairs behind the first ones. It takes no memory.
pub(crate) fn behind(puts: Puts, count: usize) -> Puts
    requires { count ≤ length puts }
    ensures { result ≡ drop count puts }
{
    let mut items = puts.into_vec();
    let rest = items.len() - count;
    items.rotate_left(count);
    items.truncate(rest);
    Puts::from_vec(items)
}
