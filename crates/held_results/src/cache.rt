// A cache that holds results back, as a cache.
use crate::due::{Due, behind, is_among, put_behind};
use crate::{HELD_BYTES, Held};
use cache_api::{Artifact, Cache, CacheErr, Hit, Key, NewPair, OwnKey, Put, Puts, ample_room};
use globs::OutSet;
use rel_path::Bytes;
use std::alloc::Global;

impl<C: Cache> Cache for Held<C> {
    ghost use Rattle.held_results.specs.Held.{state_of, stores};
    ghost use Rattle.held_results.specs.Laws.{below_whole, held_within, held_rest, held_to_put};

    ghost tells = { C.tells };

    ghost Base = { C.Base };

    ghost state = { λ h. state_of h };

    ghost cost = { λ h key. C.cost h.inner key };

    ghost stands = { λ h hit. C.stands h.inner hit };

    ghost shows = { λ h hit. C.shows h.inner hit };

    ghost stores = { λ h pairs. stores h pairs };

    ghost moment = { λ h. C.moment h.inner };

    ghost Image = { C.Image };

    ghost left = { λ h m image. C.left h.inner m image };

    ghost says = { λ base image. C.says base image };

    ghost paths = { λ h hit told stood. C.paths h.inner hit told stood };

    ghost within = { λ h told. held_within h (C.within h.inner told) };

    ghost spare = { λ h told. C.spare h.inner told };

    ghost to_put = { λ h pairs told whole. held_to_put h whole told (C.spare h.inner)
        (C.to_put h.inner) pairs };

    ghost at_rest = { λ h image told whole left. held_rest h image (C.within h.inner told)
        (C.at_rest h.inner image told (below_whole h whole) left) };

    /// The cache below is asked: what is due has other keys.
    fn lookup_keyed(
        &mut self,
        alloc: Global,
        key: Key,
        outs: &OutSet,
    ) -> Result<Option<Hit>, CacheErr> {
        self.inner.lookup_keyed(alloc, key, outs)
    }

    fn hit_log(&mut self, alloc: Global, hit: &Hit) -> Result<Bytes, CacheErr> {
        self.inner.hit_log(alloc, hit)
    }

    fn hit_file(&mut self, alloc: Global, hit: &Hit, index: u32) -> Result<Bytes, CacheErr> {
        self.inner.hit_file(alloc, hit, index)
    }

    /// One call of the cache below, with what is due before these. Then nothing is due, but where
    /// memory was wanting.
    fn put_all(&mut self, alloc: Global, pairs: &[NewPair]) -> Result<Puts, CacheErr> {
        let count = self.due.len();
        match put_behind(alloc, &mut self.inner, self.due.as_slice(), pairs) {
            Ok(puts) => {
                self.due.clear();
                self.taken = 0;
                Ok(behind(puts, count))
            }
            Err(CacheErr::Failed) => {
                self.due.clear();
                self.taken = 0;
                self.whole = false;
                Err(CacheErr::Failed)
            }
            Err(CacheErr::OutOfMemory) => {
                self.whole = false;
                Err(CacheErr::OutOfMemory)
            }
            // Want of room is no error of this call.
            Err(CacheErr::Full) => unreachable!(),
        }
    }

    /// One call of the cache below, in which nothing is due.
    fn settle(&mut self, alloc: Global) -> Result<(), CacheErr> {
        if self.due.is_empty() {
            return Ok(());
        }
        self.put_all(alloc, &[])?;
        Ok(())
    }

    fn is_due(&self, key: &Key) -> bool {
        is_among(self.due.as_slice(), key) || self.inner.is_due(key)
    }

    fn is_whole(&self) -> bool {
        self.whole && self.inner.is_whole()
    }

    fn room(&self) -> u64 {
        self.inner.room()
    }

    /// It is held where there is ample room for it and for what is due already.
    fn give(&mut self, alloc: Global, key: OwnKey, artifact: Artifact) -> Result<Put, CacheErr> {
        let wanted = self
            .taken
            .saturating_add(ample_room(key.as_key().text(), &artifact));
        if wanted <= self.inner.room().min(HELD_BYTES) {
            self.due.push(Due { key, artifact })?;
            self.taken = wanted;
            return Ok(Put::Stored);
        }
        let pair = NewPair {
            key: key.as_key(),
            artifact: &artifact,
        };
        let puts = self.put_all(alloc, &[pair])?;
        Ok(puts.as_slice()[0])
    }
}
