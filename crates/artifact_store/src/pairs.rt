// Pairs by number, and what one would take.
ghost use Rattle.std.specs.Prelude.{◌≡◌, ◌≤◌, ◌<◌, [], get_or, IsTrue, IfOk, IfErr};
ghost use Rattle.rel_path.specs.Causes.{Counts};
ghost use Rattle.cache_api.specs.Artifacts.{artifact as held};
ghost use Rattle.cache_api.specs.Cache.{CacheReads, StaysWhole, ample, is_fault, IsFindErr};
ghost use Rattle.cache_api.specs.Keys.{text_of as key_text};
ghost use Rattle.cache_api.specs.Memory.{capped};
ghost use Rattle.cache_api.specs.Pairs.{pair_for};
ghost use Rattle.pair_frames.specs.Puts.{put_size};

use crate::Store;
use cache_api::{Artifact, CacheErr, Key, NewPair};
use pair_reader::pair_at;
use pair_writer::need_of_pair;
use rel_path::Bytes;
use std::alloc::Global;
use store_dev::StoreDevice;

impl<S: StoreDevice> Store<S> {
    ghost use Rattle.artifact_store.specs.Pairs.{told_as};
    ghost use Rattle.artifact_store.specs.Store.{frames_of, state_of, count_in, moment_of, left_of};
    ghost use Rattle.artifact_store.specs.Store.{cost_of, stands, shows, OnlyReadsStore};

    /// The pair with that number: its key and its value.
    pub fn pair_at(&mut self, alloc: Global, number: u64) -> Result<(Bytes, Bytes), CacheErr>
        requires whole { IsTrue (state_of self.old).whole }
        requires number { number < count_in self.old }
        ensures pair { S.tells → IfOk result
            (λ pair. pair ≡ get_or (state_of self.old).pairs number ([], [])) }
        ensures reads { CacheReads S.tells state_of cost_of stands shows moment_of left_of told_as
            self.old self.new }
        ensures whole { StaysWhole result (state_of self.old).whole (state_of self.new).whole }
        ensures store { OnlyReadsStore self.old self.new }
        ensures count { count_in self.new ≡ count_in self.old }
        ensures answers { IfErr result IsFindErr }
        ensures cause { Counts is_fault (state_of self.old).faults
            (state_of self.new).faults result }
    {
        let frame = self.index.frames[number as usize];
        pair_at(alloc, &self.pool, &mut self.log, frame)
    }

    /// What a pair would take of the room, or 2^64 - 1 where that is more. Nothing is written.
    pub fn need(&mut self, alloc: Global, key: Key, artifact: &Artifact) -> Result<u64, CacheErr>
        requires { IsTrue (state_of self.old).whole }
        ensures need { S.tells → IfOk result (λ need. need ≡ capped
            (put_size (frames_of self.old) (pair_for (key_text key.entry) (held artifact.now)))) }
        // Also where the device tells no bytes.
        ensures ample { IfOk result
            (λ need. need ≤ ample (pair_for (key_text key.entry) (held artifact.now))) }
        ensures reads { CacheReads S.tells state_of cost_of stands shows moment_of left_of told_as
            self.old self.new }
        ensures whole { StaysWhole result (state_of self.old).whole (state_of self.new).whole }
        ensures store { OnlyReadsStore self.old self.new }
        ensures answers { IfErr result IsFindErr }
        ensures cause { Counts is_fault (state_of self.old).faults
            (state_of self.new).faults result }
    {
        need_of_pair(alloc, &self.pool, &mut self.log, NewPair { key, artifact })
    }
}
