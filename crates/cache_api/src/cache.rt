// A list of pairs, whatever keeps it.
ghost use Rattle.std.specs.Prelude.{◌≡◌, ◌+◌, ◌<◌, ◌≤◌, ◌∷◌, ◌++◌, [], ℕ, List, length, map, false, Option, IsTrue, IfOk, IfErr, IfSome, IsErrOf, OnOk};
ghost use Rattle.rel_path.specs.Causes.{Counts};
ghost use Rattle.codes.specs.Views.{found_as};
ghost use Rattle.globs.specs.OwnedFiles.{owns_all};
ghost use Rattle.cache_api.specs.declared.hit.Hit.{Hit};
ghost use Rattle.cache_api.specs.declared.puts.Put.{Put};
ghost use Rattle.cache_api.specs.Artifacts.{Artifact, artifact as held, ascends};
ghost use Rattle.cache_api.specs.Reading.{artifact_in};
ghost use Rattle.cache_api.specs.Found.{found};
ghost use Rattle.cache_api.specs.Keys.{text_of, new_pairs, own_pair};
ghost use Rattle.cache_api.specs.Hits.{paths_of, paths_ascend, owns_paths, file_spans, span_count, bytes_at};
ghost use Rattle.cache_api.specs.Moments.{Moment, Leaves};
ghost use Rattle.cache_api.specs.Pairs.{Pair, pair_for, chosen, LacksKey, IsPartSince};
ghost use Rattle.cache_api.specs.Cache.{CacheState, Keeps, HitsStay, CacheReads, is_fault, StaysWhole, IsFindErr, due_in, AllLast, AllAfter, SettledAs, ArePut, AreToPut, ample};

use crate::{Artifact, CacheErr, Hit, Key, NewPair, OwnKey, Put, Puts};
use globs::OutSet;
use rel_path::{Bytes, Files};
use std::alloc::Global;

/// A list of pairs, a key and the text of an artifact each, that grows at its end.
///
/// A look-up answers where an artifact stands, and its log and files are then read one by one. What was answered stays
/// readable, whatever is called later. The other calls are written over these.
///
/// After a call that answered `Failed` or `OutOfMemory` a cache may no longer be whole, and is then to be opened again.
/// A crash at any moment leaves an image, which stands for some list of pairs or is no cache; `left` and `says` tell.
///
/// The first pairs last: each crash leaves them. The others are due, and a crash leaves the first of them, none to all.
/// `settle` puts what is due, and a pair that is due cannot be looked up till then.
pub trait Cache {
    /// Whether the pairs are told. It is a fact of the type: a cache over devices in memory tells its pairs, one over
    /// real files does not, and of one that does not nothing is said of its pairs.
    ghost tells: { Type 0 };

    /// What the implementation keeps as it is.
    ghost Base: { Type 0 };

    ghost state: { Self → CacheState Base };

    /// How often a look-up of a key and what is then read of its hit may read the devices' records.
    ghost cost: { Self → List ℕ → ℕ };

    /// Whether the log and the files of a hit may be read.
    ghost stands: { Self → Hit → Type 0 };

    /// The artifact for which a hit stands.
    ghost shows: { Self → Hit → Artifact };

    /// For which of these pairs there is room, where they are put one after another.
    ghost stores: { Self → List Pair → List Put };

    /// The clock: the moment now, which never falls.
    ghost moment: { Self → Moment };

    /// What a crash leaves of a device into which the cache puts.
    ghost Image: { Type 0 };

    /// What a crash at some moment since that one might have left.
    ghost left: { Self → Moment → Image → Type 0 };

    /// The pairs for which an image stands, and nothing where it is none that this cache leaves. It depends on what the
    /// implementation keeps as it is.
    ghost says: { Base → Image → Option (List Pair) };

    /// Where the artifact stands that `find` answers. No pair with the key is due.
    fn lookup_keyed(
        &mut self,
        alloc: Global,
        key: Key,
        outs: &OutSet,
    ) -> Result<Option<Hit>, CacheErr>
        requires whole { IsTrue (state self.old).whole }
        requires due { tells → LacksKey (text_of key) (due_in (state self.old)) }
        ensures found { tells → IfOk result (λ o. found_as (shows self.new) o
            ≡ found artifact_in (text_of key.entry) outs.now (state self.old).pairs) }
        ensures stands { IfOk result (λ o. IfSome o (stands self.new)) }
        ensures fits { IfOk result (λ o. IfSome o (λ hit.
            IsTrue (paths_ascend hit) × IsTrue (owns_paths outs.now hit))) }
        ensures probes { tells → (state self.new).probes
            ≤ (state self.old).probes + cost self.old (text_of key.entry) }
        ensures spans { tells → IfOk result (λ o. IfSome o (λ hit.
            (state self.new).probes + span_count hit
            ≤ (state self.old).probes + cost self.old (text_of key.entry))) }
        ensures reads { CacheReads tells state cost stands shows moment left says self.old
            self.new }
        ensures whole { StaysWhole result (state self.old).whole (state self.new).whole }
        ensures answers { IfErr result IsFindErr }
        ensures cause { Counts is_fault (state self.old).faults (state self.new).faults result };

    /// The log of an artifact that was found.
    fn hit_log(&mut self, alloc: Global, hit: &Hit) -> Result<Bytes, CacheErr>
        requires whole { IsTrue (state self.old).whole }
        requires stands { stands self.old hit.now }
        ensures log { tells → IfOk result (λ log. log ≡ (shows self.old hit.now).0) }
        ensures probes { (state self.new).probes ≤ (state self.old).probes + length hit.now.log }
        ensures reads { CacheReads tells state cost stands shows moment left says self.old
            self.new }
        ensures whole { StaysWhole result (state self.old).whole (state self.new).whole }
        ensures answers { IfErr result IsFindErr }
        ensures cause { Counts is_fault (state self.old).faults (state self.new).faults result };

    /// The bytes of a file of an artifact that was found.
    fn hit_file(&mut self, alloc: Global, hit: &Hit, index: u32) -> Result<Bytes, CacheErr>
        requires whole { IsTrue (state self.old).whole }
        requires stands { stands self.old hit.now }
        requires index { index < length hit.now.files }
        ensures file { tells
            → IfOk result (λ bytes. bytes ≡ bytes_at (shows self.old hit.now) index) }
        ensures probes { (state self.new).probes
            ≤ (state self.old).probes + file_spans hit.now index }
        ensures reads { CacheReads tells state cost stands shows moment left says self.old
            self.new }
        ensures whole { StaysWhole result (state self.old).whole (state self.new).whole }
        ensures answers { IfErr result IsFindErr }
        ensures cause { Counts is_fault (state self.old).faults (state self.new).faults result };

    /// Adds pairs behind the others, as single puts one after another would, and tells of each whether there was room.
    /// Want of room is no error of this call. After `Ok` all pairs last, also those that were due. After `OutOfMemory`
    /// the pairs are as before. After `Failed` they are the first of the pairs before and those for which there was
    /// room, and at least those that lasted.
    fn put_all(&mut self, alloc: Global, pairs: &[NewPair]) -> Result<Puts, CacheErr>
        requires { IsTrue (state self.old).whole }
        ensures outcome { tells
            → IfOk result (λ puts. puts ≡ stores self.old (new_pairs pairs.now)) }
        ensures put { IfOk result (λ puts.
            ArePut (state self.new).room (new_pairs pairs.now) puts) }
        ensures pairs { tells → AllAfter result (state self.old).lasting (state self.old).pairs
            (chosen (new_pairs pairs.now) (stores self.old (new_pairs pairs.now)))
            (state self.new).pairs }
        ensures lasts { tells → OnOk result (AllLast (state self.new)) }
        // whatever it answers
        ensures lasting { tells → (state self.old).lasting ≤ (state self.new).lasting }
        ensures left { tells → Leaves moment left self.old self.new
            (λ image. IsPartSince (state self.old).lasting ((state self.old).pairs
            ++ chosen (new_pairs pairs.now) (stores self.old (new_pairs pairs.now)))
            (says (state self.old).base image)) }
        ensures hits { HitsStay tells stands shows self.old self.new }
        ensures keeps { Keeps (state self.old) (state self.new) }
        ensures whole { StaysWhole result (state self.old).whole (state self.new).whole }
        ensures answers { IfErr result IsFindErr }
        ensures cause { Counts is_fault (state self.old).faults (state self.new).faults result };

    /// Puts what is due. After `Ok` all pairs last, and after `OutOfMemory` they are as before. After `Failed` they are
    /// the first of those before, and at least those that lasted.
    fn settle(&mut self, alloc: Global) -> Result<(), CacheErr>
        requires { IsTrue (state self.old).whole }
        ensures pairs { tells → SettledAs result (state self.old) (state self.new) }
        // whatever it answers
        ensures lasting { tells → (state self.old).lasting ≤ (state self.new).lasting }
        ensures left { tells → Leaves moment left self.old self.new
            (λ image. IsPartSince (state self.old).lasting (state self.old).pairs
            (says (state self.old).base image)) }
        // where nothing was due
        ensures probes { tells → AllLast (state self.old)
            → (state self.new).probes ≡ (state self.old).probes }
        ensures costs { tells → AllLast (state self.old)
            → (k : List ℕ) → cost self.new k ≡ cost self.old k }
        ensures hits { HitsStay tells stands shows self.old self.new }
        ensures keeps { Keeps (state self.old) (state self.new) }
        ensures whole { StaysWhole result (state self.old).whole (state self.new).whole }
        ensures answers { IfErr result IsFindErr }
        ensures cause { Counts is_fault (state self.old).faults (state self.new).faults result };

    /// Whether a pair with this key may still be due.
    fn is_due(&self, key: &Key) -> bool
        ensures { tells → result ≡ false → LacksKey (text_of key.now) (due_in (state self.now)) };

    /// Whether it may be used.
    fn is_whole(&self) -> bool
        ensures { result ≡ (state self.now).whole };

    /// So many bytes there are for sure, whatever others take till the next pair is put.
    fn room(&self) -> u64
        ensures { tells → result ≤ (state self.now).sure };

    /// Puts one pair that is handed over, as `put_all` would, so that a cache which holds it back copies nothing.
    fn give(&mut self, alloc: Global, key: OwnKey, artifact: Artifact) -> Result<Put, CacheErr>
        requires { IsTrue (state self.old).whole }
        ensures outcome { tells → IfOk result (λ put.
            put ∷ [] ≡ stores self.old (own_pair key artifact ∷ [])) }
        ensures put { IfOk result (λ put.
            ArePut (state self.new).room (own_pair key artifact ∷ []) (put ∷ [])) }
        ensures pairs { tells → AllAfter result (state self.old).lasting (state self.old).pairs
            (chosen (own_pair key artifact ∷ []) (stores self.old (own_pair key artifact ∷ [])))
            (state self.new).pairs }
        // whatever it answers
        ensures lasting { tells → (state self.old).lasting ≤ (state self.new).lasting }
        ensures left { tells → Leaves moment left self.old self.new
            (λ image. IsPartSince (state self.old).lasting ((state self.old).pairs
            ++ chosen (own_pair key artifact ∷ []) (stores self.old (own_pair key artifact ∷ [])))
            (says (state self.old).base image)) }
        ensures hits { HitsStay tells stands shows self.old self.new }
        ensures keeps { Keeps (state self.old) (state self.new) }
        ensures whole { StaysWhole result (state self.old).whole (state self.new).whole }
        ensures answers { IfErr result IsFindErr }
        ensures cause { Counts is_fault (state self.old).faults (state self.new).faults result }
    {
        let pair = NewPair {
            key: key.as_key(),
            artifact: &artifact,
        };
        let puts = self.put_all(alloc, &[pair])?;
        Ok(puts.as_slice()[0])
    }

    /// `lookup_keyed` with the key of a text.
    fn lookup(&mut self, alloc: Global, key: &[u8], outs: &OutSet) -> Result<Option<Hit>, CacheErr>
        requires whole { IsTrue (state self.old).whole }
        requires due { tells → LacksKey key.now (due_in (state self.old)) }
        ensures found { tells → IfOk result (λ o. found_as (shows self.new) o
            ≡ found artifact_in key.now outs.now (state self.old).pairs) }
        ensures stands { IfOk result (λ o. IfSome o (stands self.new)) }
        ensures fits { IfOk result (λ o. IfSome o (λ hit.
            IsTrue (paths_ascend hit) × IsTrue (owns_paths outs.now hit))) }
        ensures probes { tells → (state self.new).probes
            ≤ (state self.old).probes + cost self.old key.now }
        ensures spans { tells → IfOk result (λ o. IfSome o (λ hit.
            (state self.new).probes + span_count hit
            ≤ (state self.old).probes + cost self.old key.now)) }
        ensures reads { CacheReads tells state cost stands shows moment left says self.old
            self.new }
        ensures whole { StaysWhole result (state self.old).whole (state self.new).whole }
        ensures answers { IfErr result IsFindErr }
        ensures cause { Counts is_fault (state self.old).faults (state self.new).faults result }
    {
        self.lookup_keyed(alloc, Key::new(key), outs)
    }

    /// The artifact that was found, whole.
    fn hit_artifact(&mut self, alloc: Global, hit: &Hit) -> Result<Artifact, CacheErr>
        requires whole { IsTrue (state self.old).whole }
        requires stands { stands self.old hit.now }
        ensures artifact { tells → IfOk result (λ a. held a ≡ shows self.old hit.now) }
        ensures paths { IfOk result (λ a. map (λ file. file.0) a.files ≡ paths_of hit.now) }
        ensures probes { (state self.new).probes ≤ (state self.old).probes + span_count hit.now }
        ensures reads { CacheReads tells state cost stands shows moment left says self.old
            self.new }
        ensures whole { StaysWhole result (state self.old).whole (state self.new).whole }
        ensures answers { IfErr result IsFindErr }
        ensures cause { Counts is_fault (state self.old).faults (state self.new).faults result }
    {
        let log = self.hit_log(alloc, hit)?;
        let Ok(count) = u32::try_from(hit.files.as_slice().len()) else {
            return Err(CacheErr::OutOfMemory);
        };
        let mut files = Files::new(alloc);
        for index in 0..count {
            let bytes = self.hit_file(alloc, hit, index)?;
            let path = hit.files.as_slice()[index as usize].path.copy()?;
            files.push((path, bytes))?;
        }
        Ok(Artifact { log, files })
    }

    /// The artifact of the last pair with that key whose value is an artifact all of whose files the task owns, and
    /// `None` where there is no such pair. The whole key is compared. No pair with the key is due.
    fn find_keyed(
        &mut self,
        alloc: Global,
        key: Key,
        outs: &OutSet,
    ) -> Result<Option<Artifact>, CacheErr>
        requires whole { IsTrue (state self.old).whole }
        requires due { tells → LacksKey (text_of key) (due_in (state self.old)) }
        ensures found { tells → IfOk result (λ o. found_as held o
            ≡ found artifact_in (text_of key.entry) outs.now (state self.old).pairs) }
        ensures fits { IfOk result (λ o. IfSome o (λ a.
            IsTrue (ascends a.files) × IsTrue (owns_all outs.now a.files))) }
        ensures pairs { tells → (state self.new).pairs ≡ (state self.old).pairs }
        ensures lasting { tells → (state self.new).lasting ≡ (state self.old).lasting }
        ensures probes { tells → (state self.new).probes
            ≤ (state self.old).probes + cost self.old (text_of key.entry) }
        ensures costs { tells → (k : List ℕ) → cost self.new k ≡ cost self.old k }
        ensures hits { HitsStay tells stands shows self.old self.new }
        ensures left { tells → Leaves moment left self.old self.new
            (λ image. IsPartSince (state self.old).lasting (state self.old).pairs
            (says (state self.old).base image)) }
        ensures keeps { Keeps (state self.old) (state self.new) }
        ensures whole { StaysWhole result (state self.old).whole (state self.new).whole }
        ensures answers { IfErr result IsFindErr }
        ensures cause { Counts is_fault (state self.old).faults (state self.new).faults result }
    {
        let Some(hit) = self.lookup_keyed(alloc, key, outs)? else {
            return Ok(None);
        };
        Ok(Some(self.hit_artifact(alloc, &hit)?))
    }

    /// `find_keyed` with the key of a text.
    fn find(
        &mut self,
        alloc: Global,
        key: &[u8],
        outs: &OutSet,
    ) -> Result<Option<Artifact>, CacheErr>
        requires whole { IsTrue (state self.old).whole }
        requires due { tells → LacksKey key.now (due_in (state self.old)) }
        ensures found { tells → IfOk result (λ o. found_as held o
            ≡ found artifact_in key.now outs.now (state self.old).pairs) }
        ensures fits { IfOk result (λ o. IfSome o (λ a.
            IsTrue (ascends a.files) × IsTrue (owns_all outs.now a.files))) }
        ensures pairs { tells → (state self.new).pairs ≡ (state self.old).pairs }
        ensures lasting { tells → (state self.new).lasting ≡ (state self.old).lasting }
        ensures probes { tells → (state self.new).probes
            ≤ (state self.old).probes + cost self.old key.now }
        ensures costs { tells → (k : List ℕ) → cost self.new k ≡ cost self.old k }
        ensures hits { HitsStay tells stands shows self.old self.new }
        ensures left { tells → Leaves moment left self.old self.new
            (λ image. IsPartSince (state self.old).lasting (state self.old).pairs
            (says (state self.old).base image)) }
        ensures keeps { Keeps (state self.old) (state self.new) }
        ensures whole { StaysWhole result (state self.old).whole (state self.new).whole }
        ensures answers { IfErr result IsFindErr }
        ensures cause { Counts is_fault (state self.old).faults (state self.new).faults result }
    {
        self.find_keyed(alloc, Key::new(key), outs)
    }

    /// Adds a pair behind the others: the key, and the text of the artifact. `Full` comes only where the pair could take
    /// more room than there is. After `Ok` all pairs last. After `Full` and `OutOfMemory` the pairs are as before. After
    /// `Failed` they are the first of these and the new one, and at least those that lasted.
    fn put(&mut self, alloc: Global, key: &[u8], artifact: &Artifact) -> Result<(), CacheErr>
        requires { IsTrue (state self.old).whole }
        ensures pairs { tells → AllAfter result (state self.old).lasting (state self.old).pairs
            (pair_for key.now (held artifact.now) ∷ []) (state self.new).pairs }
        ensures full { IsErrOf result CacheErr.Full
            → (state self.new).room < ample (pair_for key.now (held artifact.now)) }
        ensures lasts { tells → OnOk result (AllLast (state self.new)) }
        ensures lasting { tells → (state self.old).lasting ≤ (state self.new).lasting }
        ensures left { tells → Leaves moment left self.old self.new
            (λ image. IsPartSince (state self.old).lasting
            ((state self.old).pairs ++ pair_for key.now (held artifact.now) ∷ [])
            (says (state self.old).base image)) }
        ensures hits { HitsStay tells stands shows self.old self.new }
        ensures keeps { Keeps (state self.old) (state self.new) }
        ensures whole { StaysWhole result (state self.old).whole (state self.new).whole }
        ensures cause { Counts is_fault (state self.old).faults (state self.new).faults result }
    {
        let key = Key::new(key);
        let puts = self.put_all(alloc, &[NewPair { key, artifact }])?;
        match puts.as_slice() {
            [Put::Full] => Err(CacheErr::Full),
            _ => Ok(()),
        }
    }

    /// A hit that may be read has the paths of its artifact.
    ghost paths: { (c : Self) (hit : Hit) → tells → stands c hit
        → map (λ file. file.0) (shows c hit).1 ≡ paths_of hit };

    /// No more pairs last than there are.
    ghost within: { (c : Self) → tells → (state c).lasting ≤ length (state c).pairs };

    /// There is as much room as is sure.
    ghost spare: { (c : Self) → tells → (state c).sure ≤ (state c).room };

    /// Where a pair is not to be put, there is less room than it may want.
    ghost to_put: { (c : Self) (pairs : List Pair) → tells → IsTrue (state c).whole
        → AreToPut (state c) pairs (stores c pairs) };

    /// While the cache is whole, a crash since this moment leaves all pairs that last, and the first of those that are
    /// due.
    ghost at_rest: { (c : Self) (image : Image) → tells → IsTrue (state c).whole
        → left c (moment c) image
        → IsPartSince (state c).lasting (state c).pairs (says (state c).base image) };
}
