// The keys of pairs.
ghost use Rattle.std.specs.Prelude.{◌≡◌, ◌≤◌, ◌<◌, ◌+◌, ◌++◌, ◌∷◌, [], List, length, map, true, IsOk, OnOk};
ghost use Rattle.sha2.specs.Sha256.{sha256};
ghost use Rattle.pair_reader.specs.Answers.{Ascend, Rise, is_one_of, print_where};
ghost use Rattle.pair_index.specs.Lengths.{listed};

use cache_api::{Key, NewPair, Put};
use pair_reader::{KeyText, Lengths};
use print_index::PrintIndex;
use std::alloc::{AllocError, Global};

/// How long the keys of pairs are, by the numbers of the pairs, and the fingerprints of those whose lengths are foreseen.
#[derive(Drop)]
pub struct Keys {
    lens: Vec<u64>,
    // The numbers of the pairs whose keys' fingerprints are kept, ascending.
    hashed: Vec<u64>,
    prints: PrintIndex,
    pub(crate) lengths: Lengths,
    pub ghost even: { length prints.digests ≡ length hashed.items },
    pub ghost ascend: { Rise (listed lengths) },
}

impl Keys {
    ghost use Rattle.cache_api.specs.Pairs.{Pair, chosen};
    ghost use Rattle.cache_api.specs.Keys.{text_of, new_pairs};
    ghost use Rattle.pair_index.specs.Keys.{lens_in, numbers_in, prints_in, number_where, listed_print, hash_room};
    ghost use Rattle.pair_index.specs.Batch.{key_of, texts_of};
    ghost use Rattle.pair_index.specs.Keys.{len_of, IsKeysOf, key_room, is_sought_by_print, place_count, number_at, may_have, IsBehind, IsLastWithLen};

    /// Of no pairs.
    pub fn new(alloc: Global, lengths: Lengths) -> Keys
        requires { Ascend lengths }
        ensures none { IsKeysOf result [] }
        ensures lengths { result.lengths ≡ lengths }
    {
        Keys {
            lens: Vec::new(alloc),
            hashed: Vec::new(alloc),
            prints: PrintIndex::new(alloc),
            lengths,
        }
    }

    /// Of no pairs, where keys of the same lengths are foreseen.
    pub fn cleared(self, alloc: Global) -> Keys
        ensures none { IsKeysOf result [] }
        ensures lengths { result.lengths ≡ self.lengths }
    {
        Keys::new(alloc, self.lengths)
    }

    /// Makes room for as many keys more, so that learning them cannot fail.
    pub fn reserve(&mut self, more: usize) -> Result<(), AllocError>
        ensures lens { self.new.lens.items ≡ self.old.lens.items }
        ensures hashed { self.new.hashed.items ≡ self.old.hashed.items }
        ensures prints { self.new.prints.digests ≡ self.old.prints.digests }
        ensures lengths { self.new.lengths ≡ self.old.lengths }
        ensures room { OnOk result (more ≤ key_room self.new) }
    {
        self.lens.reserve(more)?;
        self.hashed.reserve(more)?;
        self.prints.reserve(more)?;
        Ok(())
    }

    /// Takes in the key of the next pair: its length, and its fingerprint where the length is foreseen.
    pub fn push(&mut self, len: u64, print: Option<[u8; 32]>) -> Result<(), AllocError>
        ensures keys { OnOk result ((pairs : List Pair) (pair : Pair) → IsKeysOf self.old pairs
            → len ≡ len_of pair → print ≡ print_where (is_one_of self.old.lengths len) pair.0
            → IsKeysOf self.new (pairs ++ pair ∷ [])) }
        ensures lengths { self.new.lengths ≡ self.old.lengths }
        ensures room { key_room self.old ≤ key_room self.new + 1 }
        ensures succeeds { 0 < key_room self.old → IsOk result }
    {
        self.lens.reserve(1)?;
        self.push_print(print)?;
        self.lens.push_reserved(len);
        Ok(())
    }

    /// Takes in the keys of the next pairs: their lengths, and the fingerprints of those whose texts were read.
    pub(crate) fn push_all(
        &mut self,
        keys: &[KeyText],
        prints: &[[u8; 32]],
    ) -> Result<(), AllocError>
        requires { prints.now ≡ map sha256 (texts_of keys.now) }
        ensures keys { OnOk result ((known pairs : List Pair) → IsKeysOf self.old known
            → keys.now ≡ map (key_of self.old.lengths) pairs
            → IsKeysOf self.new (known ++ pairs)) }
        ensures lengths { OnOk result (self.new.lengths ≡ self.old.lengths) }
    {
        let mut at = 0;
        for key in keys {
            match &key.text {
                Some(_) => {
                    self.push(key.len, Some(prints[at]))?;
                    at += 1;
                }
                None => self.push(key.len, None)?,
            }
        }
        Ok(())
    }

    /// Takes in the fingerprint of the next pair's key, if it is kept.
    fn push_print(&mut self, print: Option<[u8; 32]>) -> Result<(), AllocError>
        ensures numbers { OnOk result (numbers_in self.new
            ≡ numbers_in self.old ++ number_where print (length (lens_in self.old))) }
        ensures prints { OnOk result (prints_in self.new
            ≡ prints_in self.old ++ listed_print print) }
        ensures lens { self.new.lens ≡ self.old.lens }
        ensures lengths { self.new.lengths ≡ self.old.lengths }
        ensures room { hash_room self.old ≤ hash_room self.new + 1 }
        ensures succeeds { 0 < hash_room self.old → IsOk result }
    {
        let Some(print) = print else {
            return Ok(());
        };
        self.hashed.reserve(1)?;
        self.prints.push(print)?;
        self.hashed.push_reserved(self.lens.len() as u64);
        Ok(())
    }

    /// Whether a key is sought by its fingerprint.
    pub fn seeks_print(&self, key: &[u8]) -> bool
        ensures { result ≡ is_sought_by_print self.now.lengths key.now }
    {
        self.lengths.holds(key.len() as u64)
    }

    /// The last place that may have the key.
    pub fn last(&self, by_print: bool, key: &Key) -> Option<u64>
        ensures { IsBehind by_print self.now (text_of key.now)
            (place_count by_print self.now) result }
    {
        if by_print {
            self.prints.last(key.print())
        } else {
            self.with_len(key.text().len() as u64, self.lens.len())
        }
    }

    /// The last place before that one which may have the key.
    pub fn before(&self, by_print: bool, key: &Key, at: u64) -> Option<u64>
        requires inside { at < place_count by_print self.now }
        requires may { may_have by_print self.now (text_of key.now) at ≡ true }
        ensures { IsBehind by_print self.now (text_of key.now) at result }
    {
        if by_print {
            self.prints.before(at)
        } else {
            self.with_len(key.text().len() as u64, at as usize)
        }
    }

    /// The last of the first so many pairs whose key has that length.
    fn with_len(&self, len: u64, first: usize) -> Option<u64>
        requires { first ≤ length self.now.lens.items }
        ensures { IsLastWithLen self.now.lens.items len first result }
    {
        let mut limit = first;
        while limit > 0 {
            limit -= 1;
            if self.lens[limit] == len {
                return Some(limit as u64);
            }
        }
        None
    }

    /// The number of the pair at that place.
    pub fn number(&self, by_print: bool, at: u64) -> u64
        requires { at < place_count by_print self.now }
        ensures { result ≡ number_at by_print self.now at }
    {
        if by_print {
            self.hashed[at as usize]
        } else {
            at
        }
    }

    /// Takes in the key of the next pair, as it was put.
    fn learn(&mut self, key: Key) -> Result<(), AllocError>
        ensures keys { OnOk result ((pairs : List Pair) (pair : Pair) → IsKeysOf self.old pairs
            → pair.0 ≡ text_of key.entry → IsKeysOf self.new (pairs ++ pair ∷ [])) }
        ensures lengths { self.new.lengths ≡ self.old.lengths }
        ensures room { key_room self.old ≤ key_room self.new + 1 }
        ensures succeeds { 0 < key_room self.old → IsOk result }
    {
        let len = key.text().len() as u64;
        let print = self.lengths.holds(len).then_some(*key.print());
        self.push(len, print)
    }

    /// Takes in the keys of the pairs that were put. There is room for them, so it does not fail.
    pub fn learn_all(&mut self, pairs: &[NewPair], puts: &[Put]) -> Result<(), AllocError>
        requires { length pairs.now ≤ key_room self.old }
        ensures ok { IsOk result }
        ensures keys { (known : List Pair) → IsKeysOf self.old known
            → IsKeysOf self.new (known ++ chosen (new_pairs pairs.now) puts.now) }
        ensures lengths { self.new.lengths ≡ self.old.lengths }
    {
        for i in 0..pairs.len().min(puts.len()) {
            let pair = pairs[i];
            match puts[i] {
                Put::Stored => self.learn(pair.key)?,
                Put::Full => {}
            }
        }
        Ok(())
    }
}
