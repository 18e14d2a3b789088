// A key with its fingerprint.
ghost use Rattle.std.specs.Prelude.{◌≡◌, IfOk};
ghost use Rattle.sha2.specs.Sha256.{sha256};

use rel_path::Bytes;
use sha2::{Digest, Sha256};
use std::alloc::{AllocError, Global};

/// The text of a key with its fingerprint, the SHA-256 (FIPS 180-4) of the text, so that it is hashed once.
#[derive(Clone, Copy, Debug)]
pub struct Key<'a> {
    text: &'a [u8],
    print: [u8; 32],
    ghost hashed: { print ≡ sha256 text.now },
}

impl<'a> Key<'a> {
    ghost use Rattle.cache_api.specs.Keys.{text_of};

    /// Hashes the text.
    pub fn new(text: &'a [u8]) -> Key<'a>
        ensures { text_of result ≡ text.now }
    {
        Key {
            text,
            print: Sha256::digest(text),
        }
    }

    /// For a text whose fingerprint is known.
    pub fn with_print(text: &'a [u8], print: [u8; 32]) -> Key<'a>
        requires { print ≡ sha256 text.now }
        ensures { text_of result ≡ text.now }
    {
        Key { text, print }
    }

    pub fn text(&self) -> &'a [u8]
        ensures { result.now ≡ text_of self.now }
    {
        self.text
    }

    pub fn print(&self) -> &[u8; 32]
        ensures { result.now ≡ sha256 (text_of self.now) }
    {
        &self.print
    }
}

/// The same, where the text is owned.
#[derive(Debug, Drop)]
pub struct OwnKey {
    text: Bytes,
    print: [u8; 32],
    ghost hashed: { print ≡ sha256 text },
}

impl OwnKey {
    ghost use Rattle.rel_path.specs.Paths.{name_eq};
    ghost use Rattle.cache_api.specs.Keys.{text_of, own_text};

    /// Hashes the text.
    pub fn new(text: Bytes) -> OwnKey
        ensures { own_text result ≡ text }
    {
        let print = Sha256::digest(text.as_slice());
        OwnKey { text, print }
    }

    /// For a text whose fingerprint is known.
    pub fn with_print(text: Bytes, print: [u8; 32]) -> OwnKey
        requires { print ≡ sha256 text }
        ensures { own_text result ≡ text }
    {
        OwnKey { text, print }
    }

    /// A copy of a key. It is not hashed again.
    pub fn of(alloc: Global, key: &Key) -> Result<OwnKey, AllocError>
        ensures { IfOk result (λ own. own_text own ≡ text_of key.now) }
    {
        let text = Bytes::read(alloc, key.text)?;
        Ok(OwnKey {
            text,
            print: key.print,
        })
    }

    /// Whether it is that key. Texts are compared only where their fingerprints are the same.
    pub fn is_same_as(&self, key: &Key) -> bool
        ensures { result ≡ name_eq (own_text self.now) (text_of key.now) }
    {
        self.print == key.print && self.text.as_slice() == key.text
    }

    pub fn as_key(&self) -> Key<'_>
        ensures { text_of result ≡ own_text self.now }
    {
        Key {
            text: self.text.as_slice(),
            print: self.print,
        }
    }
}
