// Values with a code, and lists of them.
ghost use Rattle.std.specs.Prelude.{◌≡◌, ◌++◌, ◌<◌, ◌^◌, ℕ, List, length, OnOk};
ghost use Rattle.codes.specs.Codes.{word, IsWord, str, IsShort, list, IsList, items, Each, both, AreBoth};
ghost use Rattle.listing.specs.KeyText.{path_text, path_code, PathFits};
ghost use Rattle.listing.specs.Memory.{OnlyMemory, capped};

use crate::ListErr;
use globs::GlobList;
use rel_path::{Bytes, RelPath, Text};

/// A value that stands in a key text.
pub(crate) trait Coded {
    // The bytes of the value.
    ghost code: { Self → List ℕ };

    // The value can be told from its bytes.
    ghost fits: { Self → Type 0 };

    /// How many bytes the value takes, or the greatest `usize` where these are more.
    fn code_len(&self) -> usize
        ensures { result ≡ capped (length (code self.now)) };

    /// Adds the bytes of the value. A text or list that is too long for its length to be written takes more memory than
    /// there is.
    fn put(&self, to: &mut Vec<u8>) -> Result<(), ListErr>
        ensures written { OnOk result (to.new.items ≡ to.old.items ++ code self.now) }
        ensures told { OnOk result (fits self.now) }
        ensures memory { OnlyMemory result };
}

/// How many bytes the list takes, its count and its items.
#[tactic(auto, unfolding(codes::specs::Codes::list, codes::specs::Codes::word))]
pub(crate) fn list_len<T: Coded>(all: &[T]) -> usize
    ensures { result ≡ capped (length (list T.code all.now)) }
{
    let mut len = 4usize;
    for item in all {
        len = len.saturating_add(item.code_len());
    }
    len
}

/// Adds the count of the list and then its items.
#[tactic(auto, unfolding(codes::specs::Codes::list))]
pub(crate) fn put_list<T: Coded>(to: &mut Vec<u8>, all: &[T]) -> Result<(), ListErr>
    ensures written { OnOk result (to.new.items ≡ to.old.items ++ list T.code all.now) }
    ensures told { OnOk result (IsList T.fits all.now) }
    ensures memory { OnlyMemory result }
{
    put_len(to, all.len())?;
    put_items(to, all)?;
    Ok(())
}

fn put_items<T: Coded>(to: &mut Vec<u8>, all: &[T]) -> Result<(), ListErr>
    ensures written { OnOk result (to.new.items ≡ to.old.items ++ items T.code all.now) }
    ensures told { OnOk result (Each T.fits all.now) }
    ensures memory { OnlyMemory result }
{
    for item in all {
        item.put(to)?;
    }
    Ok(())
}

/// Adds a length or count.
fn put_len(to: &mut Vec<u8>, len: usize) -> Result<(), ListErr>
    ensures written { OnOk result (to.new.items ≡ to.old.items ++ word len) }
    ensures short { OnOk result (len < 2 ^ 32) }
    ensures memory { OnlyMemory result }
{
    match u32::try_from(len) {
        Ok(len) => {
            codes::put_word(to, len)?;
            Ok(())
        }
        Err(_) => Err(ListErr::OutOfMemory),
    }
}

#[tactic(auto, unfolding(codes::specs::Codes::str, codes::specs::Codes::word))]
fn str_len(bytes: &[u8]) -> usize
    ensures { result ≡ capped (length (str bytes.now)) }
{
    bytes.len().saturating_add(4)
}

/// Adds bytes behind their length.
#[tactic(auto, unfolding(codes::specs::Codes::str))]
fn put_str(to: &mut Vec<u8>, bytes: &[u8]) -> Result<(), ListErr>
    ensures written { OnOk result (to.new.items ≡ to.old.items ++ str bytes.now) }
    ensures short { OnOk result (IsShort bytes.now) }
    ensures memory { OnlyMemory result }
{
    put_len(to, bytes.len())?;
    to.extend_from_slice(bytes)?;
    Ok(())
}

/// How many bytes the text of a path has, or the greatest `usize` where these are more.
fn text_len(path: &[Text]) -> usize
    ensures { result ≡ capped (length (path_text path.now)) }
{
    let mut len = 0usize;
    for (i, name) in path.iter().enumerate() {
        if i > 0 {
            len = len.saturating_add(1);
        }
        len = len.saturating_add(name.as_str().len());
    }
    len
}

/// Adds the text of a path.
fn put_text(to: &mut Vec<u8>, path: &[Text]) -> Result<(), ListErr>
    ensures written { OnOk result (to.new.items ≡ to.old.items ++ path_text path.now) }
    ensures memory { OnlyMemory result }
{
    for (i, name) in path.iter().enumerate() {
        if i > 0 {
            to.push(b'/')?;
        }
        to.extend_from_slice(name.as_str().as_bytes())?;
    }
    Ok(())
}

impl Coded for u32 {
    ghost code = { word };

    ghost fits = { IsWord };

    #[tactic(auto, unfolding(codes::specs::Codes::word))]
    fn code_len(&self) -> usize {
        4
    }

    fn put(&self, to: &mut Vec<u8>) -> Result<(), ListErr> {
        codes::put_word(to, *self)?;
        Ok(())
    }
}

impl Coded for Text {
    ghost code = { str };

    ghost fits = { IsShort };

    fn code_len(&self) -> usize {
        str_len(self.as_str().as_bytes())
    }

    fn put(&self, to: &mut Vec<u8>) -> Result<(), ListErr> {
        put_str(to, self.as_str().as_bytes())
    }
}

impl Coded for Bytes {
    ghost code = { str };

    ghost fits = { IsShort };

    fn code_len(&self) -> usize {
        str_len(self.as_slice())
    }

    fn put(&self, to: &mut Vec<u8>) -> Result<(), ListErr> {
        put_str(to, self.as_slice())
    }
}

impl Coded for RelPath {
    ghost code = { path_code };

    ghost fits = { PathFits };

    #[tactic(auto, unfolding(crate::specs::KeyText::path_code, codes::specs::Codes::str, codes::specs::Codes::word))]
    fn code_len(&self) -> usize {
        text_len(self.components()).saturating_add(4)
    }

    #[tactic(auto, unfolding(crate::specs::KeyText::path_code, codes::specs::Codes::str))]
    fn put(&self, to: &mut Vec<u8>) -> Result<(), ListErr> {
        let path = self.components();
        put_len(to, text_len(path))?;
        put_text(to, path)?;
        Ok(())
    }
}

impl<A: Coded, B: Coded> Coded for (A, B) {
    ghost code = { both A.code B.code };

    ghost fits = { AreBoth A.fits B.fits };

    #[tactic(auto, unfolding(codes::specs::Codes::both))]
    fn code_len(&self) -> usize {
        self.0.code_len().saturating_add(self.1.code_len())
    }

    #[tactic(auto, unfolding(codes::specs::Codes::both))]
    fn put(&self, to: &mut Vec<u8>) -> Result<(), ListErr> {
        self.0.put(to)?;
        self.1.put(to)?;
        Ok(())
    }
}

impl Coded for GlobList {
    ghost code = { list str };

    ghost fits = { IsList IsShort };

    fn code_len(&self) -> usize {
        list_len(self.texts().as_slice())
    }

    fn put(&self, to: &mut Vec<u8>) -> Result<(), ListErr> {
        put_list(to, self.texts().as_slice())
    }
}
