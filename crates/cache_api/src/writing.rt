// The text of an artifact.
ghost use Rattle.std.specs.Prelude.{◌≡◌, ◌++◌, ◌<◌, ◌^◌, length, Some, IsTrue, IfOk, OnOk};
ghost use Rattle.codes.specs.Codes.{str, IsShort, word, items, list, Each};
ghost use Rattle.listing.specs.KeyText.{path_text, path_code, file_code};
ghost use Rattle.cache_api.specs.Artifacts.{FileFits, artifact, artifact_text, ascends};
ghost use Rattle.cache_api.specs.Reading.{artifact_in};
ghost use Rattle.cache_api.specs.Memory.{OnlyMemory, capped};

use crate::{Artifact, CacheErr};
use rel_path::{Bytes, RelPath, Text};
use std::alloc::Global;

impl Artifact {
    /// The text of the artifact, which reads back where its paths ascend. A string or list of 2^32 or more bytes or
    /// members takes more memory than there is.
    #[tactic(auto, unfolding(crate::specs::Artifacts::artifact_text, codes::specs::Codes::list))]
    pub fn text(&self, alloc: Global) -> Result<Bytes, CacheErr>
        ensures text { IfOk result (λ text. text ≡ artifact_text (artifact self.now)) }
        ensures back { IfOk result (λ text.
            IsTrue (ascends self.now.files) → artifact_in text ≡ Some (artifact self.now)) }
        ensures memory { OnlyMemory result }
    {
        let files = self.files.as_slice();
        let mut text = Vec::with_capacity(alloc, self.text_len() as usize)?;
        put_str(&mut text, self.log.as_slice())?;
        put_len(&mut text, files.len())?;
        put_files(alloc, &mut text, files)?;
        Ok(Bytes::from_vec(text))
    }

    /// How many bytes the text has, or the greatest `u64` where these are more. It takes no memory.
    #[tactic(auto, unfolding(crate::specs::Artifacts::artifact_text, codes::specs::Codes::list, codes::specs::Codes::str, codes::specs::Codes::word))]
    pub fn text_len(&self) -> u64
        ensures { result ≡ capped (length (artifact_text (artifact self.now))) }
    {
        let log = self.log.as_slice().len() as u64;
        let files = files_len(self.files.as_slice());
        log.saturating_add(files).saturating_add(8)
    }
}

/// How many bytes the files take, or the greatest `u64` where these are more.
fn files_len(files: &[(RelPath, Bytes)]) -> u64
    ensures { result ≡ capped (length (items file_code files.now)) }
{
    let mut len = 0u64;
    for file in files {
        len = len.saturating_add(file_len(file));
    }
    len
}

/// How many bytes a file takes with its path, or the greatest `u64` where these are more.
#[tactic(auto, unfolding(listing::specs::KeyText::path_code, codes::specs::Codes::both, codes::specs::Codes::str, codes::specs::Codes::word))]
fn file_len(file: &(RelPath, Bytes)) -> u64
    ensures { result ≡ capped (length (file_code file.now)) }
{
    let path = path_len(file.0.components());
    let bytes = file.1.as_slice().len() as u64;
    path.saturating_add(bytes).saturating_add(8)
}

/// How many bytes the text of a path has, or the greatest `u64` where these are more.
fn path_len(path: &[Text]) -> u64
    ensures { result ≡ capped (length (path_text path.now)) }
{
    let mut len = 0u64;
    for (i, name) in path.iter().enumerate() {
        if i > 0 {
            len = len.saturating_add(1);
        }
        len = len.saturating_add(name.as_str().len() as u64);
    }
    len
}

/// Adds the files.
fn put_files(alloc: Global, to: &mut Vec<u8>, files: &[(RelPath, Bytes)]) -> Result<(), CacheErr>
    ensures written { OnOk result (to.new.items ≡ to.old.items ++ items file_code files.now) }
    ensures fits { OnOk result (Each FileFits files.now) }
    ensures memory { OnlyMemory result }
{
    for file in files {
        put_file(alloc, to, file)?;
    }
    Ok(())
}

/// Adds a file, its path and its bytes.
#[tactic(auto, unfolding(listing::specs::KeyText::path_code, codes::specs::Codes::both))]
fn put_file(alloc: Global, to: &mut Vec<u8>, file: &(RelPath, Bytes)) -> Result<(), CacheErr>
    ensures written { OnOk result (to.new.items ≡ to.old.items ++ file_code file.now) }
    ensures fits { OnOk result (FileFits file.now) }
    ensures memory { OnlyMemory result }
{
    let (path, bytes) = file;
    let text = path.text(alloc)?;
    put_str(to, text.as_str().as_bytes())?;
    put_str(to, bytes.as_slice())?;
    Ok(())
}

/// Adds bytes behind their length.
#[tactic(auto, unfolding(codes::specs::Codes::str))]
fn put_str(to: &mut Vec<u8>, bytes: &[u8]) -> Result<(), CacheErr>
    ensures written { OnOk result (to.new.items ≡ to.old.items ++ str bytes.now) }
    ensures short { OnOk result (IsShort bytes.now) }
    ensures memory { OnlyMemory result }
{
    put_len(to, bytes.len())?;
    to.extend_from_slice(bytes)?;
    Ok(())
}

/// Adds a length or count.
fn put_len(to: &mut Vec<u8>, len: usize) -> Result<(), CacheErr>
    ensures written { OnOk result (to.new.items ≡ to.old.items ++ word len) }
    ensures short { OnOk result (len < 2 ^ 32) }
    ensures memory { OnlyMemory result }
{
    match u32::try_from(len) {
        Ok(len) => {
            codes::put_word(to, len)?;
            Ok(())
        }
        Err(_) => Err(CacheErr::OutOfMemory),
    }
}
