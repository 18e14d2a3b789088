// The list of files of a key, looked over.
ghost use Rattle.std.specs.Prelude.{◌≡◌, map, IfOk};
ghost use Rattle.codes.specs.Codes.{read_str, read_both};
ghost use Rattle.codes.specs.Views.{taken_by};
ghost use Rattle.pair_frames.specs.Runs.{read_files};
ghost use Rattle.pair_writer.specs.Lists.{is_taken, lists_files};
ghost use Rattle.pair_writer.specs.FileTexts.{bytes_read, texts_read, key_texts};

use codes::{str_at, word_at};
use pair_frames::MAGIC_BYTES;
use std::alloc::{AllocError, Global};

/// How a key begins.
const MAGIC: &[u8] = b"TURBKEY1";

/// Whether a key has a list of files behind its magic.
pub(crate) fn lists_files(key: &[u8]) -> bool
    ensures { result ≡ lists_files key.now }
{
    let Some((magic, list)) = key.split_at_checked(MAGIC_BYTES as usize) else {
        return false;
    };
    magic == MAGIC && is_list(list)
}

/// Whether a list of files stands at the front.
#[tactic(auto, unfolding(pair_frames::specs::Runs::read_files, codes::specs::Codes::read_list))]
fn is_list(bytes: &[u8]) -> bool
    ensures { result ≡ is_taken (read_files bytes.now) }
{
    let Some((count, first)) = word_at(bytes) else {
        return false;
    };
    let mut rest = first;
    for i in 0..count {
        let Some((_, more)) = file_at(rest) else {
            return false;
        };
        rest = more;
    }
    true
}

/// The bytes of the files that a key lists, in its order. There are none where it lists no files.
pub(crate) fn key_texts<'a>(alloc: Global, key: &'a [u8]) -> Result<Vec<&'a [u8]>, AllocError>
    ensures { IfOk result (λ texts. map (λ text. text.now) texts.items ≡ key_texts key.now) }
{
    let Some((magic, list)) = key.split_at_checked(MAGIC_BYTES as usize) else {
        return Ok(Vec::new(alloc));
    };
    if magic != MAGIC {
        return Ok(Vec::new(alloc));
    }
    list_texts(alloc, list)
}

/// The bytes of the files of the list at the front. There are none where no list stands there.
#[tactic(auto, unfolding(pair_frames::specs::Runs::read_files, codes::specs::Codes::read_list))]
fn list_texts<'a>(alloc: Global, bytes: &'a [u8]) -> Result<Vec<&'a [u8]>, AllocError>
    ensures { IfOk result (λ texts.
        map (λ text. text.now) texts.items ≡ texts_read (read_files bytes.now)) }
{
    let mut texts = Vec::new(alloc);
    let Some((count, first)) = word_at(bytes) else {
        return Ok(texts);
    };
    let mut rest = first;
    for i in 0..count {
        let Some((text, more)) = file_at(rest) else {
            return Ok(Vec::new(alloc));
        };
        texts.push(text)?;
        rest = more;
    }
    Ok(texts)
}

/// The bytes of the file at the front, behind its path, and what follows them.
#[tactic(auto, unfolding(codes::specs::Codes::read_both))]
fn file_at(bytes: &[u8]) -> Option<(&[u8], &[u8])>
    ensures { taken_by (λ p. p.0.now) (λ p. p.1.now) result
        ≡ bytes_read (read_both read_str read_str bytes.now) }
{
    let (_, behind) = str_at(bytes)?;
    let (text, rest) = str_at(behind)?;
    Some((text, rest))
}
