// The digests of the files of pairs.
ghost use Rattle.std.specs.Prelude.{◌≡◌, ◌++◌, length, map, sum, IfOk};
ghost use Rattle.sha2.specs.Sha256.{sha256};
ghost use Rattle.pair_writer.specs.FileTexts.{file_texts};
ghost use Rattle.pair_writer.specs.Joined.{cut_by};

use crate::lists::key_texts;
use cache_api::NewPair;
use sha_lanes::digests;
use std::alloc::{AllocError, Global};

/// The digests of the bytes of all files of each pair: of those that its key lists, and behind them of those of its
/// artifact. They are hashed together, whatever pairs they are of.
pub(crate) fn file_digests(
    alloc: Global,
    pairs: &[NewPair],
) -> Result<Vec<Vec<[u8; 32]>>, AllocError>
    ensures { IfOk result (λ found. map (λ own. own.items) found.items
        ≡ map (λ pair. map sha256 (file_texts pair)) pairs.now) }
{
    let mut texts = Vec::new(alloc);
    let mut counts = Vec::with_capacity(alloc, pairs.len())?;
    for pair in pairs {
        let count = add_texts(alloc, &mut texts, pair)?;
        counts.push(count)?;
    }
    let found = digests(alloc, texts.as_slice())?;
    cut_by(alloc, counts.as_slice(), found.as_slice())
}

/// Adds the bytes of the files of a pair, and answers how many files there are.
fn add_texts<'a>(
    alloc: Global,
    texts: &mut Vec<&'a [u8]>,
    pair: &NewPair<'a>,
) -> Result<usize, AllocError>
    ensures count { IfOk result (λ count. count ≡ length (file_texts pair.now)) }
    ensures texts { IfOk result (λ count. map (λ text. text.now) texts.new.items
        ≡ map (λ text. text.now) texts.old.items ++ file_texts pair.now) }
{
    let listed = key_texts(alloc, pair.key.text())?;
    texts.extend_from_slice(listed.as_slice())?;
    let files = pair.artifact.files.as_slice();
    for file in files {
        texts.push(file.1.as_slice())?;
    }
    Ok(listed.len() + files.len())
}

/// The digests, cut into lists of these lengths.
fn cut_by(
    alloc: Global,
    counts: &[usize],
    digests: &[[u8; 32]],
) -> Result<Vec<Vec<[u8; 32]>>, AllocError>
    requires { sum counts.now ≡ length digests.now }
    ensures { IfOk result (λ lists. map (λ own. own.items) lists.items
        ≡ cut_by counts.now digests.now) }
{
    let mut lists = Vec::with_capacity(alloc, counts.len())?;
    let mut rest = digests;
    for count in counts {
        let (own, behind) = rest.split_at(*count);
        lists.push(Vec::from_slice(alloc, own)?)?;
        rest = behind;
    }
    Ok(lists)
}
