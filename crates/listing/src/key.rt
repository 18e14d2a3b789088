// The key text of a listing.
ghost use Rattle.std.specs.Prelude.{◌≡◌, ◌++◌, length, codes, IfOk, OnOk};
ghost use Rattle.codes.specs.Codes.{Separates, list, IsList, AreBoth, IsShort};
ghost use Rattle.listing.specs.KeyText as spec;
ghost use Rattle.listing.specs.Memory.{OnlyMemory, capped};

use crate::ListErr;
use crate::coded::{Coded, list_len, put_list};
use crate::part::{Listing, Part};
use globs::OutSet;
use rel_path::Bytes;
use std::alloc::Global;

/// The law of key texts: two listings with equal key texts are equal, where their texts and lists are short enough for
/// their lengths to be written and the output set of each part has the part's folder. So it is for the files and for the
/// parts alone, whatever follows them.
pub fn key_text_law()
    ensures listings_differ { spec.KeyTextsDiffer }
    ensures files_differ { Separates (list spec.file_code)
        (IsList (AreBoth spec.PathFits IsShort)) }
    ensures parts_differ { Separates (list spec.part_code) (IsList spec.IsPart) }
{}

/// The key text of a listing. A text or list of 2^32 or more bytes or members takes more memory than there is; so where
/// there is a key text, the law of key texts speaks of the listing.
#[tactic(auto, unfolding(crate::specs::KeyText::key_text))]
pub fn key_text(alloc: Global, listing: &Listing) -> Result<Bytes, ListErr>
    ensures value { IfOk result (λ text. text ≡ spec.key_text listing.now) }
    ensures told { OnOk result (spec.Fits listing.now) }
    ensures memory { OnlyMemory result }
{
    key_text_of(alloc, listing.files.as_slice(), listing.parts.as_slice())
}

/// The key text of these files and parts, written into one buffer whose room is taken first.
pub(crate) fn key_text_of<F: Coded, P: Coded>(
    alloc: Global,
    files: &[F],
    parts: &[P],
) -> Result<Bytes, ListErr>
    ensures value { IfOk result (λ text.
        text ≡ codes "TURBKEY1" ++ (list F.code files.now ++ list P.code parts.now)) }
    ensures files { OnOk result (IsList F.fits files.now) }
    ensures parts { OnOk result (IsList P.fits parts.now) }
    ensures memory { OnlyMemory result }
{
    let mut text = Vec::with_capacity(alloc, key_text_len(files, parts))?;
    text.extend_from_slice(b"TURBKEY1")?;
    put_list(&mut text, files)?;
    put_list(&mut text, parts)?;
    Ok(Bytes::from_vec(text))
}

/// How many bytes the key text has, or the greatest `usize` where these are more.
pub(crate) fn key_text_len<F: Coded, P: Coded>(files: &[F], parts: &[P]) -> usize
    ensures { result
        ≡ capped (length (codes "TURBKEY1" ++ (list F.code files.now ++ list P.code parts.now))) }
{
    list_len(files)
        .saturating_add(list_len(parts))
        .saturating_add(8)
}

/// How many bytes the part takes with these dependencies in the place of its own.
#[tactic(auto, unfolding(crate::specs::KeyText::part_code))]
pub(crate) fn part_len(part: &Part, deps: &[u32]) -> usize
    ensures { result ≡ capped (length (spec.part_code (record part.now { deps = deps.now }))) }
{
    let mut len = part.package.code_len();
    len = len.saturating_add(part.folder.code_len());
    len = len.saturating_add(part.task.code_len());
    len = len.saturating_add(list_len(part.scripts.as_slice()));
    len = len.saturating_add(list_len(part.args.as_slice()));
    len = len.saturating_add(part.outs.code_len());
    len = len.saturating_add(list_len(part.env.as_slice()));
    len = len.saturating_add(list_len(part.inputs.as_slice()));
    len = len.saturating_add(list_len(part.externals.as_slice()));
    len.saturating_add(list_len(deps))
}

/// Adds the bytes of the part with these dependencies in the place of its own.
#[tactic(auto, unfolding(crate::specs::KeyText::part_code))]
pub(crate) fn put_part(to: &mut Vec<u8>, part: &Part, deps: &[u32]) -> Result<(), ListErr>
    ensures written { OnOk result (to.new.items
        ≡ to.old.items ++ spec.part_code (record part.now { deps = deps.now })) }
    ensures told { OnOk result (spec.PartFits (record part.now { deps = deps.now })) }
    ensures memory { OnlyMemory result }
{
    part.package.put(to)?;
    part.folder.put(to)?;
    part.task.put(to)?;
    put_list(to, part.scripts.as_slice())?;
    put_list(to, part.args.as_slice())?;
    part.outs.put(to)?;
    put_list(to, part.env.as_slice())?;
    put_list(to, part.inputs.as_slice())?;
    put_list(to, part.externals.as_slice())?;
    put_list(to, deps)?;
    Ok(())
}

impl Coded for OutSet {
    ghost code = { spec.out_set_code };

    ghost fits = { spec.OutSetFits };

    #[tactic(auto, unfolding(crate::specs::KeyText::out_set_code))]
    fn code_len(&self) -> usize {
        let others = list_len(self.others.as_slice());
        self.mine.code_len().saturating_add(others)
    }

    #[tactic(auto, unfolding(crate::specs::KeyText::out_set_code))]
    fn put(&self, to: &mut Vec<u8>) -> Result<(), ListErr> {
        self.mine.put(to)?;
        put_list(to, self.others.as_slice())?;
        Ok(())
    }
}

impl Coded for Part {
    ghost code = { spec.part_code };

    ghost fits = { spec.PartFits };

    fn code_len(&self) -> usize {
        part_len(self, self.deps.as_slice())
    }

    fn put(&self, to: &mut Vec<u8>) -> Result<(), ListErr> {
        put_part(to, self, self.deps.as_slice())
    }
}
