// The closure of a task.
ghost use Rattle.std.specs.Prelude.{◌≡◌, ◌<◌, IfOk, OnOk, length};
ghost use Rattle.listing.specs.KeyText.{key_text, Fits};
ghost use Rattle.listing.specs.Memory.{OnlyMemory, capped};
ghost use Rattle.run_laws.specs.Ancestors.{IsLower};
ghost use Rattle.run_laws.specs.Closures.{closure};
ghost use Rattle.spawn_dev.specs.Orders.{AscendByPath};

use crate::naming::files_of;
use crate::places::ancestors;
use crate::renumbering::parts_of;
use listing::{Excerpt, ListErr, Listing};
use rel_path::Bytes;
use std::alloc::Global;

/// The closure of the task at the place, where it lies in the listing. Dependencies stand at lower places, the files
/// ascend by path, and the place is one of a part.
///
/// It looks only at those parts that it keeps, finds the files that they name by halving, and copies none.
pub fn excerpt<'a>(alloc: Global, listing: &'a Listing, place: u32) -> Result<Excerpt<'a>, ListErr>
    requires lower { IsLower listing.now }
    requires ascend { AscendByPath listing.now.files }
    requires place { place < length listing.now.parts }
    ensures value { IfOk result (λ part. part ≡ closure listing.now place) }
    ensures memory { OnlyMemory result }
{
    let kept = ancestors(alloc, listing, place as usize)?;
    let parts = parts_of(alloc, listing, &kept)?;
    let files = files_of(alloc, listing.files.as_slice(), parts.as_slice())?;
    Ok(Excerpt::new(files, parts))
}

/// The key text of the closure, written straight from the listing: its bytes are copied once.
pub fn closure_key(alloc: Global, listing: &Listing, place: u32) -> Result<Bytes, ListErr>
    requires lower { IsLower listing.now }
    requires ascend { AscendByPath listing.now.files }
    requires place { place < length listing.now.parts }
    ensures value { IfOk result (λ key. key ≡ key_text (closure listing.now place)) }
    ensures told { OnOk result (Fits (closure listing.now place)) }
    ensures memory { OnlyMemory result }
{
    let excerpt = excerpt(alloc, listing, place)?;
    excerpt.key_text(alloc)
}

/// How many bytes the key text of the closure has, or the greatest `usize` where these are more. None
/// is written.
pub fn closure_key_len(alloc: Global, listing: &Listing, place: u32) -> Result<usize, ListErr>
    requires lower { IsLower listing.now }
    requires ascend { AscendByPath listing.now.files }
    requires place { place < length listing.now.parts }
    ensures value { IfOk result (λ len.
        len ≡ capped (length (key_text (closure listing.now place)))) }
    ensures memory { OnlyMemory result }
{
    let excerpt = excerpt(alloc, listing, place)?;
    Ok(excerpt.key_len())
}
