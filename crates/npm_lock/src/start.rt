// Names that are looked up, and those that are missing.
ghost use Rattle.std.specs.Prelude.{◌≡◌, ◌<◌, ◌^◌, [], length, map, None, IfOk};
ghost use Rattle.std.specs.Ordering.{is_lt};
ghost use Rattle.lock_entries.specs.Lockfile.{Ascend};
ghost use Rattle.npm_lock.specs.Finds.{root_of};
ghost use Rattle.npm_lock.specs.Lacks.{lack_cmp, lesser, least_after, with_lack, is_lacking, start_lacks, lacks_by};

use crate::lookup::found_number;
use lock_entries::Entry;
use rel_path::Text;
use std::alloc::{AllocError, Global};
use std::cmp::Ordering;

/// A name that is looked up from a location. It is soft where nothing has to be found for it: an optional name, or
/// a peer's.
#[derive(Debug, Drop)]
pub struct Start {
    pub from: Text,
    pub name: Text,
    pub soft: bool,
}

/// A name that has to be found from a location, and is not.
#[derive(Clone, Drop)]
pub(crate) struct Lack {
    pub from: Text,
    pub name: Text,
}

fn root_of(entries: &[Entry], start: &Start) -> Option<u32>
    requires ascend { Ascend entries.now }
    requires few { length entries.now < 2 ^ 32 }
    ensures { result ≡ root_of entries.now start.now }
{
    found_number(
        entries,
        start.from.as_str().as_bytes(),
        start.name.as_str().as_bytes(),
    )
}

/// What each start finds.
pub(crate) fn roots(
    alloc: Global,
    entries: &[Entry],
    starts: &[Start],
) -> Result<Vec<Option<u32>>, AllocError>
    requires ascend { Ascend entries.now }
    requires few { length entries.now < 2 ^ 32 }
    ensures { IfOk result (λ roots. roots.items ≡ map (root_of entries.now) starts.now) }
{
    let mut roots = Vec::new(alloc);
    for start in starts {
        roots.push(root_of(entries, start))?;
    }
    Ok(roots)
}

// By location, then by name.
fn is_before(lack: &Lack, other: &Lack) -> bool
    ensures { result ≡ is_lt (lack_cmp lack.now other.now) }
{
    match lack.from.cmp(&other.from) {
        Ordering::Less => true,
        Ordering::Equal => lack.name.cmp(&other.name).is_lt(),
        Ordering::Greater => false,
    }
}

fn lesser(lack: Lack, other: Option<Lack>) -> Lack
    ensures { result ≡ lesser lack other }
{
    match other {
        None => lack,
        Some(other) => {
            if is_before(&other, &lack) {
                other
            } else {
                lack
            }
        }
    }
}

// The least after a name was looked up too, which found this.
fn lack_after(
    from: &Text,
    name: &Text,
    soft: bool,
    found: Option<u32>,
    least: Option<Lack>,
) -> Result<Option<Lack>, AllocError>
    ensures least { IfOk result
        (λ now. now ≡ least_after
        (with_lack (is_lacking soft found) (record { from = from.now; name = name.now }) [])
        least) }
{
    if soft || found.is_some() {
        return Ok(least);
    }
    let lack = Lack {
        from: from.copy()?,
        name: name.copy()?,
    };
    Ok(Some(lesser(lack, least)))
}

/// The least after the starts were looked up too.
pub(crate) fn start_lack(
    entries: &[Entry],
    starts: &[Start],
    least: Option<Lack>,
) -> Result<Option<Lack>, AllocError>
    requires ascend { Ascend entries.now }
    requires few { length entries.now < 2 ^ 32 }
    ensures least { let lacks = start_lacks entries.now starts.now in
        IfOk result (λ now. now ≡ least_after lacks least) }
{
    let mut least = least;
    for start in starts {
        let found = root_of(entries, start);
        least = lack_after(&start.from, &start.name, start.soft, found, least)?;
    }
    Ok(least)
}

// `found` is what the names find.
pub(crate) fn entry_lack(
    entry: &Entry,
    found: &[Option<u32>],
    least: Option<Lack>,
) -> Result<Option<Lack>, AllocError>
    requires { length found.now ≡ length entry.now.names }
    ensures least { IfOk result
        (λ now. now ≡ least_after (lacks_by entry.now.location entry.now.names found.now) least) }
{
    let mut least = least;
    for (i, name) in entry.names.as_slice().iter().enumerate() {
        least = lack_after(&entry.location, &name.text, name.soft, found[i], least)?;
    }
    Ok(least)
}
