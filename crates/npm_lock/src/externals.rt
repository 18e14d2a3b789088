// What starts reach among the entries of a lockfile.
ghost use Rattle.std.specs.Prelude.{◌≡◌, ◌↔◌, ◌<◌, ◌^◌, ◌++◌, ℕ, List, length, map, None, IfOk};
ghost use Rattle.std.specs.Option.{option_to_list};
ghost use Rattle.std.specs.List.Sorted.{IsStrictlySortedBy};
ghost use Rattle.rel_path.specs.Paths.{name_cmp};
ghost use Rattle.lock_entries.specs.Lockfile.{Ascend};
ghost use Rattle.lock_entries.specs.declared.entry.Entry.{Entry};
ghost use Rattle.npm_lock.specs.Externals.{IsExternals, IsLinked, IsReachAmong, IsLeastLack};
ghost use Rattle.npm_lock.specs.Finds.{found_by};
ghost use Rattle.npm_lock.specs.Lacks.{least_after, lacks_of, beyond, member_lacks};
ghost use Rattle.npm_lock.specs.Reach.{set_of, links_of};
ghost use Rattle.npm_lock.specs.Sets.{Has};

use crate::finds::Finds;
use crate::reach::reach;
use crate::reached::Reached;
use crate::start::{Lack, Start, entry_lack, roots, start_lack};
use lock_entries::Entry;
use rel_path::{Text, Texts};
use std::alloc::{AllocError, Global};

/// The flags of the locations that the starts and those of the base reach.
pub(crate) fn reached_beyond(
    alloc: Global,
    entries: &[Entry],
    finds: &[Finds],
    base: &Reached,
    starts: &[Start],
) -> Result<Vec<bool>, AllocError>
    requires ascend { Ascend entries.now }
    requires few { length entries.now < 2 ^ 32 }
    requires found { finds.now ≡ map (found_by entries.now) entries.now }
    requires base { IsReachAmong entries.now base.now }
    ensures size { IfOk result (λ set. length set.items ≡ length entries.now) }
    ensures least { let all = starts.now ++ base.now.starts in
        IfOk result (λ set. IsExternals entries.now all (set_of entries.now set.items)) }
{
    let roots = roots(alloc, entries, starts)?;
    reach(alloc, finds, base.set_copy()?, roots.as_slice())
}

fn lack_at(
    entry: &Entry,
    found: &Finds,
    is_member: bool,
    least: Option<Lack>,
) -> Result<Option<Lack>, AllocError>
    requires { entry.now.link ≡ None → length found.now ≡ length entry.now.names }
    ensures least { IfOk result
        (λ now. now ≡ least_after (lacks_of is_member entry.now found.now) least) }
{
    if is_member && entry.link.is_none() {
        entry_lack(entry, found.as_slice(), least)
    } else {
        Ok(least)
    }
}

/// The least after the names of those members that are not in the base were looked up too.
fn member_lack(
    entries: &[Entry],
    finds: &[Finds],
    base: &[bool],
    set: &[bool],
    least: Option<Lack>,
) -> Result<Option<Lack>, AllocError>
    requires ascend { Ascend entries.now }
    requires found { finds.now ≡ map (found_by entries.now) entries.now }
    requires base { length base.now ≡ length entries.now }
    requires size { length set.now ≡ length entries.now }
    ensures least { let further = beyond (set_of entries.now base.now) (set_of entries.now set.now)
        in let lacks = member_lacks entries.now further entries.now in
        IfOk result (λ now. now ≡ least_after lacks least) }
{
    let mut least = least;
    for (i, entry) in entries.iter().enumerate() {
        let found = &finds[i];
        least = lack_at(entry, found, set[i] && !base[i], least)?;
    }
    Ok(least)
}

/// The least of what has to be found for the starts and those of the base and is not, by location and then by name.
/// The set is what they reach.
pub(crate) fn lack_beyond(
    entries: &[Entry],
    finds: &[Finds],
    base: &Reached,
    set: &[bool],
    starts: &[Start],
) -> Result<Option<Lack>, AllocError>
    requires ascend { Ascend entries.now }
    requires few { length entries.now < 2 ^ 32 }
    requires found { finds.now ≡ map (found_by entries.now) entries.now }
    requires base { IsReachAmong entries.now base.now }
    requires size { length set.now ≡ length entries.now }
    requires set { let all = starts.now ++ base.now.starts in
        IsExternals entries.now all (set_of entries.now set.now) }
    ensures least { let all = starts.now ++ base.now.starts in
        IfOk result (IsLeastLack entries.now all (set_of entries.now set.now)) }
{
    let least = start_lack(entries, starts, base.least_copy()?)?;
    member_lack(entries, finds, base.set(), set, least)
}

fn with_link(mut folders: Vec<Text>, link: &Option<Text>) -> Result<Vec<Text>, AllocError>
    ensures folders { IfOk result (λ now. now.items ≡ folders.items ++ option_to_list link.now) }
{
    if let Some(folder) = link {
        folders.push(folder.copy()?)?;
    }
    Ok(folders)
}

fn linked(alloc: Global, entries: &[Entry], set: &[bool]) -> Result<Vec<Text>, AllocError>
    requires ascend { Ascend entries.now }
    requires size { length set.now ≡ length entries.now }
    ensures folders { IfOk result
        (λ folders. folders.items ≡ links_of (set_of entries.now set.now) entries.now) }
{
    let mut folders = Vec::new(alloc);
    for (i, entry) in entries.iter().enumerate() {
        if set[i] {
            folders = with_link(folders, &entry.link)?;
        }
    }
    Ok(folders)
}

/// The folders that the links of the set lead to, ascending, each once.
pub(crate) fn links(alloc: Global, entries: &[Entry], set: &[bool]) -> Result<Texts, AllocError>
    requires ascend { Ascend entries.now }
    requires size { length set.now ≡ length entries.now }
    ensures ascending { IfOk result (IsStrictlySortedBy name_cmp) }
    ensures linked { IfOk result
        (λ folders. (folder : List ℕ)
        → Has folders folder ↔ IsLinked entries.now (set_of entries.now set.now) folder) }
{
    let mut folders = linked(alloc, entries, set)?;
    folders.sort()?;
    folders.dedup();
    Ok(Texts::from_vec(folders))
}
