// Lists of globs.
ghost use Rattle.std.specs.Prelude.{◌≡◌, ◌↔◌, ◌++◌, ◌∷◌, [], IsTrue, IfOk, IfErr, IsOkUnless, OnOk, OnErr, None};
ghost use Rattle.glob_syntax.specs.Reading.{MayRefuse};
ghost use Rattle.globs.specs.declared.error.ListGlobErr.TheVariants.{OutOfMemory};
ghost use Rattle.globs.specs.Lists.{fault_in, list_fault, MayRefuseList, IsRefusal, Takes, TakesWhole, list_takes, list_takes_whole};
ghost use Rattle.globs.specs.Entries.{entry_of, entries_of, any_matches, takes_entries};

use crate::error::ListGlobErr;
use crate::glob::Glob;
use glob_syntax::GlobErr;
use rel_path::{RelPath, Text, Texts, split_first_char};
use std::alloc::Global;
use std::marker::Model;

/// A glob of a list, and whether it excludes.
#[derive(Debug, Drop)]
pub(crate) struct Entry {
    excluded: bool,
    glob: Glob,
}

impl Entry {
    fn copy(&self) -> Result<Entry, ListGlobErr>
        ensures value { IfOk result (λ copy. copy ≡ self.now) }
        ensures memory { IsOkUnless result ListGlobErr.OutOfMemory }
    {
        match self.glob.copy() {
            Ok(glob) => Ok(Entry {
                excluded: self.excluded,
                glob,
            }),
            Err(_) => Err(ListGlobErr::OutOfMemory),
        }
    }
}

/// A list of globs, which contracts see as the texts that were read. A path is taken where a glob without a leading `!`
/// matches it and none with one does, in whatever order they stand.
#[derive(Debug, Drop)]
pub struct GlobList {
    texts: Texts,
    entries: Vec<Entry>,
}

impl Model for GlobList {
    ghost use Rattle.std.specs.Prelude.{◌≡◌, List, ℕ};

    ghost Value = { List (List ℕ) };

    ghost use Rattle.globs.specs.Entries.{entries_of};

    ghost view = { λ l. l.texts };

    ghost invariant = { λ l. l.entries.items ≡ entries_of l.texts };
}

impl GlobList {
    /// The globs that the texts write. Of the texts that write none the first is answered, by its index and the fault.
    /// Where that index is no u32, the answer is `OutOfMemory`.
    pub fn read(alloc: Global, texts: &Texts) -> Result<GlobList, ListGlobErr>
        ensures value { IfOk result (λ list. list ≡ texts.now) }
        ensures whole { IfOk result (λ list. list_fault 0 texts.now ≡ None) }
        ensures err { IfErr result (MayRefuseList (list_fault 0 texts.now)) }
    {
        let entries = read_entries(alloc, texts.as_slice())?;
        let texts = texts.copy()?;
        Ok(GlobList { texts, entries })
    }

    /// The globs as written.
    pub fn texts(&self) -> &Texts
        ensures { result.now ≡ self.now }
    {
        &self.texts
    }

    fn entries(&self) -> &[Entry]
        ensures { result.now ≡ entries_of self.now }
    {
        self.entries.as_slice()
    }

    /// Whether a glob without `!` matches the path and none with `!` does.
    pub fn takes(&self, path: &RelPath) -> bool
        ensures value { result ≡ list_takes self.now path.now }
        ensures meaning { IsTrue result ↔ Takes self.now path.now }
    {
        self.takes_components(path.components())
    }

    pub(crate) fn takes_components(&self, path: &[Text]) -> bool
        ensures { result ≡ list_takes self.now path.now }
    {
        takes_entries(false, self.entries(), path)
    }

    /// Whether a glob without `!` matches the path whole and none with `!` does.
    pub fn takes_whole(&self, path: &RelPath) -> bool
        ensures value { result ≡ list_takes_whole self.now path.now }
        ensures meaning { IsTrue result ↔ TakesWhole self.now path.now }
    {
        takes_entries(true, self.entries(), path.components())
    }

    pub fn copy(&self) -> Result<GlobList, ListGlobErr>
        ensures value { IfOk result (λ copy. copy ≡ self.now) }
        ensures memory { IsOkUnless result ListGlobErr.OutOfMemory }
    {
        let entries = copy_of(*self.entries.allocator(), self.entries())?;
        let texts = self.texts.copy()?;
        Ok(GlobList { texts, entries })
    }
}

fn copy_of(alloc: Global, entries: &[Entry]) -> Result<Vec<Entry>, ListGlobErr>
    ensures value { IfOk result (λ copy. copy.items ≡ entries.now) }
    ensures memory { IsOkUnless result ListGlobErr.OutOfMemory }
{
    let mut copy = Vec::new(alloc);
    for entry in entries {
        copy.push(entry.copy()?)?;
    }
    Ok(copy)
}

/// The glob that a text of a list writes. The places of its faults count the `!` too.
fn read_entry(alloc: Global, text: &str) -> Result<Entry, GlobErr>
    ensures value { IfOk result (λ entry. entry ≡ entry_of text.now) }
    ensures whole { IfOk result (λ entry. fault_in text.now ≡ None) }
    ensures err { IfErr result (MayRefuse (fault_in text.now)) }
{
    let _len = text.len();
    match split_first_char(text) {
        Some((c, behind)) if c == '!' => {
            let glob = Glob::read_from(alloc, 1, behind)?;
            Ok(Entry {
                excluded: true,
                glob,
            })
        }
        _ => {
            let glob = Glob::read_from(alloc, 0, text)?;
            Ok(Entry {
                excluded: false,
                glob,
            })
        }
    }
}

fn refusal(index: usize, fault: GlobErr) -> ListGlobErr
    ensures { IsRefusal index fault result }
{
    match (u32::try_from(index), fault) {
        (_, GlobErr::OutOfMemory) => ListGlobErr::OutOfMemory,
        (Ok(index), fault) => ListGlobErr::At { index, fault },
        (Err(_), _) => ListGlobErr::OutOfMemory,
    }
}

fn read_entries(alloc: Global, texts: &[Text]) -> Result<Vec<Entry>, ListGlobErr>
    ensures value { IfOk result (λ r. r.items ≡ entries_of texts.now) }
    ensures whole { IfOk result (λ r. list_fault 0 texts.now ≡ None) }
    ensures err { IfErr result (MayRefuseList (list_fault 0 texts.now)) }
{
    let mut entries = Vec::new(alloc);
    for (index, text) in texts.iter().enumerate() {
        match read_entry(alloc, text.as_str()) {
            Ok(entry) => entries.push(entry)?,
            Err(fault) => return Err(refusal(index, fault)),
        }
    }
    Ok(entries)
}

#[tactic(auto, unfolding(crate::specs::Entries::takes_entries))]
fn takes_entries(whole: bool, entries: &[Entry], path: &[Text]) -> bool
    ensures { result ≡ takes_entries whole entries.now path.now }
{
    any_matches(whole, false, entries, path) && !any_matches(whole, true, entries, path)
}

/// Whether an entry that excludes, or one that does not, matches the path, whole or also from above.
#[tactic(auto, unfolding(crate::specs::Entries::any_matches))]
fn any_matches(whole: bool, excluded: bool, entries: &[Entry], path: &[Text]) -> bool
    ensures { result ≡ any_matches whole excluded entries.now path.now }
{
    entries.iter().any(|entry| entry.excluded == excluded && entry.glob.matches_as(whole, path))
}

/// Lists of globs.
#[derive(Debug, Drop)]
pub struct GlobLists {
    items: Vec<GlobList>,
}

impl Model for GlobLists {
    ghost use Rattle.std.specs.Prelude.{List, ℕ};

    ghost Value = { List (List (List ℕ)) };

    ghost view = { λ l. l.items.items };
}

impl GlobLists {
    /// The empty list. It keeps the allocator and takes no memory.
    pub fn new(alloc: Global) -> GlobLists
        ensures { result ≡ [] }
    {
        GlobLists {
            items: Vec::new(alloc),
        }
    }

    /// Adds an item at the end. The list stays as it was where memory is wanting.
    pub fn push(&mut self, item: GlobList) -> Result<(), ListGlobErr>
        ensures pushed { OnOk result (self.new ≡ self.old ++ item ∷ []) }
        ensures kept { OnErr result (self.new ≡ self.old) }
        ensures memory { IsOkUnless result ListGlobErr.OutOfMemory }
    {
        self.items.push(item)?;
        Ok(())
    }

    pub fn as_slice(&self) -> &[GlobList]
        ensures { result.now ≡ self.now }
    {
        self.items.as_slice()
    }

    pub fn from_vec(items: Vec<GlobList>) -> GlobLists
        ensures { result ≡ items.items }
    {
        GlobLists { items }
    }

    pub fn into_vec(self) -> Vec<GlobList>
        ensures { result.items ≡ self }
    {
        self.items
    }

    pub fn copy(&self) -> Result<GlobLists, ListGlobErr>
        ensures value { IfOk result (λ copy. copy ≡ self.now) }
        ensures memory { IsOkUnless result ListGlobErr.OutOfMemory }
    {
        let items = copies_of(*self.items.allocator(), self.as_slice())?;
        Ok(GlobLists { items })
    }
}

fn copies_of(alloc: Global, lists: &[GlobList]) -> Result<Vec<GlobList>, ListGlobErr>
    ensures value { IfOk result (λ copy. copy.items ≡ lists.now) }
    ensures memory { IsOkUnless result ListGlobErr.OutOfMemory }
{
    let mut copy = Vec::new(alloc);
    for list in lists {
        copy.push(list.copy()?)?;
    }
    Ok(copy)
}
