// A lockfile that was read.
ghost use Rattle.std.specs.Prelude.{◌≡◌, ◌<◌, ◌^◌, ◌++◌, length, ◌≤◌, map, Ok, Some, IfSome, IfOk, codes, IsOkUnless};
ghost use Rattle.std.specs.Option.{option_map};
ghost use Rattle.std.specs.List.{slice_get};
ghost use Rattle.serde_json.specs.View.{view};
ghost use Rattle.lock_entries.specs.Lockfile.{entries_in, lock_refusal, Ascend};
ghost use Rattle.serde_json.specs.Find.{get};
ghost use Rattle.serde_json.specs.Data.{depth};
ghost use Rattle.serde_json.specs.Read.{max_depth};
ghost use Rattle.lock_entries.specs.Errors.{Accepts};
ghost use Rattle.lock_entries.specs.declared.error.LockErr.TheVariants.{OutOfMemory};
ghost use Rattle.npm_lock.specs.Cut.{cut};
ghost use Rattle.npm_lock.specs.Externals.{Externals, Links, IsReachIn, texts_in, members_in};
ghost use Rattle.npm_lock.specs.Reach.{set_of};
ghost use Rattle.npm_lock.specs.Reading.{lock_of, Reads, IsPrinted};
ghost use Rattle.npm_lock.specs.Finds.{found_by};
ghost use Rattle.npm_lock.specs.Lookup.{found_number};

use crate::ExtErr;
use crate::cut::cut_value;
use crate::externals::{lack_beyond, links, reached_beyond};
use crate::finds::{Finds, all_found};
use crate::lookup::found_number;
use crate::reached::Reached;
use crate::start::{Lack, Start};
use crate::texts::entry_texts;
use json_view::View;
use lock_entries::{Entry, LockErr, read_entries};
use rel_path::{Bytes, Pairs, Text, Texts};
use serde_json::Value;
use std::alloc::{AllocError, Global};
use std::marker::Model;

const LINE_FEED: u8 = b'\n';

/// A lockfile, which contracts see as the JSON value that the file writes. Its locations are numbered from 0 in the
/// order of their bytes.
#[derive(Drop)]
pub struct Lock {
    value: Value,
    entries: Vec<Entry>,
    // What the names of each entry find.
    finds: Vec<Finds>,
    // Each entry as `serde_json` writes it without blanks.
    texts: Texts,
}

impl Model for Lock {
    ghost use Rattle.serde_json.specs.declared.value.Value.{Value as Json};

    ghost Value = { Json };

    ghost use Rattle.serde_json.specs.contracts.value.Value as json;
    ghost use Rattle.std.specs.Coded.{codes};

    ghost coded = { Prim.hlevel (codes, json.the_row.coded) };

    ghost use Rattle.npm_lock.specs.Lock.{IsLock};

    ghost view = { λ l. l.value };

    ghost invariant = { λ l. IsLock l.value l.entries.items l.finds.items l.texts };
}

impl Lock {
    /// Reads a lockfile. The order of refusals: `NotJson`; `WrongKind` of the top, and of `lockfileVersion` where it
    /// is missing or no whole number; `Version` where that is not 3; `Number` at the least pointer to a number that
    /// is not whole or needs more than 64 bits, anywhere in the file; `WrongKind` at the least pointer of the rest.
    pub fn read(alloc: Global, bytes: &[u8]) -> Result<Lock, LockErr>
        ensures { Reads (lock_of bytes.now) result }
    {
        let value = View::read(alloc, bytes)?.into_value();
        Lock::from_value(alloc, value)
    }

    fn from_value(alloc: Global, value: Value) -> Result<Lock, LockErr>
        requires { depth (view value) ≤ max_depth }
        ensures { Accepts (lock_refusal (view value)) (λ lock. view lock ≡ view value) result }
    {
        let entries = read_entries(alloc, &value)?;
        let finds = all_found(alloc, entries.as_slice())?;
        let texts = entry_texts(alloc, &value, entries.as_slice())?;
        Ok(Lock {
            value,
            entries,
            finds,
            texts,
        })
    }

    fn finds(&self) -> &[Finds]
        ensures { result.now ≡ map (found_by (entries_in (view self.now)))
            (entries_in (view self.now)) }
    {
        self.finds.as_slice()
    }

    fn entries(&self) -> &[Entry]
        ensures value { result.now ≡ entries_in (view self.now) }
        ensures ascend { Ascend result.now }
        ensures few { length result.now < 2 ^ 32 }
    {
        self.entries.as_slice()
    }

    /// The number of the location that the name finds from a location: the first of `node_modules/name` in `from`
    /// itself and in each folder above it up to the root, but for folders that are called node_modules, that the
    /// lockfile has. It takes no memory.
    pub fn found(&self, from: &str, name: &str) -> Option<u32>
        ensures number { result ≡ found_number (entries_in (view self.now)) from.now name.now }
        ensures there { IfSome result (λ number. number < length (entries_in (view self.now))) }
    {
        found_number(self.entries(), from.as_bytes(), name.as_bytes())
    }

    /// The location of that number.
    pub fn location(&self, number: u32) -> &Text
        requires { number < length (entries_in (view self.now)) }
        ensures { option_map (λ e. e.location) (slice_get (entries_in (view self.now)) number)
            ≡ Some result.now }
    {
        &self.entries()[number as usize].location
    }

    /// The folder that the location of that number leads to, if it is a link.
    pub fn link_of(&self, number: u32) -> Option<&Text>
        requires { number < length (entries_in (view self.now)) }
        ensures { option_map (λ e. e.link) (slice_get (entries_in (view self.now)) number)
            ≡ Some (option_map (λ t. t.now) result) }
    {
        self.entries()[number as usize].link.as_ref()
    }

    fn texts(&self) -> &[Text]
        ensures { let packages = get (codes "packages") (view self.now) in
            result.now ≡ texts_in packages (entries_in (view self.now)) }
    {
        self.texts.as_slice()
    }

    // The locations of the set, each with the text of its entry.
    fn members(&self, alloc: Global, set: &[bool]) -> Result<Pairs, AllocError>
        requires { length set.now ≡ length (entries_in (view self.now)) }
        ensures { let members = set_of (entries_in (view self.now)) set.now in
            IfOk result (λ pairs. pairs ≡ members_in (view self.now) members) }
    {
        let entries = self.entries();
        let texts = self.texts();
        let mut pairs = Pairs::new(alloc);
        for (i, entry) in entries.iter().enumerate() {
            if set[i] {
                pairs.push((entry.location.copy()?, texts[i].copy()?))?;
            }
        }
        pairs.share(alloc)
    }

    /// The locations that the starts reach, ascending, each with its entry as `serde_json` writes it without blanks:
    /// what the starts find, and what the names of every location among them that is no link find. The names of an
    /// entry are those of its `dependencies`, `optionalDependencies` and `peerDependencies`. `Missing` comes where a
    /// start that is not soft, or a name in `dependencies` that is not in `optionalDependencies` too, finds nothing;
    /// of several the least location, and then the least name. Every other name that finds nothing is passed over.
    pub fn externals(&self, alloc: Global, starts: &[Start]) -> Result<Pairs, ExtErr>
        ensures { Externals (view self.now) starts.now result }
    {
        let nothing = Reached::nothing(alloc, self.entries())?;
        self.externals_beyond(alloc, &nothing, starts)
    }

    /// What the starts reach, to go on from. Its only error is want of memory.
    pub fn reached(&self, alloc: Global, starts: Vec<Start>) -> Result<Reached, AllocError>
        ensures starts { IfOk result (λ r. r.starts ≡ starts.items) }
        ensures reached { IfOk result (IsReachIn (view self.now)) }
    {
        let entries = self.entries();
        let nothing = Reached::nothing(alloc, entries)?;
        let set = reached_beyond(alloc, entries, self.finds(), &nothing, starts.as_slice())?;
        let least = lack_beyond(
            entries,
            self.finds(),
            &nothing,
            set.as_slice(),
            starts.as_slice(),
        )?;
        Ok(Reached { starts, set, least })
    }

    /// As `externals` of these starts and those of the base. What the base reaches is not gone through again.
    pub fn externals_beyond(
        &self,
        alloc: Global,
        base: &Reached,
        starts: &[Start],
    ) -> Result<Pairs, ExtErr>
        requires { IsReachIn (view self.now) base.now }
        ensures { Externals (view self.now) (starts.now ++ base.now.starts) result }
    {
        let entries = self.entries();
        let set = reached_beyond(alloc, entries, self.finds(), base, starts)?;
        match lack_beyond(entries, self.finds(), base, set.as_slice(), starts)? {
            Some(Lack { from, name }) => Err(ExtErr::Missing { from, name }),
            None => Ok(self.members(alloc, set.as_slice())?),
        }
    }

    /// The folders that the links among the locations that the starts reach lead to, ascending, each once. Every name
    /// that finds nothing is passed over. Its only error is want of memory.
    pub fn links(&self, alloc: Global, starts: &[Start]) -> Result<Texts, ExtErr>
        ensures { Links (view self.now) starts.now result }
    {
        let entries = self.entries();
        let nothing = Reached::nothing(alloc, entries)?;
        let set = reached_beyond(alloc, entries, self.finds(), &nothing, starts)?;
        Ok(links(alloc, entries, set.as_slice())?)
    }

    /// The lockfile with all its top keys, and of `packages` the root's entry, the entries of the folders, the links
    /// that lead to them, and the entries of the locations `keep`. Its only error is want of memory.
    pub fn cut(&self, alloc: Global, folders: &Texts, keep: &Texts) -> Result<Lock, LockErr>
        ensures cut { IfOk result (λ lock. view lock ≡ cut folders.now keep.now (view self.now)) }
        ensures memory { IsOkUnless result OutOfMemory }
    {
        let value = cut_value(alloc, &self.value, folders, keep)?;
        Lock::from_value(alloc, value)
    }

    /// The lockfile in `serde_json`'s pretty form, keys ascending, with one line feed behind it. It reads back as the
    /// same lockfile. Its only error is want of memory.
    pub fn print(&self, alloc: Global) -> Result<Bytes, LockErr>
        ensures back { IfOk result (λ bytes. lock_of bytes ≡ Ok (view self.now)) }
        ensures printed { IfOk result (IsPrinted (view self.now)) }
        ensures memory { IsOkUnless result OutOfMemory }
    {
        let mut text = self.value.to_vec_pretty(alloc)?;
        text.push(LINE_FEED)?;
        Ok(Bytes::from_vec(text))
    }
}
