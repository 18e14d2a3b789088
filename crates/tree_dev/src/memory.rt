// A tree in memory, which fails at the calls that it is told to.
ghost use Rattle.std.specs.Prelude.{◌≡◌, ◌≤◌, ◌↔◌, false, Some, None, OnOk, OnErr, IfOk, IsTrue};
ghost use Rattle.std.specs.List.{All, position};
ghost use Rattle.std.specs.List.Sorted.{IsStrictlySortedBy};
ghost use Rattle.std.specs.Option.{option_map};
ghost use Rattle.rel_path.specs.Files.{file_at, over, SameBut};
ghost use Rattle.tree_dev.specs.Cause.{HasCause, OnlyMemory};
ghost use Rattle.tree_dev.specs.Listing.{deepest};
ghost use Rattle.tree_dev.specs.Memory.{is_at, is_elsewhere, without, state_of};
ghost use Rattle.tree_dev.specs.Names.{NamesIn, IsProper, entry_cmp};
ghost use Rattle.tree_dev.specs.Tree.{Keeps, Looks, within};
ghost use Rattle.tree_dev.specs.Turns.{FailsAsTold, FailsNext, after, tree_turns};

use crate::listing::sorted_names;
use crate::turns::count_fault;
use crate::{DevErr, Entries, Found, Tree, Turns};
use rel_path::{Bytes, Files, RelPath};
use std::alloc::Global;
use std::mem;

/// The bytes of the first file at the path.
pub fn bytes_at<'a>(files: &'a [(RelPath, Bytes)], path: &RelPath) -> Option<&'a Bytes>
    ensures { option_map (λ b. b.now) result ≡ file_at files.now path.now }
{
    for file in files {
        if file.0 == *path {
            return Some(&file.1);
        }
    }
    None
}

fn read_at(
    alloc: Global,
    files: &[(RelPath, Bytes)],
    path: &RelPath,
    limit: u64,
) -> Result<Found, DevErr>
    ensures found { IfOk result (λ found. found ≡ within limit (file_at files.now path.now)) }
    ensures memory { OnlyMemory result }
{
    match bytes_at(files, path) {
        None => Ok(Found::Absent),
        Some(bytes) => {
            let bytes = bytes.as_slice();
            if limit < bytes.len() as u64 {
                return Ok(Found::TooLong);
            }
            Ok(Found::Here(Bytes::read(alloc, bytes)?))
        }
    }
}

fn is_elsewhere(file: &(RelPath, Bytes), path: &RelPath) -> bool
    ensures { result ≡ is_elsewhere path.now file.now }
{
    file.0 != *path
}

// Takes away each file at the path.
fn remove_at(files: &mut Vec<(RelPath, Bytes)>, path: &RelPath)
    ensures { files.new.items ≡ without path.now files.old.items }
{
    files.retain(|file| is_elsewhere(file, path));
}

// Where the first file at the path stands in the list.
fn place_of(files: &[(RelPath, Bytes)], path: &RelPath) -> Option<usize>
    ensures { result ≡ position (is_at path.now) files.now }
{
    files.iter().position(|file| file.0 == *path)
}

// Puts these bytes at the path, in the place of the first file there.
fn write_at(files: &mut Vec<(RelPath, Bytes)>, path: RelPath, bytes: Bytes) -> Result<(), DevErr>
    ensures others { OnOk result
        (SameBut path (file_at files.old.items) (file_at files.new.items)) }
    ensures written { OnOk result (file_at files.new.items path ≡ Some bytes) }
    ensures kept { OnErr result (files.new.items ≡ files.old.items) }
    ensures memory { OnlyMemory result }
{
    match place_of(files, &path) {
        Some(at) => files[at].1 = bytes,
        None => files.push((path, bytes))?,
    }
    Ok(())
}

/// A tree in memory. Of a path that stands twice among its files the first counts.
#[derive(Drop)]
pub struct MemTree {
    alloc: Global,
    files: Files,
    turns: Turns,
    faults: u64,
}

impl MemTree {
    /// A tree with these files, of which the calls with these numbers fail, counted from 0, and change
    /// nothing but the counts. It takes no memory.
    pub fn new(alloc: Global, files: Files, fails: Vec<u64>) -> MemTree
        ensures turns { tree_turns result ≡ record { fails = fails; next = 0 } }
        ensures state { ⟦<MemTree as Tree>⟧.state result
            ≡ record {
              files = file_at files;
              held = λ _. false;
              rest = tt;
              reach = deepest files;
              faults = 0;
            } }
    {
        MemTree {
            alloc,
            files,
            turns: Turns::new(fails),
            faults: 0,
        }
    }

    pub fn files(&self) -> &Files
        ensures { (⟦<MemTree as Tree>⟧.state self.now).files ≡ file_at result.now }
    {
        &self.files
    }

    /// Puts these files into their places, as no call of a tree that is counted. Of a path that stands twice among
    /// them the first counts.
    pub fn put_all(&mut self, files: Files) -> Result<(), DevErr>
        ensures files { OnOk result
            ((⟦<MemTree as Tree>⟧.state self.new).files
            ≡ over (⟦<MemTree as Tree>⟧.state self.old).files (file_at files)) }
        ensures faults { (⟦<MemTree as Tree>⟧.state self.new).faults
            ≡ (⟦<MemTree as Tree>⟧.state self.old).faults }
        ensures turns { tree_turns self.new ≡ tree_turns self.old }
        ensures kept { OnErr result
            (⟦<MemTree as Tree>⟧.state self.new ≡ ⟦<MemTree as Tree>⟧.state self.old) }
        ensures memory { OnlyMemory result }
    {
        let mut all = files.into_vec();
        let mut others = mem::replace(&mut self.files, Files::new(self.alloc)).into_vec();
        match all.append(&mut others) {
            Ok(()) => {
                self.files = Files::from_vec(all);
                Ok(())
            }
            Err(_) => {
                self.files = Files::from_vec(others);
                Err(DevErr::OutOfMemory)
            }
        }
    }

    /// Counts a call that a device made of this tree answers beside the tree's own, and answers whether it
    /// is one of those that fail.
    pub fn fails_now(&mut self) -> bool
        ensures fails { IsTrue result ↔ FailsNext (tree_turns self.old) }
        ensures counted { tree_turns self.new ≡ after (tree_turns self.old) }
        ensures state { ⟦<MemTree as Tree>⟧.state self.new ≡ ⟦<MemTree as Tree>⟧.state self.old }
    {
        self.turns.fails_now()
    }
}

impl Tree for MemTree {
    ghost tells = { Unit {0} };

    ghost Rest = { Unit {0} };

    ghost state = { state_of };

    fn list(&mut self, alloc: Global, folder: &RelPath) -> Result<Entries, DevErr>
        ensures looks { Looks (state_of self.old) (state_of self.new) }
        ensures ascend { IfOk result (λ names. IsStrictlySortedBy entry_cmp names) }
        ensures proper { IfOk result
            (λ names. All (IsProper (state_of self.old).reach folder.now) names) }
        ensures names { IfOk result
            (λ names. NamesIn (state_of self.old).files (state_of self.old).held folder.now names) }
        ensures cause { HasCause (state_of self.old).faults (state_of self.new).faults result }
        ensures told { FailsAsTold (tree_turns self.old) (tree_turns self.new) result }
    {
        if self.turns.fails_now() {
            count_fault(&mut self.faults);
            return Err(DevErr::Failed);
        }
        let names = sorted_names(alloc, self.files.as_slice(), folder)?;
        Ok(Entries::from_vec(names))
    }

    fn read(&mut self, alloc: Global, path: &RelPath, limit: u64) -> Result<Found, DevErr>
        ensures looks { Looks (state_of self.old) (state_of self.new) }
        ensures found { IfOk result
            (λ found. found ≡ within limit ((state_of self.old).files path.now)) }
        ensures cause { HasCause (state_of self.old).faults (state_of self.new).faults result }
        ensures told { FailsAsTold (tree_turns self.old) (tree_turns self.new) result }
    {
        if self.turns.fails_now() {
            count_fault(&mut self.faults);
            return Err(DevErr::Failed);
        }
        read_at(alloc, self.files.as_slice(), path, limit)
    }

    fn write(&mut self, alloc: Global, path: &RelPath, bytes: &[u8]) -> Result<(), DevErr>
        ensures keeps { Keeps (state_of self.old) (state_of self.new) }
        ensures others { SameBut path.now (state_of self.old).files (state_of self.new).files }
        ensures written { OnOk result ((state_of self.new).files path.now ≡ Some bytes.now) }
        ensures cause { HasCause (state_of self.old).faults (state_of self.new).faults result }
        ensures told { FailsAsTold (tree_turns self.old) (tree_turns self.new) result }
        ensures kept { OnErr result ((state_of self.new).files ≡ (state_of self.old).files) }
    {
        if self.turns.fails_now() {
            count_fault(&mut self.faults);
            return Err(DevErr::Failed);
        }
        let path = path.copy()?;
        let bytes = Bytes::read(alloc, bytes)?;
        let mut files = mem::replace(&mut self.files, Files::new(self.alloc)).into_vec();
        let written = write_at(&mut files, path, bytes);
        self.files = Files::from_vec(files);
        written
    }

    fn remove(&mut self, _alloc: Global, path: &RelPath) -> Result<(), DevErr>
        ensures keeps { Keeps (state_of self.old) (state_of self.new) }
        ensures reach { (state_of self.new).reach ≤ (state_of self.old).reach }
        ensures others { SameBut path.now (state_of self.old).files (state_of self.new).files }
        ensures removed { OnOk result ((state_of self.new).files path.now ≡ None) }
        ensures cause { HasCause (state_of self.old).faults (state_of self.new).faults result }
        ensures told { FailsAsTold (tree_turns self.old) (tree_turns self.new) result }
        ensures kept { OnErr result ((state_of self.new).files ≡ (state_of self.old).files) }
    {
        if self.turns.fails_now() {
            count_fault(&mut self.faults);
            return Err(DevErr::Failed);
        }
        let mut files = mem::replace(&mut self.files, Files::new(self.alloc)).into_vec();
        remove_at(&mut files, path);
        self.files = Files::from_vec(files);
        Ok(())
    }

    ghost apart = { λ a told path held. cc };
}
