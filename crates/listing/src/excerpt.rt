// A listing whose files and parts lie in another one.
ghost use Rattle.std.specs.Prelude.{◌≡◌, length, IfOk, OnOk};
ghost use Rattle.codes.specs.Codes.{AreBoth, IsShort};
ghost use Rattle.listing.specs.KeyText as spec;
ghost use Rattle.listing.specs.Memory.{OnlyMemory, capped};

use crate::ListErr;
use crate::coded::Coded;
use crate::key::{key_text_len, key_text_of, part_len, put_part};
use crate::part::Part;
use globs::OutSet;
use rel_path::{Bytes, Pairs, Paths, Places, RelPath, Texts};
use std::alloc::Global;
use std::marker::Model;

/// A file of a listing, where it lies.
#[derive(Drop)]
pub struct FileIn<'a> {
    file: &'a (RelPath, Bytes),
}

impl<'a> Model for FileIn<'a> {
    ghost use Rattle.std.specs.Prelude.{List, ℕ};
    ghost use Rattle.rel_path.specs.Paths.{Path};

    ghost Value = { Path × List ℕ };

    ghost view = { λ f. f.file.now };
}

impl<'a> FileIn<'a> {
    pub fn new(file: &'a (RelPath, Bytes)) -> FileIn<'a>
        ensures { result ≡ file.now }
    {
        FileIn { file }
    }

    pub fn path(&self) -> &RelPath
        ensures { result.now ≡ self.now.0 }
    {
        &self.file.0
    }
}

/// A part of a listing, where it lies, with other dependencies in the place of its own.
#[derive(Drop)]
pub struct PartIn<'a> {
    part: &'a Part,
    deps: Places,
}

impl<'a> Model for PartIn<'a> {
    ghost use Rattle.listing.specs.declared.part.Part.{Part};

    ghost Value = { Part };

    ghost view = { λ p. record p.part.now { deps = p.deps } };
}

impl<'a> PartIn<'a> {
    pub fn new(part: &'a Part, deps: Places) -> PartIn<'a>
        ensures { result ≡ record part.now { deps = deps } }
    {
        PartIn { part, deps }
    }

    pub fn scripts(&self) -> &Texts
        ensures { result.now ≡ self.now.scripts }
    {
        &self.part.scripts
    }

    pub fn outs(&self) -> &OutSet
        ensures { result.now ≡ self.now.outs }
    {
        &self.part.outs
    }

    pub fn inputs(&self) -> &Paths
        ensures { result.now ≡ self.now.inputs }
    {
        &self.part.inputs
    }

    pub fn externals(&self) -> &Pairs
        ensures { result.now ≡ self.now.externals }
    {
        &self.part.externals
    }
}

/// A listing whose files and parts lie in another one. Nothing of them is copied.
#[derive(Drop)]
pub struct Excerpt<'a> {
    files: Vec<FileIn<'a>>,
    parts: Vec<PartIn<'a>>,
}

impl<'a> Model for Excerpt<'a> {
    ghost use Rattle.listing.specs.declared.part.Listing.{Listing};

    ghost Value = { Listing };

    ghost view = { λ e. record { files = e.files.items; parts = e.parts.items } };
}

impl<'a> Excerpt<'a> {
    pub fn new(files: Vec<FileIn<'a>>, parts: Vec<PartIn<'a>>) -> Excerpt<'a>
        ensures files { result.files ≡ files.entry.items }
        ensures parts { result.parts ≡ parts.entry.items }
    {
        Excerpt { files, parts }
    }

    pub fn files(&self) -> &[FileIn<'a>]
        ensures { result.now ≡ self.now.files }
    {
        self.files.as_slice()
    }

    pub fn parts(&self) -> &[PartIn<'a>]
        ensures { result.now ≡ self.now.parts }
    {
        self.parts.as_slice()
    }

    /// The key text, as [`crate::key_text`] writes that of a listing. The bytes are copied once.
    #[tactic(auto, unfolding(crate::specs::KeyText::key_text))]
    pub fn key_text(&self, alloc: Global) -> Result<Bytes, ListErr>
        ensures value { IfOk result (λ text. text ≡ spec.key_text self.now) }
        ensures told { OnOk result (spec.Fits self.now) }
        ensures memory { OnlyMemory result }
    {
        key_text_of(alloc, self.files.as_slice(), self.parts.as_slice())
    }

    /// How many bytes the key text has, or the greatest `usize` where these are more. None is
    /// written.
    #[tactic(auto, unfolding(crate::specs::KeyText::key_text))]
    pub fn key_len(&self) -> usize
        ensures { result ≡ capped (length (spec.key_text self.now)) }
    {
        key_text_len(self.files.as_slice(), self.parts.as_slice())
    }
}

impl<'a> Coded for FileIn<'a> {
    ghost code = { spec.file_code };

    ghost fits = { AreBoth spec.PathFits IsShort };

    fn code_len(&self) -> usize {
        self.file.code_len()
    }

    fn put(&self, to: &mut Vec<u8>) -> Result<(), ListErr> {
        self.file.put(to)
    }
}

impl<'a> Coded for PartIn<'a> {
    ghost code = { spec.part_code };

    ghost fits = { spec.PartFits };

    fn code_len(&self) -> usize {
        part_len(self.part, self.deps.as_slice())
    }

    fn put(&self, to: &mut Vec<u8>) -> Result<(), ListErr> {
        put_part(to, self.part, self.deps.as_slice())
    }
}
