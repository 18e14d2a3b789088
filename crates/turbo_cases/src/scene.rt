// A repository and its stores, and changes to them.
use anyhow::{Context, Result};
use rel_path::{Bytes, Files, RelPath};
use run_case_files::{Contents, Patch, bytes_of};
use serde_json::Value;
use std::alloc::Global;
use tree_dev::bytes_at;

/// The files of a repository, and the bytes of the stores beside it.
#[derive(Drop)]
pub struct Scene {
    pub files: Files,
    pub store: Bytes,
    pub spare: Bytes,
    pub second: Bytes,
    pub shared: Bytes,
}

fn content_of(alloc: Global, content: &Value) -> Result<Bytes> {
    let text = match content.as_str() {
        Some(text) => String::from_str(alloc, text)?,
        None => content.to_string(alloc)?,
    };
    Ok(Bytes::read(alloc, text.as_bytes())?)
}

// The files that stand at other paths.
fn without(alloc: Global, files: &Files, path: &RelPath) -> Result<Files> {
    let mut others = Files::new(alloc);
    for file in files.as_slice() {
        if file.0 != *path {
            others.push((file.0.copy()?, file.1.copy()?))?;
        }
    }
    Ok(others)
}

// The path behind the folder, if it lies below that.
fn path_behind(alloc: Global, path: &RelPath, folder: &str) -> Result<Option<RelPath>> {
    let text = path.text(alloc)?;
    match text.as_str().strip_prefix(folder) {
        Some(rest) => match rest.strip_prefix("/") {
            Some(rest) => Ok(Some(RelPath::read(alloc, rest)?)),
            None => Ok(None),
        },
        None => Ok(None),
    }
}

/// The text that the bytes are.
pub fn read_text(alloc: Global, bytes: &[u8]) -> Result<String> {
    let text = str::from_utf8(bytes).ok().context("no text")?;
    Ok(String::from_str(alloc, text)?)
}

/// How the file at the path reads, if there is one.
pub fn text_at(alloc: Global, files: &Files, path: &str) -> Result<Option<String>> {
    let path = RelPath::read(alloc, path)?;
    match bytes_at(files.as_slice(), &path) {
        Some(bytes) => Ok(Some(read_text(alloc, bytes.as_slice())?)),
        None => Ok(None),
    }
}

/// Whether the files are the same, in the same order.
pub fn are_same(some: &Files, others: &Files) -> bool {
    some.as_slice() == others.as_slice()
}

impl Scene {
    /// No files, and empty stores.
    pub fn new(alloc: Global) -> Scene {
        Scene {
            files: Files::new(alloc),
            store: Bytes::from_vec(Vec::new(alloc)),
            spare: Bytes::from_vec(Vec::new(alloc)),
            second: Bytes::from_vec(Vec::new(alloc)),
            shared: Bytes::from_vec(Vec::new(alloc)),
        }
    }

    /// Puts files in the place of those at their paths, and takes away those that are `null`.
    pub fn write(&mut self, alloc: Global, contents: &Contents) -> Result<()> {
        for (path, content) in contents.iter() {
            let path = RelPath::read(alloc, path.as_str())?;
            self.files = without(alloc, &self.files, &path)?;
            if !content.is_null() {
                self.files.push((path, content_of(alloc, content)?))?;
            }
        }
        Ok(())
    }

    /// Keeps the files below the folder alone, by their paths in it.
    pub fn enter(&mut self, alloc: Global, folder: &str) -> Result<()> {
        let mut files = Files::new(alloc);
        for file in self.files.as_slice() {
            if let Some(path) = path_behind(alloc, &file.0, folder)? {
                files.push((path, file.1.copy()?))?;
            }
        }
        self.files = files;
        Ok(())
    }

    pub fn patch(&mut self, alloc: Global, patches: &[Patch]) -> Result<()> {
        let mut store = Vec::from_slice(alloc, self.store.as_slice())?;
        for patch in patches {
            let bytes = bytes_of(alloc, patch.byte.as_str())?;
            let byte = bytes.first().context("no byte to put")?;
            *store.get_mut(patch.at).context("no byte there")? = *byte;
        }
        self.store = Bytes::from_vec(store);
        Ok(())
    }
}

/// The bytes that a text stands for, a character each.
pub fn store_of(alloc: Global, text: &str) -> Result<Bytes> {
    Ok(Bytes::from_vec(bytes_of(alloc, text)?))
}
