// Manifests.
use anyhow::{Result, bail};
use case_files::{answers, inputs};
use manifest::{Manifest, ManifestErr};
use serde_json::{Value, json};
use std::alloc::Global;

fn refusal(alloc: Global, error: &ManifestErr) -> Result<Value> {
    match error {
        ManifestErr::NotJson => answers::error(alloc, "NotJson"),
        ManifestErr::NoName => answers::error(alloc, "NoName"),
        ManifestErr::WrongKind { pointer, wanted } => {
            answers::wrong_kind(alloc, pointer, wanted.word())
        }
        ManifestErr::OtherManager { text } => {
            Ok(json!(in alloc; {"error": "OtherManager", "text": text.as_str()})?)
        }
        ManifestErr::OutOfMemory => bail!("out of memory"),
    }
}

fn parts(alloc: Global, manifest: &Manifest) -> Result<Value> {
    let name = answers::optional_text(alloc, manifest.name.as_ref())?;
    let version = answers::optional_text(alloc, manifest.version.as_ref())?;
    let scripts = answers::pairs(alloc, manifest.scripts.as_slice())?;
    let workspaces = answers::texts(alloc, manifest.workspaces.as_slice())?;
    Ok(json!(in alloc; {
        "name": name,
        "version": version,
        "scripts": scripts,
        "workspaces": workspaces,
        "object form": manifest.object_form,
        "dependencies": dependencies(alloc, manifest)?
    })?)
}

// The four maps of dependencies.
fn dependencies(alloc: Global, manifest: &Manifest) -> Result<Value> {
    Ok(json!(in alloc; {
        "plain": answers::pairs(alloc, manifest.deps.as_slice())?,
        "dev": answers::pairs(alloc, manifest.dev.as_slice())?,
        "optional": answers::pairs(alloc, manifest.optional.as_slice())?,
        "peer": answers::pairs(alloc, manifest.peer.as_slice())?
    })?)
}

fn read(alloc: Global, case: &Value) -> Result<Result<Manifest, ManifestErr>> {
    let bytes = inputs::bytes(alloc, case, "manifest")?;
    let is_root = inputs::flag(case, "root")?;
    Ok(Manifest::read(alloc, bytes.as_slice(), is_root))
}

fn whole(alloc: Global, case: &Value) -> Result<Value> {
    match read(alloc, case)? {
        Ok(manifest) => parts(alloc, &manifest),
        Err(error) => refusal(alloc, &error),
    }
}

// Whether it reads, where what is in it is another case's matter.
fn verdict(alloc: Global, case: &Value) -> Result<Value> {
    match read(alloc, case)? {
        Ok(_manifest) => answers::text(alloc, "reads"),
        Err(error) => refusal(alloc, &error),
    }
}

fn message(alloc: Global, case: &Value) -> Result<Value> {
    match read(alloc, case)? {
        Ok(_manifest) => bail!("no refusal"),
        Err(error) => answers::printed(alloc, &error),
    }
}

pub fn answer(alloc: Global, case: &Value) -> Result<Value> {
    match inputs::text_or(case, "call", "read")? {
        "read" => verdict(alloc, case),
        "parts" => whole(alloc, case),
        "message" => message(alloc, case),
        _ => bail!("no such call"),
    }
}
