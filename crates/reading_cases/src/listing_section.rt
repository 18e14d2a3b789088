// Listings: key texts and fingerprints.
use anyhow::{Result, bail};
use case_files::{answers, inputs};
use globs::{GlobList, GlobLists, OutSet};
use listing::{Listing, Part, Parts, fingerprint, key_text, short};
use rel_path::{Paths, Places, Text};
use serde_json::Value;
use std::alloc::Global;

fn paths(alloc: Global, value: &Value, name: &str) -> Result<Paths> {
    let mut paths = Paths::new(alloc);
    for item in inputs::list(value, name)? {
        paths.push(inputs::as_path(alloc, inputs::as_text(item)?)?)?;
    }
    Ok(paths)
}

fn places(alloc: Global, value: &Value, name: &str) -> Result<Places> {
    let mut places = Places::new(alloc);
    for item in inputs::list(value, name)? {
        match item.as_u64().map(u32::try_from) {
            Some(Ok(place)) => places.push(place)?,
            _ => bail!("no place"),
        }
    }
    Ok(places)
}

fn globs(alloc: Global, value: &[Value]) -> Result<GlobList> {
    Ok(GlobList::read(alloc, &inputs::as_texts(alloc, value)?)?)
}

fn outputs(alloc: Global, value: &Value) -> Result<OutSet> {
    let mut others = GlobLists::new(alloc);
    for list in inputs::list(value, "outputs of others")? {
        others.push(globs(alloc, inputs::as_list(list)?)?)?;
    }
    Ok(OutSet {
        folder: inputs::path(alloc, value, "folder")?,
        mine: globs(alloc, inputs::list(value, "outputs")?)?,
        others,
    })
}

fn part(alloc: Global, value: &Value) -> Result<Part> {
    Ok(Part {
        package: Text::read(alloc, inputs::text(value, "package")?)?,
        folder: inputs::path(alloc, value, "folder")?,
        task: Text::read(alloc, inputs::text(value, "task")?)?,
        scripts: inputs::texts(alloc, value, "scripts")?,
        args: inputs::texts(alloc, value, "args")?,
        outs: outputs(alloc, value)?,
        env: inputs::pairs(alloc, value, "env")?,
        inputs: paths(alloc, value, "inputs")?,
        externals: inputs::pairs(alloc, value, "externals")?,
        deps: places(alloc, value, "needs")?,
    })
}

fn listing(alloc: Global, case: &Value) -> Result<Listing> {
    let mut parts = Parts::new(alloc);
    for value in inputs::list(case, "parts")? {
        parts.push(part(alloc, value)?)?;
    }
    Ok(Listing {
        files: inputs::files(alloc, case, "files")?,
        parts: Parts::from_vec(parts.into_vec()),
    })
}

fn key(alloc: Global, case: &Value) -> Result<Vec<u8>> {
    let listing = listing(alloc, case)?;
    Ok(key_text(alloc, &listing)?.into_vec())
}

fn folders(alloc: Global, case: &Value) -> Result<Value> {
    let mut folders = Vec::new(alloc);
    for part in listing(alloc, case)?.parts.as_slice() {
        folders.push(answers::path(alloc, &part.folder)?)?;
    }
    Ok(Value::Array(folders))
}

fn short_value(alloc: Global, bytes: &[u8]) -> Result<Value> {
    answers::text(alloc, short(alloc, &fingerprint(bytes))?.as_str())
}

pub fn answer(alloc: Global, case: &Value) -> Result<Value> {
    match inputs::text(case, "call")? {
        "key text" => answers::bytes(alloc, key(alloc, case)?.as_slice()),
        "short" => short_value(alloc, key(alloc, case)?.as_slice()),
        "folders" => folders(alloc, case),
        "fingerprint" => {
            let bytes = inputs::bytes(alloc, case, "text")?;
            answers::digits(alloc, fingerprint(bytes.as_slice()).as_slice())
        }
        "short of text" => short_value(alloc, inputs::bytes(alloc, case, "text")?.as_slice()),
        _ => bail!("no such call"),
    }
}
