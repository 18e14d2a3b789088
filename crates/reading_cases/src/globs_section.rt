// Globs, lists of globs and what a task owns.
use crate::glob_faults::{glob_fault, list_fault};
use anyhow::{Result, bail};
use case_files::{answers, inputs};
use globs::{Glob, GlobErr, GlobList, GlobLists, OutSet, OutSets};
use serde_json::{Value, json};
use std::alloc::Global;

fn read(alloc: Global, case: &Value) -> Result<Value> {
    match Glob::read(alloc, inputs::text(case, "glob")?) {
        Ok(_glob) => answers::text(alloc, "reads"),
        Err(fault) => glob_fault(alloc, fault),
    }
}

fn matches(alloc: Global, case: &Value) -> Result<Value> {
    let glob = Glob::read(alloc, inputs::text(case, "glob")?)?.copy()?;
    let path = inputs::path(alloc, case, "path")?;
    Ok(
        json!(in alloc; {"matches": glob.matches(&path), "matches_whole": glob.matches_whole(&path)})?,
    )
}

// The fault that the case names, with its place moved on.
fn moved(alloc: Global, case: &Value) -> Result<Value> {
    let at = inputs::number(case, "at")?;
    let fault = match inputs::text(case, "error")? {
        "OpenClass" => GlobErr::OpenClass { at },
        "OpenBrace" => GlobErr::OpenBrace { at },
        "Nested" => GlobErr::Nested { at },
        "Climbs" => GlobErr::Climbs { at },
        "Wide" => GlobErr::Wide { at },
        _ => bail!("no such fault"),
    };
    glob_fault(alloc, fault.moved(inputs::number(case, "by")?))
}

fn list(alloc: Global, case: &Value, name: &str) -> Result<GlobList> {
    Ok(GlobList::read(alloc, &inputs::texts(alloc, case, name)?)?)
}

fn read_list(alloc: Global, case: &Value) -> Result<Value> {
    match GlobList::read(alloc, &inputs::texts(alloc, case, "list")?) {
        Ok(list) => answers::texts(alloc, list.texts().as_slice()),
        Err(fault) => list_fault(alloc, fault),
    }
}

fn takes(alloc: Global, case: &Value) -> Result<Value> {
    let list = list(alloc, case, "list")?.copy()?;
    let path = inputs::path(alloc, case, "path")?;
    Ok(json!(in alloc; {"takes": list.takes(&path), "takes_whole": list.takes_whole(&path)})?)
}

fn lists(alloc: Global, case: &Value, name: &str) -> Result<GlobLists> {
    let mut lists = GlobLists::new(alloc);
    for words in inputs::list(case, name)? {
        let texts = inputs::as_texts(alloc, inputs::as_list(words)?)?;
        lists.push(GlobList::read(alloc, &texts)?)?;
    }
    Ok(lists)
}

fn copied_lists(alloc: Global, case: &Value) -> Result<Value> {
    let copy = GlobLists::from_vec(lists(alloc, case, "lists")?.copy()?.into_vec());
    let mut values = Vec::new(alloc);
    for list in copy.as_slice() {
        values.push(answers::texts(alloc, list.texts().as_slice())?)?;
    }
    Ok(Value::Array(values))
}

fn out_set(alloc: Global, case: &Value) -> Result<OutSet> {
    Ok(OutSet {
        folder: inputs::path(alloc, case, "folder")?,
        mine: list(alloc, case, "mine")?,
        others: lists(alloc, case, "others")?,
    })
}

fn owns(alloc: Global, case: &Value) -> Result<Value> {
    let set = out_set(alloc, case)?.copy()?;
    let path = inputs::path(alloc, case, "path")?;
    Ok(json!(in alloc; {"takes": set.takes(&path), "shared": set.shared(&path)})?)
}

// The folders of one set, put into a list and copied.
fn copied_sets(alloc: Global, case: &Value) -> Result<Value> {
    let mut sets = OutSets::new(alloc);
    sets.push(out_set(alloc, case)?)?;
    let copy = OutSets::from_vec(sets.copy()?.into_vec());
    let mut values = Vec::new(alloc);
    for set in copy.as_slice() {
        values.push(answers::path(alloc, &set.folder)?)?;
    }
    Ok(Value::Array(values))
}

pub fn answer(alloc: Global, case: &Value) -> Result<Value> {
    match inputs::text(case, "call")? {
        "read" => read(alloc, case),
        "matches" => matches(alloc, case),
        "moved" => moved(alloc, case),
        "read list" => read_list(alloc, case),
        "list takes" => takes(alloc, case),
        "lists" => copied_lists(alloc, case),
        "outputs take" => owns(alloc, case),
        "output sets" => copied_sets(alloc, case),
        _ => bail!("no such call"),
    }
}
