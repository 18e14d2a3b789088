// Filters: which packages they select.
use crate::packages_section::names_at;
use crate::repositories::repository_of;
use anyhow::{Result, bail};
use case_files::inputs;
use filters::{Filter, FilterErr, select, selected};
use rel_path::{Places, Texts};
use serde_json::{Value, json};
use std::alloc::Global;
use workspaces::Packages;

fn filters_of(alloc: Global, words: &Texts) -> Result<Vec<Filter>, FilterErr> {
    let mut filters = Vec::new(alloc);
    for word in words.as_slice() {
        filters.push(Filter::read(alloc, word)?)?;
    }
    Ok(filters)
}

// By filters that are all read first.
fn by_filters(alloc: Global, words: &Texts, space: &Packages) -> Result<Places, FilterErr> {
    let filters = filters_of(alloc, words)?;
    select(alloc, filters.as_slice(), space)
}

fn value(alloc: Global, space: &Packages, answer: Result<Places, FilterErr>) -> Result<Value> {
    match answer {
        Ok(places) => names_at(alloc, space, &places),
        Err(FilterErr::Unreadable { word }) => {
            Ok(json!(in alloc; {"error": "Unreadable", "word": word.as_str()})?)
        }
        Err(FilterErr::NoPackage { name }) => {
            Ok(json!(in alloc; {"error": "NoPackage", "name": name.as_str()})?)
        }
        Err(FilterErr::OutOfMemory) => bail!("out of memory"),
    }
}

pub fn answer(alloc: Global, case: &Value) -> Result<Value> {
    let space = repository_of(alloc, case)?.packages;
    let words = inputs::texts(alloc, case, "filters")?;
    let answer = match inputs::text(case, "call")? {
        "selected" => selected(alloc, &words, &space),
        "read, then selected" => by_filters(alloc, &words, &space),
        _ => bail!("no such call"),
    };
    value(alloc, &space, answer)
}
