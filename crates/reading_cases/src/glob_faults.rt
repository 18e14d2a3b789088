// Why a text is no glob, as JSON.
use anyhow::{Result, bail};
use case_files::answers;
use globs::{GlobErr, ListGlobErr};
use serde_json::{Value, json};
use std::alloc::Global;

pub fn glob_fault(alloc: Global, fault: GlobErr) -> Result<Value> {
    match fault {
        GlobErr::OpenClass { at } => answers::error_at(alloc, "OpenClass", at),
        GlobErr::OpenBrace { at } => answers::error_at(alloc, "OpenBrace", at),
        GlobErr::Nested { at } => answers::error_at(alloc, "Nested", at),
        GlobErr::Climbs { at } => answers::error_at(alloc, "Climbs", at),
        GlobErr::Wide { at } => answers::error_at(alloc, "Wide", at),
        GlobErr::OutOfMemory => bail!("out of memory"),
    }
}

pub fn list_fault(alloc: Global, fault: ListGlobErr) -> Result<Value> {
    match fault {
        ListGlobErr::At { index, fault } => {
            let fault = glob_fault(alloc, fault)?;
            Ok(json!(in alloc; {"error": "At", "index": index, "fault": fault})?)
        }
        ListGlobErr::OutOfMemory => bail!("out of memory"),
    }
}
