// A store that several runs use in turn.
ghost use Rattle.std.specs.Prelude.{◌≡◌, false};
ghost use Rattle.shared_runs.specs.MemShared.{turn_of};

use crate::calls::answers_of;
use crate::pairs::{open_fault, pairs_in, store_bytes};
use crate::parts;
use anyhow::Result;
use case_files::inputs;
use rel_path::Bytes;
use serde_json::{Value, json};
use shared_runs::{MemShared, OtherPut, OtherPuts, SharedStore};
use std::alloc::Global;

// What other runs put before each turn.
fn others_of(alloc: Global, case: &Value) -> Result<Vec<OtherPuts>> {
    let mut others = Vec::new(alloc);
    for turn in inputs::list(case, "others")? {
        let mut puts = OtherPuts::new(alloc);
        for pair in inputs::as_list(turn)? {
            let key = Bytes::from_vec(parts::key(alloc, pair)?);
            let artifact = parts::new_artifact(alloc, pair)?;
            puts.push(OtherPut { key, artifact })?;
        }
        others.push(puts)?;
    }
    Ok(others)
}

// What the calls of a run answer, or why the file is not opened, and the bytes behind them.
fn used(alloc: Global, shared: MemShared, calls: &[Value]) -> Result<(Value, Vec<u8>)>
    requires { (turn_of shared).held ≡ false }
{
    let (found, shared) = match SharedStore::open(alloc, shared) {
        Ok(opened) => {
            let mut store = opened;
            let found = answers_of(alloc, &mut store, calls)?;
            (found, store.shared())
        }
        Err(unopened) => (open_fault(alloc, unopened.fault)?, unopened.store),
    };
    Ok((found, Vec::from_slice(alloc, shared.bytes())?))
}

/// What the calls of a run answer, those of a later run over the same file (`later`), and the
/// pairs of the file behind them.
pub fn answer(alloc: Global, case: &Value) -> Result<Value> {
    let bytes = Bytes::from_vec(store_bytes(alloc, case, "file")?);
    let fails = parts::numbers(alloc, case, "fails")?;
    let shared = MemShared::new(alloc, bytes, others_of(alloc, case)?, fails);
    let (found, bytes) = used(alloc, shared, inputs::list(case, "calls")?)?;
    let file = pairs_in(alloc, &bytes)?;
    let next = MemShared::new(
        alloc,
        Bytes::from_vec(bytes),
        Vec::new(alloc),
        Vec::new(alloc),
    );
    let (later, _bytes) = used(alloc, next, inputs::list(case, "later")?)?;
    Ok(json!(in alloc; {"answers": found, "file": file, "later": later})?)
}
