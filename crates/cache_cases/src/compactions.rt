// Stores that are written anew into a spare one.
use crate::cuts::{MOST_CALLS, NEVER, push_new};
use crate::pairs::{open_fault, pairs_in, pairs_on, store_bytes, with_generation};
use crate::parts;
use anyhow::{Result, anyhow};
use artifact_store::OpenErr;
use case_files::{Untold, Vast, answers, inputs};
use compact::{CompactErr, CurrentErr, Kept, Side, compact, current};
use record_log::Log;
use serde_json::{Value, json};
use std::alloc::Global;
use store_dev::StoreDevice;

// So many bytes are an empty store, which its opening may write.
const EMPTY: usize = 9;

// What a crash writes where nothing was synced.
const FILLS: [u8; 3] = [0, 1, 255];

// A crash leaves so many bytes behind the synced ones.
const KEPT: [u64; 3] = [0, 100, 1 << 20];

// The bytes of two stores, the one that is read and the spare one.
#[derive(Drop)]
struct Both {
    from: Vec<u8>,
    to: Vec<u8>,
}

fn with_fault(alloc: Global, name: &str, fault: OpenErr) -> Result<Value> {
    let fault = open_fault(alloc, fault)?;
    Ok(json!(in alloc; {"error": name, "fault": fault})?)
}

fn compact_fault(alloc: Global, error: CompactErr) -> Result<Value> {
    match error {
        CompactErr::From(fault) => with_fault(alloc, "From", fault),
        CompactErr::To(fault) => with_fault(alloc, "To", fault),
        CompactErr::NoRoom { need, free } => Ok(json!(in alloc; {"need": need, "free": free})?),
        CompactErr::LastGeneration => answers::error(alloc, "LastGeneration"),
        CompactErr::Failed => answers::error(alloc, "Failed"),
        CompactErr::OutOfMemory => Err(anyhow!("out of memory")),
    }
}

fn current_fault(alloc: Global, error: CurrentErr) -> Result<Value> {
    match error {
        CurrentErr::First(fault) => with_fault(alloc, "First", fault),
        CurrentErr::Spare(fault) => with_fault(alloc, "Spare", fault),
        CurrentErr::Failed => answers::error(alloc, "Failed"),
        CurrentErr::OutOfMemory => Err(anyhow!("out of memory")),
    }
}

// How many pairs were kept, and of how many.
fn counts(alloc: Global, outcome: Result<Kept, CompactErr>) -> Result<Value> {
    match outcome {
        Ok(kept) => Ok(json!(in alloc; [kept.kept, kept.before])?),
        Err(error) => compact_fault(alloc, error),
    }
}

fn side_of(alloc: Global, outcome: Result<Side, CurrentErr>) -> Result<Value> {
    match outcome {
        Ok(Side::First) => answers::text(alloc, "first"),
        Ok(Side::Spare) => answers::text(alloc, "spare"),
        Err(error) => current_fault(alloc, error),
    }
}

// The stores of a case, each with its pairs and its generation.
fn stores_of(alloc: Global, case: &Value) -> Result<Both> {
    let from = store_bytes(alloc, case, "from")?;
    let to = store_bytes(alloc, case, "to")?;
    Ok(Both {
        from: with_generation(alloc, from, parts::number_or(case, "generation", 0)?)?,
        to: with_generation(alloc, to, parts::number_or(case, "to_generation", 0)?)?,
    })
}

fn keep_of(case: &Value) -> Result<Option<u64>> {
    match inputs::optional(case, "keep") {
        Some(_) => Ok(Some(inputs::number(case, "keep")?)),
        None => Ok(None),
    }
}

fn generation<S: StoreDevice + Drop>(alloc: Global, device: S) -> (Value, S) {
    match Log::open(alloc, device) {
        Ok(log) => (Value::from(log.generation()), log.device()),
        Err(unopened) => (Value::Null, unopened.store),
    }
}

// Which one is current, the generation of the spare one and its pairs.
fn found<P: StoreDevice + Drop>(
    alloc: Global,
    counts: Value,
    from: Vec<u8>,
    to: P,
) -> Result<Value> {
    let (side, _, to) = current(alloc, Untold::of_bytes(alloc, from, NEVER), to);
    let side = side_of(alloc, side)?;
    let (generation, to) = generation(alloc, to);
    let to = pairs_on(alloc, to)?;
    Ok(json!(in alloc; {"counts": counts, "current": side, "generation": generation, "to": to})?)
}

// Whatever is answered, the store that is read keeps its bytes, unless it is an empty one. Of a
// device that tells nothing compaction asks nothing.
fn compacted<P: StoreDevice + Drop>(
    alloc: Global,
    case: &Value,
    from: Vec<u8>,
    to: P,
) -> Result<Value>
    requires { P.tells → ⊥ }
{
    let before = Vec::from_slice(alloc, &from)?;
    let from = Untold::of_bytes(alloc, from, NEVER);
    let (result, from, to) = compact(alloc, from, to, keep_of(case)?);
    if before.len() > EMPTY && from.bytes() != before.as_slice() {
        return Err(anyhow!("the store that is read was written to"));
    }
    found(alloc, counts(alloc, result)?, before, to)
}

fn plain(alloc: Global, case: &Value) -> Result<Value> {
    let both = stores_of(alloc, case)?;
    match inputs::optional(case, "to_room") {
        Some(_) => {
            let to = Vast::with_room(alloc, inputs::number(case, "to_room")?)?;
            compacted(alloc, case, both.from, to)
        }
        None => {
            let to = Untold::of_bytes(alloc, both.to, NEVER);
            compacted(alloc, case, both.from, to)
        }
    }
}

// ---- cuts

// The pairs of the current one of two stores.
fn pairs_of(alloc: Global, both: Both) -> Result<Value> {
    let first = Untold::of_bytes(alloc, both.from, NEVER);
    let (side, first, spare) = current(alloc, first, Untold::of_bytes(alloc, both.to, NEVER));
    match side {
        Ok(Side::First) => pairs_in(alloc, first.bytes()),
        Ok(Side::Spare) => pairs_in(alloc, spare.bytes()),
        Err(error) => current_fault(alloc, error),
    }
}

fn crashed(alloc: Global, device: &Untold, fill: u8, keep: u64) -> Result<Vec<u8>> {
    match device.crash(alloc, fill, keep) {
        Ok(store) => Ok(Vec::from_slice(alloc, store.bytes())?),
        Err(_) => Err(anyhow!("out of memory")),
    }
}

// Adds what the current one of the two has after each crash.
fn push_crashes(alloc: Global, states: &mut Vec<Value>, from: &Untold, to: &Untold) -> Result<()> {
    for fill in FILLS {
        for keep in KEPT {
            let both = Both {
                from: crashed(alloc, from, fill, keep)?,
                to: crashed(alloc, to, fill, keep)?,
            };
            push_new(states, pairs_of(alloc, both)?)?;
        }
    }
    Ok(())
}

// Compacts devices of which so many calls pass, and adds what the current one has afterwards. It
// says whether nothing failed.
fn push_cut(
    alloc: Global,
    case: &Value,
    passes: u64,
    to_passes: u64,
    states: &mut Vec<Value>,
) -> Result<bool> {
    let both = stores_of(alloc, case)?;
    let from = Untold::of_bytes(alloc, both.from, passes);
    let to = Untold::of_bytes(alloc, both.to, to_passes);
    let (result, from, to) = compact(alloc, from, to, keep_of(case)?);
    push_crashes(alloc, states, &from, &to)?;
    Ok(result.is_ok())
}

fn passes_of(side: &str, passes: u64) -> Result<(u64, u64)> {
    match side {
        "from" => Ok((passes, NEVER)),
        "to" => Ok((NEVER, passes)),
        _ => Err(anyhow!("no such side")),
    }
}

// What the current one has where one of the two is cut off at each of its device calls: each state
// once, in the order in which they come first.
fn cut(alloc: Global, case: &Value, side: &str) -> Result<Value> {
    let mut states = Vec::new(alloc);
    for passes in 0..MOST_CALLS {
        let (from, to) = passes_of(side, passes)?;
        if push_cut(alloc, case, from, to, &mut states)? {
            return Ok(Value::Array(states));
        }
    }
    Err(anyhow!("the calls do not end"))
}

/// How many pairs were kept, of how many, or why none were; and what there is afterwards. Or what
/// the current one has where one of the two is `cut` off.
pub fn answer(alloc: Global, case: &Value) -> Result<Value> {
    match inputs::optional(case, "cut") {
        Some(side) => cut(alloc, case, inputs::as_text(side)?),
        None => plain(alloc, case),
    }
}
