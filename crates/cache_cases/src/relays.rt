// Two stores behind one cache.
ghost use Rattle.std.specs.Prelude.{◌≡◌, IsTrue, IfOk};
ghost use Rattle.relay_store.specs.Access.{IsAccessOf};
ghost use Rattle.relay_store.specs.Relays.{state_of};
ghost use Rattle.relay_store.specs.Stores.{state_in};

use crate::calls::answers_of;
use crate::cuts::{MOST_CALLS, NEVER, push_new};
use crate::pairs::{open_fault, pairs_in, pairs_on, store_bytes};
use anyhow::{Result, anyhow};
use artifact_store::{OpenErr, Store};
use case_files::{Untold, Vast, inputs};
use cli_words::Access;
use relay_store::Relay;
use serde_json::{Value, json};
use std::alloc::Global;
use store_dev::StoreDevice;

/// What calls on a relay answered, and the devices behind them.
#[derive(Drop)]
struct Relayed<S: StoreDevice + Drop, R: StoreDevice + Drop> {
    answers: Result<Value>,
    local: Option<S>,
    second: Option<R>,
}

/// How a case ended: what was answered, and the pairs of both stores.
#[derive(Drop)]
struct Outcome {
    answers: Value,
    local: Value,
    second: Value,
}

// `rw`, `r` or nothing, of each store.
fn access_of(case: &Value) -> Result<Access> {
    let access = inputs::value(case, "access")?;
    let local = inputs::text(access, "local")?;
    let second = inputs::text(access, "second")?;
    Ok(Access {
        local_reads: local.contains('r'),
        local_puts: local.contains('w'),
        second_reads: second.contains('r'),
        second_puts: second.contains('w'),
    })
}

// What a relay asks.
fn serves<S: StoreDevice + Drop, R: StoreDevice + Drop>(
    access: Access,
    local: &Option<Store<S>>,
    second: &Option<Store<R>>,
) -> bool
    ensures { IsTrue result → IsAccessOf access local.now second.now }
{
    local.is_some() == access.local_reads
        && second.is_some() == access.second_reads
        && (!access.local_puts || access.local_reads)
        && (!access.second_puts || access.second_reads)
        && (access.local_puts || access.second_puts)
}

fn is_whole<S: StoreDevice + Drop>(store: &Option<Store<S>>) -> bool
    ensures { result ≡ (state_in store.now).whole }
{
    match store {
        Some(store) => store.whole(),
        None => true,
    }
}

fn relay_of<S: StoreDevice + Drop, R: StoreDevice + Drop>(
    local: Option<Store<S>>,
    second: Option<Store<R>>,
    access: Access,
) -> Result<Relay<S, R>>
    ensures { IfOk result (λ relay. IsTrue (state_of relay).whole) }
{
    if !serves(access, &local, &second) {
        return Err(anyhow!("no access that a relay can have"));
    }
    if !is_whole(&local) || !is_whole(&second) {
        return Err(anyhow!("a store that may not be used"));
    }
    Ok(Relay::new(local, second, access))
}

fn device_of<S: StoreDevice + Drop>(store: Option<Store<S>>) -> Option<S> {
    match store {
        Some(store) => Some(store.device()),
        None => None,
    }
}

/// A store that was opened, where it is there, or why it was not.
#[derive(Drop)]
enum Opening<S: StoreDevice + Drop> {
    Opened(Option<Store<S>>),
    Refused(OpenErr, S),
}

fn open<S: StoreDevice + Drop>(alloc: Global, device: Option<S>) -> Opening<S> {
    let Some(device) = device else {
        return Opening::Opened(None);
    };
    match Store::open(alloc, device) {
        Ok(store) => Opening::Opened(Some(store)),
        Err(unopened) => Opening::Refused(unopened.fault, unopened.store),
    }
}

fn not_opened(alloc: Global, name: &str, fault: OpenErr) -> Result<Value> {
    let fault = open_fault(alloc, fault)?;
    Ok(json!(in alloc; {"unopened": name, "fault": fault})?)
}

fn called<S: StoreDevice + Drop, R: StoreDevice + Drop>(
    alloc: Global,
    calls: &[Value],
    local: Option<Store<S>>,
    second: Option<Store<R>>,
    access: Access,
) -> Relayed<S, R> {
    let mut relay = match relay_of(local, second, access) {
        Ok(relay) => relay,
        Err(fault) => {
            return Relayed {
                answers: Err(fault),
                local: None,
                second: None,
            };
        }
    };
    let answers = answers_of(alloc, &mut relay, calls);
    let (local, second) = relay.parts();
    Relayed {
        answers,
        local: device_of(local),
        second: device_of(second),
    }
}

fn used_second<S: StoreDevice + Drop, R: StoreDevice + Drop>(
    alloc: Global,
    calls: &[Value],
    local: Option<Store<S>>,
    second: Option<R>,
    access: Access,
) -> Relayed<S, R> {
    match open(alloc, second) {
        Opening::Opened(second) => called(alloc, calls, local, second, access),
        Opening::Refused(fault, second) => Relayed {
            answers: not_opened(alloc, "second", fault),
            local: device_of(local),
            second: Some(second),
        },
    }
}

// What the calls answer, or which store is none.
fn used<S: StoreDevice + Drop, R: StoreDevice + Drop>(
    alloc: Global,
    calls: &[Value],
    local: Option<S>,
    second: Option<R>,
    access: Access,
) -> Relayed<S, R> {
    match open(alloc, local) {
        Opening::Opened(local) => used_second(alloc, calls, local, second, access),
        Opening::Refused(fault, local) => Relayed {
            answers: not_opened(alloc, "local", fault),
            local: Some(local),
            second,
        },
    }
}

// A device of the pairs of that name, where it is read.
fn memory(
    alloc: Global,
    case: &Value,
    name: &str,
    reads: bool,
    passes: u64,
) -> Result<Option<Untold>> {
    if !reads {
        return Ok(None);
    }
    let bytes = store_bytes(alloc, case, name)?;
    Ok(Some(Untold::of_bytes(alloc, bytes, passes)))
}

// The pairs that a later run finds.
fn later(alloc: Global, case: &Value, name: &str, device: Option<Untold>) -> Result<Value> {
    match device {
        Some(device) => pairs_in(alloc, device.bytes()),
        None => pairs_in(alloc, &store_bytes(alloc, case, name)?),
    }
}

fn later_vast(alloc: Global, device: Option<Vast>) -> Result<Value> {
    match device {
        Some(device) => pairs_on(alloc, device),
        None => Err(anyhow!("a store that is nearly full is not read")),
    }
}

// The device calls of both stores pass so often.
fn in_memory(alloc: Global, case: &Value, passes: u64, second_passes: u64) -> Result<Outcome> {
    let access = access_of(case)?;
    let calls = inputs::list(case, "calls")?;
    let local = memory(alloc, case, "local", access.local_reads, passes)?;
    let second = memory(alloc, case, "second", access.second_reads, second_passes)?;
    let Relayed {
        answers,
        local,
        second,
    } = used(alloc, calls, local, second, access);
    let local = later(alloc, case, "local", local)?;
    let second = later(alloc, case, "second", second)?;
    Ok(Outcome {
        answers: answers?,
        local,
        second,
    })
}

fn full_local(alloc: Global, case: &Value) -> Result<Outcome> {
    let access = access_of(case)?;
    let calls = inputs::list(case, "calls")?;
    let second = memory(alloc, case, "second", access.second_reads, NEVER)?;
    let local = Vast::with_room(alloc, inputs::number(case, "local_room")?)?;
    let Relayed {
        answers,
        local,
        second,
    } = used(alloc, calls, Some(local), second, access);
    let local = later_vast(alloc, local)?;
    let second = later(alloc, case, "second", second)?;
    Ok(Outcome {
        answers: answers?,
        local,
        second,
    })
}

fn full_second(alloc: Global, case: &Value) -> Result<Outcome> {
    let access = access_of(case)?;
    let calls = inputs::list(case, "calls")?;
    let local = memory(alloc, case, "local", access.local_reads, NEVER)?;
    let second = Vast::with_room(alloc, inputs::number(case, "second_room")?)?;
    let Relayed {
        answers,
        local,
        second,
    } = used(alloc, calls, local, Some(second), access);
    let local = later(alloc, case, "local", local)?;
    let second = later_vast(alloc, second)?;
    Ok(Outcome {
        answers: answers?,
        local,
        second,
    })
}

fn ended(alloc: Global, case: &Value) -> Result<Outcome> {
    if inputs::optional(case, "local_room").is_some() {
        return full_local(alloc, case);
    }
    if inputs::optional(case, "second_room").is_some() {
        return full_second(alloc, case);
    }
    in_memory(alloc, case, NEVER, NEVER)
}

fn cut_at(alloc: Global, case: &Value, side: &str, passes: u64) -> Result<Outcome> {
    match side {
        "local" => in_memory(alloc, case, passes, NEVER),
        "second" => in_memory(alloc, case, NEVER, passes),
        _ => Err(anyhow!("no such side")),
    }
}

fn answers_in(outcome: Outcome) -> Value {
    let Outcome {
        answers,
        local: _local,
        second: _second,
    } = outcome;
    answers
}

// Adds the pairs of both stores, and says what was answered.
fn push_state(alloc: Global, states: &mut Vec<Value>, outcome: Outcome) -> Result<Value> {
    let Outcome {
        answers,
        local,
        second,
    } = outcome;
    push_new(states, json!(in alloc; [local, second])?)?;
    Ok(answers)
}

// The pairs of both stores where one of them is cut off at each of its device calls: each state
// once, in the order in which they come first.
fn cut(alloc: Global, case: &Value, side: &str) -> Result<Value> {
    let wanted = answers_in(ended(alloc, case)?);
    let mut states = Vec::new(alloc);
    for passes in 0..MOST_CALLS {
        let came = push_state(alloc, &mut states, cut_at(alloc, case, side, passes)?)?;
        if came == wanted {
            return Ok(Value::Array(states));
        }
    }
    Err(anyhow!("the calls do not end"))
}

fn shown(alloc: Global, outcome: Outcome) -> Result<Value> {
    let Outcome {
        answers,
        local,
        second,
    } = outcome;
    Ok(json!(in alloc; {"answers": answers, "local": local, "second": second})?)
}

/// What the calls answer, and the pairs of both stores behind them; or the states of both where
/// one is `cut` off.
pub fn answer(alloc: Global, case: &Value) -> Result<Value> {
    if let Some(side) = inputs::optional(case, "cut") {
        return cut(alloc, case, inputs::as_text(side)?);
    }
    shown(alloc, ended(alloc, case)?)
}
