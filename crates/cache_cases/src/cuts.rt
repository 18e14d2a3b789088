// Devices that are cut off at each of their calls.
use anyhow::Result;
use serde_json::Value;

/// So many calls pass where a device is not cut off.
pub const NEVER: u64 = u64::MAX;

/// More calls than any case makes of a device.
pub const MOST_CALLS: u64 = 10_000;

/// Adds the state where it is not there yet.
pub fn push_new(states: &mut Vec<Value>, state: Value) -> Result<()> {
    if !states.contains(&state) {
        states.push(state)?;
    }
    Ok(())
}
