// What a device in memory was told to do, call by call.

/// A write that was made, or a sync behind one.
#[derive(Drop)]
pub enum Step {
    Wrote { at: u64, bytes: Vec<u8> },
    Synced,
}
