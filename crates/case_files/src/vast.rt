// A device of any length that is all zeros but for what was written to it.
ghost use Rattle.std.specs.Prelude.{[]};

use anyhow::{Result, anyhow};
use rel_path::limits::MAX_STORE_BYTES;
use std::alloc::Global;
use store_dev::{StoreDevice, StoreErr};

// The magic of a store, and the gate behind it.
const START: u64 = 8;

// What a content of one frame has beside its bytes: the gate before it, its kind, two lengths and a digest.
const BESIDE: u64 = 42;

// Contents have about so many bytes, half of what a length of theirs can say.
const MOST: u64 = 1 << 31;

// The front of such a frame: an open gate, the kind of contents, and the length of a digest.
const FRONT: &[u8] = b"\x01\x02\x20\0\0\0";

/// Bytes that were written at a place.
#[derive(Drop)]
struct Written {
    at: u64,
    bytes: Vec<u8>,
}

impl Written {
    // Writes what stands in the buffer of it, where the buffer shows the device from that place on.
    fn show(&self, from: u64, buf: &mut [u8]) {
        for (i, byte) in self.bytes.iter().enumerate() {
            let place = self.at.saturating_add(i as u64);
            if place >= from {
                if let Some(shown) = buf.get_mut((place - from) as usize) {
                    *shown = *byte;
                }
            }
        }
    }
}

/// A device that holds no more than what was written, however long it is. It tells nothing.
#[derive(Drop)]
pub struct Vast {
    written: Vec<Written>,
    len: u64,
}

impl Vast {
    /// A store of contents that are all zeros, with so many bytes less than a store may have.
    pub fn with_room(alloc: Global, room: u64) -> Result<Vast> {
        let len = MAX_STORE_BYTES.saturating_sub(room);
        let mut store = Vast {
            written: Vec::new(alloc),
            len,
        };
        store.put(alloc, 0, b"TURBSTO1")?;
        store.fill(alloc, len.saturating_sub(START + 1))?;
        Ok(store)
    }

    fn put(&mut self, alloc: Global, at: u64, bytes: &[u8]) -> Result<()> {
        let bytes = Vec::from_slice(alloc, bytes)?;
        self.written.push(Written { at, bytes })?;
        Ok(())
    }

    // Frames that take so many bytes, all of one length but the last.
    fn fill(&mut self, alloc: Global, bytes: u64) -> Result<()> {
        let frames = bytes / (BESIDE + MOST) + 1;
        let each = bytes / frames;
        if each < BESIDE {
            return Err(anyhow!("no room that a store can have"));
        }
        for number in 0..frames {
            let at = START.saturating_add(number.saturating_mul(each));
            let rest = bytes.saturating_sub((frames - 1).saturating_mul(each));
            let size = if number == frames - 1 { rest } else { each };
            let Ok(content) = u32::try_from(size.saturating_sub(BESIDE)) else {
                return Err(anyhow!("no length of a content"));
            };
            self.put(alloc, at, FRONT)?;
            self.put(
                alloc,
                at.saturating_add(FRONT.len() as u64),
                &content.to_le_bytes(),
            )?;
        }
        Ok(())
    }
}

impl StoreDevice for Vast {
    ghost tells = { ⊥ };

    ghost content = { λ _. [] };

    ghost images = { λ _ _. ⊥ };

    ghost moment = { λ _. 0 };

    ghost images_since = { λ _ _ _. ⊥ };

    ghost store_faults = { λ _. 0 };

    ghost are_bytes = { λ _ t. absurd t };

    ghost few_bytes = { λ _ t. absurd t };

    ghost as_it_reads = { λ _ t. absurd t };

    ghost counts_now = { λ _ _ _ _ now. now };

    ghost only_now = { λ _ _ left. left };

    fn len(&mut self) -> Result<u64, StoreErr> {
        Ok(self.len)
    }

    fn read_at(&mut self, at: u64, buf: &mut [u8]) -> Result<(), StoreErr> {
        buf.fill(0);
        for write in &self.written {
            write.show(at, buf);
        }
        Ok(())
    }

    fn write_at(&mut self, alloc: Global, at: u64, bytes: &[u8]) -> Result<(), StoreErr> {
        let bytes = Vec::from_slice(alloc, bytes)?;
        let end = at.saturating_add(bytes.len() as u64);
        self.written.push(Written { at, bytes })?;
        self.len = self.len.max(end);
        Ok(())
    }

    fn sync(&mut self) -> Result<(), StoreErr> {
        Ok(())
    }
}
